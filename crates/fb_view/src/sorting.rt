//! Datoms brought into the orders of the indexes.
ghost use Rattle.std.specs.Prelude.{◌≡◌, [], length, IfOk};
ghost use Rattle.std.specs.List.{range_with_len};
ghost use Rattle.fb_values.specs.declared.indexes.Order.{Order};
ghost use Rattle.fb_values.specs.Lists.{list_in};
ghost use Rattle.live_index.specs.Growth.{IsGrown, HasNoTwins};
ghost use Rattle.seg_tree.specs.Indexes.{trees_of, root_ids};
ghost use Rattle.fb_view.specs.InAvet.{IsInAvet};

use fb_covers::Covers;
use fb_memory::Memory;
use fb_values::{Datom, Order};
use live_index::Live;
use seg_tree::Roots;
use std::alloc::Global;

/// The datoms whose attribute AVET holds, in its order, each of them once. No other order is made.
pub fn in_avet(alloc: Global, datoms: &[Datom], covers: &Covers) -> Result<Vec<Datom>, Memory>
    requires { HasNoTwins datoms.now }
    ensures { IfOk result (λ list. IsInAvet covers.now datoms.now list.items) }
{
    let index = Live::empty(alloc).made_anew(&[], covers, covers, datoms)?;
    copied(alloc, &index, Order::Avet)
}

/// The trees of some datoms. Their ids are counted from 1 on.
pub fn trees(alloc: Global, datoms: &[Datom], covers: &Covers) -> Result<Roots, Memory>
    requires { HasNoTwins datoms.now }
    ensures grown { IfOk result (λ roots. (order : Order)
        → IsGrown order covers.now [] [] datoms.now (list_in (trees_of roots) order)) }
    ensures ids { IfOk result
        (λ roots. root_ids roots ≡ range_with_len 1 (length (root_ids roots))) }
{
    let index = index_of(alloc, datoms, covers)?;
    let eavt = copied(alloc, &index, Order::Eavt)?;
    let aevt = copied(alloc, &index, Order::Aevt)?;
    let avet = copied(alloc, &index, Order::Avet)?;
    let vaet = copied(alloc, &index, Order::Vaet)?;
    Ok(Roots::of(alloc, eavt, aevt, avet, vaet, 1)?)
}

/// The live index of some datoms alone.
fn index_of(alloc: Global, datoms: &[Datom], covers: &Covers) -> Result<Live, Memory>
    requires { HasNoTwins datoms.now }
    ensures { IfOk result (λ live. (order : Order)
        → IsGrown order covers.now [] [] datoms.now (list_in live order)) }
{
    let empty = Live::empty(alloc);
    empty.made_anew(datoms, covers, covers, &[])
}

/// Copies of the datoms of a live list.
fn copied(alloc: Global, live: &Live, order: Order) -> Result<Vec<Datom>, Memory>
    ensures { IfOk result (λ list. list.items ≡ list_in live.now order) }
{
    let mut list = Vec::new(alloc);
    let mut walk = live.said(order);
    while let Some(datom) = walk.next() {
        datom.copy_into(&mut list)?;
    }
    Ok(list)
}
