//! What becomes of one leaf.
ghost use Rattle.std.specs.Prelude.{◌≡◌, ◌<◌, ◌++◌, filter, IfOk, IsTrue};
ghost use Rattle.std.specs.List.{All};
ghost use Rattle.fb_values.specs.Rising.{IsRising};
ghost use Rattle.live_index.specs.Growth.{HasNoTwins, is_held};
ghost use Rattle.seg_merge.specs.Plans.{IsUnion, without_twin};

use fb_covers::Covers;
use fb_memory::Memory;
use fb_search::place_of_datom;
use fb_values::{Datom, Order, cmp_in};
use std::alloc::Global;
use std::cmp::Ordering;

/// The older datoms that the order's index still holds, and the added ones among them.
pub fn union(
    alloc: Global,
    order: Order,
    covers: &Covers,
    old: &[Datom],
    added: &[Datom],
) -> Result<Vec<Datom>, Memory>
    requires old_rises { IsRising order old.now }
    requires added_rises { IsRising order added.now }
    requires single { HasNoTwins (old.now ++ added.now) }
    ensures { IfOk result (λ new. IsUnion order covers.now old.now added.now new.items) }
{
    let mut all = Vec::with_capacity(alloc, old.len().saturating_add(added.len()))?;
    let mut rest = old;
    for datom in added {
        let (before, behind) = rest.split_at(place_of_datom(order, rest, datom));
        all = with_held(all, order, covers, before)?;
        all.push(datom.copy()?)?;
        rest = without_twin(order, behind, datom);
    }
    with_held(all, order, covers, rest)
}

/// Whether the order's index holds the attribute of each of the datoms.
pub fn are_held(order: Order, covers: &Covers, datoms: &[Datom]) -> bool
    requires { IsRising order datoms.now }
    ensures held { IsTrue result → All (λ d. IsTrue (is_held covers.now order d)) datoms.now }
    ensures all { All (λ d. IsTrue (is_held covers.now order d)) datoms.now → IsTrue result }
{
    match (order, datoms.first(), datoms.last()) {
        // Attributes come first in AVET, so those between have it too.
        (Order::Avet, Some(first), Some(last)) if first.a == last.a => {
            covers.holds(Order::Avet, first.a)
        }
        _ => are_each_held(order, covers, datoms),
    }
}

fn are_each_held(order: Order, covers: &Covers, datoms: &[Datom]) -> bool
    ensures held { IsTrue result → All (λ d. IsTrue (is_held covers.now order d)) datoms.now }
    ensures all { All (λ d. IsTrue (is_held covers.now order d)) datoms.now → IsTrue result }
{
    for datom in datoms {
        if !covers.holds(order, datom.a) {
            return false;
        }
    }
    true
}

fn with_held(
    list: Vec<Datom>,
    order: Order,
    covers: &Covers,
    datoms: &[Datom],
) -> Result<Vec<Datom>, Memory>
    ensures { IfOk result
        (λ new. new.items ≡ list.items ++ filter (is_held covers.now order) datoms.now) }
{
    let mut list = list;
    for datom in datoms {
        if covers.holds(order, datom.a) {
            datom.copy_into(&mut list)?;
        }
    }
    Ok(list)
}

/// The datoms after one that has this key.
fn without_twin<'a>(order: Order, datoms: &'a [Datom], datom: &Datom) -> &'a [Datom]
    ensures { result.now ≡ without_twin order datom.now datoms.now }
{
    match datoms.first() {
        Some(first) if cmp_in(order, first, datom) == Ordering::Equal => &datoms[1..],
        _ => datoms,
    }
}
