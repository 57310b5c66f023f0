//! The live datoms that go into the trees.
ghost use Rattle.std.specs.Prelude.{◌≡◌, ◌∷◌, [], ◌++◌, filter, IfOk, Some};
ghost use Rattle.fb_values.specs.Lists.{list_in};
ghost use Rattle.seg_merge.specs.Merged.{is_due, due_of};

use fb_covers::Covers;
use fb_memory::Memory;
use fb_values::{Datom, Order};
use live_index::Live;
use std::alloc::Global;

/// Those of the order's live list up to the transaction, as far as the order's index holds their attributes.
pub fn due(
    alloc: Global,
    live: &Live,
    order: Order,
    c: u32,
    covers: &Covers,
) -> Result<Vec<Datom>, Memory>
    ensures { IfOk result (λ due. due.items ≡ due_of covers.now c order (list_in live.now order)) }
{
    let holding = live.holding().len(order);
    let len = holding.saturating_add(live.past().len(order));
    let mut due = Vec::with_capacity(alloc, len as usize)?;
    let mut walk = live.said(order);
    while let Some(datom) = walk.next() {
        due = with_due(due, order, datom, c, covers)?;
    }
    Ok(due)
}

fn with_due(
    due: Vec<Datom>,
    order: Order,
    datom: &Datom,
    c: u32,
    covers: &Covers,
) -> Result<Vec<Datom>, Memory>
    ensures { IfOk result
        (λ new. new.items ≡ due.items ++ filter (is_due covers.now c order) (datom.now ∷ [])) }
{
    let mut due = due;
    if datom.t <= c && covers.holds(order, datom.a) {
        datom.copy_into(&mut due)?;
    }
    Ok(due)
}
