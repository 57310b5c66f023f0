//! The datoms of a live index that is made anew, in one table: for each order its own, and then those that come.
ghost use Rattle.std.specs.Prelude.{◌≡◌, ◌++◌, ◌∷◌, [], filter, length, IfOk};
ghost use Rattle.fb_values.specs.Lists.{list_in};
ghost use Rattle.live_index.specs.Growth.{is_held};
ghost use Rattle.live_index.specs.Gathered.{AreGathered};

use crate::live::Live;
use crate::orders::count_of;
use fb_covers::Covers;
use fb_memory::Memory;
use fb_values::{Datom, Order};
use live_runs::Table;
use std::alloc::Global;

/// Numbers of a table, the second of which is not one of them.
#[derive(Clone, Copy, Debug)]
pub struct Span {
    pub from: u32,
    pub to: u32,
}

/// A table, and the numbers of the datoms that came last.
#[derive(Drop)]
struct Grown {
    table: Table,
    last: Span,
}

/// A table, and where in it the datoms lie that each order has of its own, and those that come.
#[derive(Drop)]
pub struct Gathered {
    pub table: Table,
    pub eavt: Span,
    pub aevt: Span,
    pub avet: Span,
    pub vaet: Span,
    pub coming: Span,
}

/// What each order holds by the coverage, and what comes. AVET gets what it is refilled with for its own.
pub fn gather(
    alloc: Global,
    live: &Live,
    covers: &Covers,
    refill: &[Datom],
    datoms: &[Datom],
) -> Result<Gathered, Memory>
    ensures { IfOk result
        (λ g. AreGathered covers.now live.now refill.now datoms.now g) }
{
    let table = Table::empty(alloc);
    let Grown { table, last: eavt } = with_order(alloc, table, live, Order::Eavt, covers, &[])?;
    let Grown { table, last: aevt } = with_order(alloc, table, live, Order::Aevt, covers, &[])?;
    let Grown { table, last: avet } = with_order(alloc, table, live, Order::Avet, covers, refill)?;
    let Grown { table, last: vaet } = with_order(alloc, table, live, Order::Vaet, covers, &[])?;
    let Grown {
        table,
        last: coming,
    } = with_all(table, datoms)?;
    Ok(Gathered {
        table,
        eavt,
        aevt,
        avet,
        vaet,
        coming,
    })
}

/// The table with those of the order's live datoms, and of more, whose attribute the order's index holds.
fn with_order(
    alloc: Global,
    table: Table,
    live: &Live,
    order: Order,
    covers: &Covers,
    more: &[Datom],
) -> Result<Grown, Memory>
    ensures table { IfOk result (λ new. new.table
        ≡ table ++ (filter (is_held covers.now order) (list_in live.now order)
        ++ filter (is_held covers.now order) more.now)) }
    ensures from { IfOk result (λ new. new.last.from ≡ length table) }
    ensures to { IfOk result (λ new. new.last.to ≡ length new.table) }
{
    let held = held_of(alloc, live, order, covers)?;
    let held = with_held(held, more, order, covers)?;
    with_all(table, &held)
}

/// The table with datoms at its end.
fn with_all(table: Table, datoms: &[Datom]) -> Result<Grown, Memory>
    ensures table { IfOk result (λ new. new.table ≡ table ++ datoms.now) }
    ensures from { IfOk result (λ new. new.last.from ≡ length table) }
    ensures to { IfOk result (λ new. new.last.to ≡ length new.table) }
{
    let from = count_of(&table);
    let table = table.with_all(datoms)?;
    let to = count_of(&table);
    Ok(Grown {
        table,
        last: Span { from, to },
    })
}

/// Copies of those of the order's live datoms whose attribute the order's index holds.
fn held_of(alloc: Global, live: &Live, order: Order, covers: &Covers) -> Result<Vec<Datom>, Memory>
    ensures { IfOk result
        (λ held. held.items ≡ filter (is_held covers.now order) (list_in live.now order)) }
{
    let mut held = Vec::new(alloc);
    let mut walk = live.said(order);
    while let Some(datom) = walk.next() {
        held = with_if_held(held, datom, order, covers)?;
    }
    Ok(held)
}

/// With copies of those of more whose attribute the order's index holds.
fn with_held(
    held: Vec<Datom>,
    more: &[Datom],
    order: Order,
    covers: &Covers,
) -> Result<Vec<Datom>, Memory>
    ensures { IfOk result
        (λ new. new.items ≡ held.items ++ filter (is_held covers.now order) more.now) }
{
    let mut held = held;
    for datom in more {
        held = with_if_held(held, datom, order, covers)?;
    }
    Ok(held)
}

fn with_if_held(
    held: Vec<Datom>,
    datom: &Datom,
    order: Order,
    covers: &Covers,
) -> Result<Vec<Datom>, Memory>
    ensures { IfOk result (λ new. new.items
        ≡ held.items ++ filter (is_held covers.now order) (datom.now ∷ [])) }
{
    let mut held = held;
    if covers.holds(order, datom.a) {
        datom.copy_into(&mut held)?;
    }
    Ok(held)
}
