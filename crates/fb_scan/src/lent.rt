//! The scans of an index, whose datoms are lent. A probe cannot be wrong, and of an attribute that an index does not hold
//! there is no datom in it, so a scan ends without an answer only if memory runs out.
ghost use Rattle.std.specs.Prelude.{◌≡◌, List, take, IfOk, MatchOption, map};
ghost use Rattle.fb_values.specs.declared.facts.Datom.{Datom as TheDatom};
ghost use Rattle.fb_values.specs.declared.indexes.Order.TheVariants.{Avet};
ghost use Rattle.view_model.specs.Scan.{IsScan, leading, not_below, between};
ghost use Rattle.fb_db.specs.Seen.{window_of};
ghost use Rattle.fb_scan.specs.Ends.{valued};

use crate::ends::End;
use crate::walk::lend;
use fb_db::Db;
use fb_memory::Memory;
use fb_preds::Selector;
use fb_values::{Datom, Order, Probe, Value};
use std::alloc::Global;

/// The datoms that have the probe's leading components.
pub fn datoms<'a, S: Selector>(
    alloc: Global,
    db: &'a Db<S>,
    probe: &Probe,
) -> Result<Vec<&'a Datom>, Memory>
    ensures { IfOk result (λ ds. IsScan db.now.snapshot.entries (window_of db.now)
        (S.selects db.now.filter) probe.now.order (leading probe.now)
        (map (λ d. d.now) ds.items)) }
{
    lend(alloc, db, probe, End::Behind(probe), None)
}

/// The first of the datoms that have the probe's leading components, at most so many. No datom past the last of them is
/// tested.
pub fn first<'a, S: Selector>(
    alloc: Global,
    db: &'a Db<S>,
    probe: &Probe,
    most: usize,
) -> Result<Vec<&'a Datom>, Memory>
    ensures { (all : List TheDatom)
        → IsScan db.now.snapshot.entries (window_of db.now) (S.selects db.now.filter)
        probe.now.order (leading probe.now) all
        → IfOk result (λ ds. map (λ d. d.now) ds.items ≡ take most all) }
{
    lend(alloc, db, probe, End::Behind(probe), Some(most))
}

/// The datoms from the first one that is not below the probe to the end of the index.
pub fn seek<'a, S: Selector>(
    alloc: Global,
    db: &'a Db<S>,
    probe: &Probe,
) -> Result<Vec<&'a Datom>, Memory>
    ensures { IfOk result (λ ds. IsScan db.now.snapshot.entries (window_of db.now)
        (S.selects db.now.filter) probe.now.order (not_below probe.now)
        (map (λ d. d.now) ds.items)) }
{
    lend(alloc, db, probe, End::Never, None)
}

/// Values from the first one on and before the second. Where one is not given, that end is open.
#[derive(Drop)]
pub struct Bounds {
    pub start: Option<Value>,
    pub end: Option<Value>,
}

/// The datoms of an attribute whose value lies within the bounds, by their values.
pub fn index_range<'a, S: Selector>(
    alloc: Global,
    db: &'a Db<S>,
    attr: u64,
    bounds: Bounds,
) -> Result<Vec<&'a Datom>, Memory>
    ensures { IfOk result (λ ds. IsScan db.now.snapshot.entries (window_of db.now)
        (S.selects db.now.filter) Avet (between attr bounds.start bounds.end)
        (map (λ d. d.now) ds.items)) }
{
    let from = valued(attr, bounds.start);
    let to = valued(attr, bounds.end);
    lend(alloc, db, &from, end_at(&to), None)
}

/// The attribute's datoms, or those with the value.
fn valued(attr: u64, v: Option<Value>) -> Probe
    ensures { result ≡ valued attr v }
{
    Probe {
        order: Order::Avet,
        e: None,
        a: Some(attr),
        v,
        t: None,
    }
}

/// Before the value, or after all of the attribute's datoms where the probe has none.
fn end_at(probe: &Probe) -> End<'_>
    ensures { MatchOption probe.now.v (result ≡ End.Behind probe.entry)
        (λ _. result ≡ End.Before probe.entry) }
{
    if probe.v.is_some() {
        End::Before(probe)
    } else {
        End::Behind(probe)
    }
}
