//! The same scans with copies of the datoms, which outlive the database value.
ghost use Rattle.std.specs.Prelude.{◌≡◌, List, take, IfOk, map};
ghost use Rattle.fb_values.specs.declared.facts.Datom.{Datom as TheDatom};
ghost use Rattle.fb_values.specs.declared.indexes.Order.TheVariants.{Avet};
ghost use Rattle.view_model.specs.Scan.{IsScan, leading, not_below, between};
ghost use Rattle.fb_db.specs.Seen.{window_of};

use crate::lent;
use crate::lent::Bounds;
use fb_db::Db;
use fb_memory::Memory;
use fb_preds::Selector;
use fb_values::{Datom, Datoms, Probe};
use std::alloc::Global;

/// The datoms that have the probe's leading components.
pub fn datoms<S: Selector>(alloc: Global, db: &Db<S>, probe: &Probe) -> Result<Datoms, Memory>
    ensures { IfOk result (λ ds. IsScan db.now.snapshot.entries (window_of db.now)
        (S.selects db.now.filter) probe.now.order (leading probe.now) ds) }
{
    let found = lent::datoms(alloc, db, probe)?;
    copies(alloc, &found)
}

/// The first of the datoms that have the probe's leading components, at most so many. No datom past the last of them is
/// copied or tested.
pub fn first<S: Selector>(
    alloc: Global,
    db: &Db<S>,
    probe: &Probe,
    most: usize,
) -> Result<Datoms, Memory>
    ensures { (all : List TheDatom)
        → IsScan db.now.snapshot.entries (window_of db.now) (S.selects db.now.filter)
        probe.now.order (leading probe.now) all
        → IfOk result (λ ds. ds ≡ take most all) }
{
    let found = lent::first(alloc, db, probe, most)?;
    copies(alloc, &found)
}

/// The datoms from the first one that is not below the probe to the end of the index.
pub fn seek<S: Selector>(alloc: Global, db: &Db<S>, probe: &Probe) -> Result<Datoms, Memory>
    ensures { IfOk result (λ ds. IsScan db.now.snapshot.entries (window_of db.now)
        (S.selects db.now.filter) probe.now.order (not_below probe.now) ds) }
{
    let found = lent::seek(alloc, db, probe)?;
    copies(alloc, &found)
}

/// The datoms of an attribute whose value lies within the bounds, by their values.
pub fn index_range<S: Selector>(
    alloc: Global,
    db: &Db<S>,
    attr: u64,
    bounds: Bounds,
) -> Result<Datoms, Memory>
    ensures { IfOk result (λ ds. IsScan db.now.snapshot.entries (window_of db.now)
        (S.selects db.now.filter) Avet (between attr bounds.start bounds.end) ds) }
{
    let found = lent::index_range(alloc, db, attr, bounds)?;
    copies(alloc, &found)
}

fn copies(alloc: Global, datoms: &[&Datom]) -> Result<Datoms, Memory>
    ensures { IfOk result (λ ds. ds ≡ map (λ d. d.now) datoms.now) }
{
    let mut list = Vec::with_capacity(alloc, datoms.len())?;
    for d in datoms {
        d.copy_into(&mut list)?;
    }
    Ok(Datoms::of(list))
}
