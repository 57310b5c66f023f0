//! What the plain program makes of the transactions.
use crate::indexes::Indexes;
use crate::rows::Row;
use crate::run::CLOCK;
use anyhow::{Result, bail};
use fb_history::EntryList;
use fb_values::Entry;
use plain_step::{Decision, NoGuard, step};
use std::alloc::Global;

/// The indexes of the new database, and those after each of the transactions.
pub(crate) fn indexes_after(alloc: Global, rows: &[Row]) -> Result<Vec<Indexes>> {
    let mut entries = new_history(alloc)?;
    indexes_along(alloc, &mut entries, rows)
}

/// The history that has only the built-in schema.
fn new_history(alloc: Global) -> Result<Vec<Entry>> {
    let first = EntryList::first(alloc)?;
    let mut entries = Vec::new(alloc);
    entries.push(first.at(0).copy()?)?;
    Ok(entries)
}

fn indexes_along(alloc: Global, entries: &mut Vec<Entry>, rows: &[Row]) -> Result<Vec<Indexes>> {
    let mut after = Vec::new(alloc);
    add_indexes(alloc, &mut after, entries)?;
    for row in rows {
        transact(alloc, entries, row)?;
        add_indexes(alloc, &mut after, entries)?;
    }
    Ok(after)
}

fn add_indexes(alloc: Global, after: &mut Vec<Indexes>, entries: &[Entry]) -> Result<()> {
    after.push(Indexes::of(alloc, entries)?)?;
    Ok(())
}

/// The history grows by the transaction where that is accepted.
fn transact(alloc: Global, entries: &mut Vec<Entry>, row: &Row) -> Result<()> {
    let decision = step(alloc, entries, &row.data, CLOCK, &NoGuard)?;
    if !is_as_in(row, &decision) {
        bail!("the plain program decides otherwise than the table");
    }
    record(entries, decision)
}

fn record(entries: &mut Vec<Entry>, decision: Decision) -> Result<()> {
    match decision {
        Decision::Refused(_refusal) => Ok(()),
        Decision::Accepted(entry, _tempids) => Ok(entries.push(entry)?),
    }
}

fn is_as_in(row: &Row, decision: &Decision) -> bool {
    match decision {
        Decision::Refused(refusal) => row.is_refused_by(*refusal),
        Decision::Accepted(_, _) => row.is_accepted(),
    }
}
