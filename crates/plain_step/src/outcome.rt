//! The step of a transaction: the entry that it adds to a history, or why it is refused.
use crate::guard::Guard;
use edn_form::Edn;
use fb_memory::Memory;
use fb_text::Text;
use fb_values::{Datoms, Entry};
use plain_reads::{last_instant, next_instant, said, standing};
use plain_rules::{Db, Transaction, least_refusal, named_tempids, recorded, transaction_at};
use plain_walk::{first_without_shape, flat, forms_in};
use std::alloc::Global;
use tx_refusals::{Reason, Refusal};

/// What a transaction comes to.
#[derive(Drop)]
pub enum Decision {
    Refused(Refusal),
    /// The entry, and the entities of the tempids that have a name, by the bytes of the names.
    Accepted(Entry, Vec<(Text, u64)>),
}

/// What the transaction does at the history, where the clock reads this.
pub fn step<G: Guard>(
    alloc: Global,
    entries: &[Entry],
    asked: &Edn,
    reading: i64,
    guard: &G,
) -> Result<Decision, Memory> {
    let Some(forms) = forms_in(asked) else {
        return Ok(refused(Reason::NotAForm, 0));
    };
    if let Some(at) = first_without_shape(forms) {
        return Ok(refused(Reason::NotAForm, at));
    }
    let said = said(alloc, entries)?;
    let facts = standing(alloc, &said)?;
    step_at(alloc, Db::of(entries, &said, &facts), forms, reading, guard)
}

/// The step of forms that have a shape.
fn step_at<'a, G: Guard>(
    alloc: Global,
    db: Db<'a>,
    forms: &'a [Edn],
    reading: i64,
    guard: &G,
) -> Result<Decision, Memory> {
    let asks = flat(alloc, db.facts, forms)?;
    let tx = transaction_at(alloc, db, asks)?;
    decided(alloc, &tx, reading, guard)
}

fn decided<G: Guard>(
    alloc: Global,
    tx: &Transaction<'_>,
    reading: i64,
    guard: &G,
) -> Result<Decision, Memory> {
    if let Some(refusal) = least_refusal(alloc, tx)? {
        return Ok(Decision::Refused(refusal));
    }
    match guard.judge(tx.db.entries, &tx.changes)? {
        Some(bar) => Ok(refused(Reason::Barred(bar), 0)),
        None => accepted(alloc, tx, reading),
    }
}

fn refused(reason: Reason, at: usize) -> Decision {
    Decision::Refused(Refusal { reason, at })
}

fn accepted(alloc: Global, tx: &Transaction<'_>, reading: i64) -> Result<Decision, Memory> {
    let tempids = named_tempids(alloc, &tx.names)?;
    let entry = entry_of(alloc, tx, reading)?;
    Ok(Decision::Accepted(entry, tempids))
}

fn entry_of(alloc: Global, tx: &Transaction<'_>, reading: i64) -> Result<Entry, Memory> {
    let instant = next_instant(last_instant(tx.db.entries), reading);
    let datoms = recorded(alloc, tx, instant)?;
    Ok(Entry {
        t: tx.db.next_t,
        instant,
        datoms: Datoms::of(datoms),
    })
}
