//! A transaction at a history: what each of its forms asks, what would be recorded, and what would hold then.
use crate::changes::{Asked, asked_by};
use crate::db::Db;
use crate::tempids::{Assigned, entities_of_tempids};
use fb_memory::Memory;
use fb_numbers::{TRANSACTIONS, TX_INSTANT};
use fb_values::{Datom, Order, Value};
use plain_asks::Ask;
use plain_reads::{holds, in_order, standing};
use std::alloc::Global;

#[derive(Drop)]
pub struct Transaction<'a> {
    pub db: Db<'a>,
    /// In the walk's order, for each form.
    pub asks: Vec<Vec<Ask<'a>>>,
    /// The entities of tempids.
    pub names: Vec<Assigned<'a>>,
    /// What the forms ask for, as datoms.
    pub asked: Asked,
    /// The changes, in order, without the instant of the transaction.
    pub changes: Vec<Datom>,
    /// The facts after them.
    pub after: Vec<Datom>,
}

/// The transaction of these asks, form by form.
pub fn transaction_at<'a>(
    alloc: Global,
    db: Db<'a>,
    asks: Vec<Vec<Ask<'a>>>,
) -> Result<Transaction<'a>, Memory> {
    let names = names_in(alloc, &db, &asks)?;
    let asked = asked_by(alloc, &db, &names, &asks)?;
    let (changes, after) = changes_and_after(alloc, &db, &asked)?;
    Ok(Transaction {
        db,
        asks,
        names,
        asked,
        changes,
        after,
    })
}

fn names_in<'a>(
    alloc: Global,
    db: &Db<'_>,
    asks: &[Vec<Ask<'a>>],
) -> Result<Vec<Assigned<'a>>, Memory> {
    let all = all_asks(alloc, asks)?;
    entities_of_tempids(alloc, db, &all)
}

/// What all forms ask, one after another.
pub fn all_asks<'a>(alloc: Global, forms: &[Vec<Ask<'a>>]) -> Result<Vec<Ask<'a>>, Memory> {
    let mut all = Vec::new(alloc);
    for asks in forms {
        all.extend_from_slice(asks)?;
    }
    Ok(all)
}

/// The changes in order, and the facts after them.
fn changes_and_after(
    alloc: Global,
    db: &Db<'_>,
    asked: &Asked,
) -> Result<(Vec<Datom>, Vec<Datom>), Memory> {
    let changes = changes_of(alloc, db, asked)?;
    let after = facts_after(alloc, db.said, &changes)?;
    Ok((changes, after))
}

fn changes_of(alloc: Global, db: &Db<'_>, asked: &Asked) -> Result<Vec<Datom>, Memory> {
    let mut changes = Vec::new(alloc);
    for lists in asked.of_all_kinds() {
        add_changes(&mut changes, db.said, lists)?;
    }
    in_order(alloc, Order::Eavt, &changes)
}

/// Adds what changes something of what is asked.
fn add_changes(
    changes: &mut Vec<Datom>,
    said: &[Datom],
    asked: &[Vec<Datom>],
) -> Result<(), Memory> {
    for list in asked {
        for d in list.iter() {
            if is_change(said, d) {
                changes.push(d.copy()?)?;
            }
        }
    }
    Ok(())
}

/// Whether it is an addition of what does not hold, or a retraction of what holds.
pub fn is_change(said: &[Datom], d: &Datom) -> bool {
    holds(said, d.e, d.a, &d.v) != d.added
}

/// What holds after the changes.
fn facts_after(alloc: Global, said: &[Datom], changes: &[Datom]) -> Result<Vec<Datom>, Memory> {
    let mut all = Vec::new(alloc);
    extend(&mut all, said)?;
    extend(&mut all, changes)?;
    standing(alloc, &all)
}

/// Adds copies of the datoms at the end.
pub fn extend(list: &mut Vec<Datom>, datoms: &[Datom]) -> Result<(), Memory> {
    for d in datoms {
        list.push(d.copy()?)?;
    }
    Ok(())
}

/// What is recorded: the changes, and among them the instant of the transaction.
pub fn recorded(alloc: Global, tx: &Transaction<'_>, instant: i64) -> Result<Vec<Datom>, Memory> {
    let mut list = Vec::new(alloc);
    list.push(instant_of(tx.db.next_t, instant))?;
    extend(&mut list, &tx.changes)?;
    in_order(alloc, Order::Eavt, &list)
}

/// The datom of the instant of a transaction.
fn instant_of(t: u32, instant: i64) -> Datom {
    Datom {
        e: TRANSACTIONS + u64::from(t),
        a: TX_INSTANT,
        v: Value::Instant(instant),
        t,
        added: true,
    }
}
