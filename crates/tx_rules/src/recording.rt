//! The entry of a transaction that breaks no rule.
ghost use Rattle.std.specs.Prelude.{◌≡◌, ◌+◌, ◌<ℤ◌, ◌+ℤ◌, pos, List, IfOk, IsTrue};
ghost use Rattle.std.specs.Int.{int_max};
ghost use Rattle.fb_values.specs.declared.facts.Entry.{Entry as ModelEntry};
ghost use Rattle.fb_values.specs.declared.indexes.Order.TheVariants.{Eavt};
ghost use Rattle.fb_values.specs.Rising.{rises};
ghost use Rattle.fb_numbers.specs.Numbers.{greatest_instant};
ghost use Rattle.fb_model.specs.History as history;
ghost use Rattle.fb_model.specs.Rising.{put_in_order};
ghost use Rattle.tx_model.specs.Tempids.{db_of};
ghost use Rattle.tx_model.specs.Transaction.{Transaction};
ghost use Rattle.tx_model.specs.Step.{entry_of};
ghost use Rattle.tx_rules.specs.Entries as model;

use fb_facts::Facts;
use fb_memory::Memory;
use fb_numbers::{GREATEST_INSTANT, LEAST_INSTANT, TX_INSTANT, transaction_entity};
use fb_values::{Datom, Datoms, Entry, Order, Value, cmp_in};
use std::cmp::Ordering;

/// The entry that records the changes and, among them, the instant of their transaction. Where the list has room for one more
/// datom, nothing is copied.
pub fn entry(changes: Vec<Datom>, t: u32, instant: i64) -> Result<Entry, Memory>
    requires { IsTrue (rises Eavt changes.items) }
    ensures { (h : List ModelEntry) (tx : Transaction) → tx.db ≡ db_of h → t ≡ history.basis h + 1
        → changes.items ≡ tx.changes → IfOk result (λ entry. entry ≡ entry_of h tx instant) }
{
    entry_at(changes, t, instant)
}

fn entry_at(changes: Vec<Datom>, t: u32, instant: i64) -> Result<Entry, Memory>
    ensures { IfOk result (λ entry. entry ≡ model.entry_at t instant changes.items) }
{
    let mut datoms = changes;
    put(&mut datoms, instant_datom(t, instant))?;
    Ok(Entry {
        t,
        instant,
        datoms: Datoms::of(datoms),
    })
}

fn instant_datom(t: u32, instant: i64) -> Datom
    ensures { result ≡ model.instant_of t instant }
{
    Datom {
        e: transaction_entity(t),
        a: TX_INSTANT,
        v: Value::Instant(instant),
        t,
        added: true,
    }
}

/// Puts the datom in its place of a list in order.
fn put(list: &mut Vec<Datom>, d: Datom) -> Result<(), Memory>
    ensures { IfOk result (λ _. list.new.items ≡ put_in_order Eavt d list.old.items) }
{
    let mut at = 0;
    while at < list.len() {
        if cmp_in(Order::Eavt, &d, &list[at]) == Ordering::Less {
            list.insert(at, d)?;
            return Ok(());
        }
        if cmp_in(Order::Eavt, &list[at], &d) != Ordering::Less {
            return Ok(());
        }
        at += 1;
    }
    list.push(d)?;
    Ok(())
}

/// What the clock reads, brought into the range of instants, and at least a millisecond after the last instant.
pub fn next_instant<F: Facts>(facts: &F, reading: i64) -> i64
    requires { history.last_instant (F.history facts.now) <ℤ greatest_instant }
    ensures { result ≡ history.next_instant (F.history facts.now) reading }
{
    instant_after(facts.last_instant(), reading)
}

fn instant_after(last: i64, reading: i64) -> i64
    requires { last <ℤ greatest_instant }
    ensures { result ≡ int_max (history.into_range reading) (last +ℤ pos 1) }
{
    let next = last + 1;
    reading.max(LEAST_INSTANT).min(GREATEST_INSTANT).max(next)
}
