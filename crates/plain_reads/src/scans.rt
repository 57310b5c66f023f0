//! Scans of an index, the transactions of the log, and points in time.
use crate::facts::{said, standing};
use crate::orders::in_order;
use crate::schema::covers;
use crate::views::{Window, view};
use fb_memory::Memory;
use fb_numbers::{GREATEST_T, TRANSACTIONS};
use fb_values::{Datom, Entry, Order, Probe, Value, cmp_probe};
use std::alloc::Global;
use std::cmp::Ordering;

/// Some of an index.
#[derive(Drop)]
pub enum Range {
    /// The datoms that have the probe's leading components.
    Leading(Probe),
    /// Those that are not below the probe.
    NotBelow(Probe),
    /// Those of an attribute, with a value from the first one on and before the second.
    Between(u64, Option<Value>, Option<Value>),
}

fn is_in(range: &Range, d: &Datom) -> bool {
    match range {
        Range::Leading(probe) => cmp_probe(probe, d) == Ordering::Equal,
        Range::NotBelow(probe) => cmp_probe(probe, d) != Ordering::Greater,
        Range::Between(a, start, end) => d.a == *a && is_from(start, &d.v) && is_before(end, &d.v),
    }
}

fn is_from(start: &Option<Value>, v: &Value) -> bool {
    match start {
        Some(start) => v.cmp(start) != Ordering::Less,
        None => true,
    }
}

fn is_before(end: &Option<Value>, v: &Value) -> bool {
    match end {
        Some(end) => v.cmp(end) == Ordering::Less,
        None => true,
    }
}

/// The datoms of the view that the index holds and the range has, in the index's order.
pub fn scan(
    alloc: Global,
    entries: &[Entry],
    window: Window,
    order: Order,
    range: &Range,
) -> Result<Vec<Datom>, Memory> {
    let facts = standing(alloc, &said(alloc, entries)?)?;
    let mut list = Vec::new(alloc);
    for d in view(alloc, entries, window)? {
        if covers(&facts, order, d.a) && is_in(range, &d) {
            list.push(d)?;
        }
    }
    in_order(alloc, order, &list)
}

/// Copies of the transactions from t `start` on and before t `end`.
pub fn transactions(
    alloc: Global,
    entries: &[Entry],
    start: u64,
    end: u64,
) -> Result<Vec<Entry>, Memory> {
    let mut list = Vec::new(alloc);
    for entry in entries {
        let t = u64::from(entry.t);
        if 1 <= t && start <= t && t < end {
            list.push(entry.copy()?)?;
        }
    }
    Ok(list)
}

/// The t after the transaction of a t, or of a transaction's entity.
pub fn end_of_number(n: u64) -> Option<u64> {
    let greatest = u64::from(GREATEST_T);
    if n <= greatest {
        Some(n + 1)
    } else if TRANSACTIONS <= n && n <= TRANSACTIONS + greatest {
        Some(n - TRANSACTIONS + 1)
    } else {
        None
    }
}
