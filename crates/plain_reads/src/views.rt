//! Windows and views.
use crate::facts::{said, standing};
use fb_memory::Memory;
use fb_values::{Datom, Entry};
use std::alloc::Global;

/// The transactions from t `from` on and before t `to`, with their history or without.
#[derive(Clone, Copy)]
pub struct Window {
    pub from: u64,
    pub to: u64,
    pub history: bool,
}

/// The number of transactions recorded up to the instant.
pub fn end_of_instant(entries: &[Entry], instant: i64) -> usize {
    entries
        .iter()
        .filter(|entry| entry.instant <= instant)
        .count()
}

/// What is seen in the window before any filter, in the order in which it was recorded.
pub fn view(alloc: Global, entries: &[Entry], window: Window) -> Result<Vec<Datom>, Memory> {
    let mut within = Vec::new(alloc);
    for d in said(alloc, entries)? {
        let t = u64::from(d.t);
        if window.from <= t && t < window.to {
            within.push(d)?;
        }
    }
    if window.history {
        Ok(within)
    } else {
        standing(alloc, &within)
    }
}
