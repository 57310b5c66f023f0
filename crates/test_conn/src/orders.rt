//! The orders in which the calls of two sessions may come.
use crate::calls::{Call, Turn};
use fb_memory::Memory;
use std::alloc::Global;

/// How many calls each session makes.
pub(crate) const CALLS: usize = 4;

/// What two sessions ask, each one call after another.
#[derive(Clone, Copy)]
pub(crate) struct Script {
    pub(crate) first: &'static [Call],
    pub(crate) second: &'static [Call],
}

impl Script {
    /// The calls in one order: bit i of `order` says which session makes call i. There is none where one of them would have to make
    /// more calls than it has.
    pub(crate) fn in_order(&self, alloc: Global, order: u32) -> Result<Option<Vec<Turn>>, Memory> {
        let mut turns = Vec::new(alloc);
        let mut bits = order;
        let mut by_second = 0_usize;
        for place in 0..CALLS * 2 {
            let who = (bits % 2) as usize;
            let by_first = place.saturating_sub(by_second);
            let call = if who == 0 {
                self.first.get(by_first)
            } else {
                self.second.get(by_second)
            };
            match call {
                Some(call) => turns.push(Turn { who, call: *call })?,
                None => return Ok(None),
            }
            by_second = by_second.saturating_add(who);
            bits /= 2;
        }
        Ok(Some(turns))
    }
}
