//! A log that only counts.
use fb_log::{Failed, Log};
use fb_memory::Memory;
use fb_values::Entry;
use std::alloc::Global;

/// It counts the records that it took, and does not take one of them.
#[derive(Clone, Copy)]
pub struct CountingLog {
    pub records: u64,
    /// The number of the record that it does not take, from 1.
    pub fails_at: Option<u64>,
}

impl Log for CountingLog {
    /// The t of an entry.
    type Record = u64;

    ghost is_of = { λ _ _. Unit {0} };

    ghost keeps = { λ _ _ _. Unit {0} };

    ghost broke = { λ _ _ _ _. Unit {0} };

    fn record(_alloc: Global, entry: &Entry) -> Result<u64, Memory> {
        Ok(u64::from(entry.t))
    }

    fn add(&mut self, made: &u64) -> Result<(), Failed> {
        if self.fails_at == Some(*made) {
            return Err(Failed);
        }
        self.records = self.records.saturating_add(1);
        Ok(())
    }

    fn add_beside(&mut self, made: &u64, _next: u64) -> Result<(), Failed> {
        self.add(made)
    }
}
