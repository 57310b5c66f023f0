//! Rules of the caller's own.
use fb_memory::Memory;
use fb_values::{Datom, Entry};
use tx_refusals::Bar;

/// A rule of the caller's own, which may bar the changes of a transaction that breaks no other.
pub trait Guard {
    fn judge(&self, entries: &[Entry], changes: &[Datom]) -> Result<Option<Bar>, Memory>;
}

/// Bars nothing.
#[derive(Clone, Copy)]
pub struct NoGuard;

impl Guard for NoGuard {
    fn judge(&self, _entries: &[Entry], _changes: &[Datom]) -> Result<Option<Bar>, Memory> {
        Ok(None)
    }
}
