//! A store that keeps nothing.
use fb_roots::{Base, KeepFault, RootStore};
use std::alloc::Global;

/// No store: trees are had in memory alone, which no opening finds again, and nothing can fail.
#[derive(Clone, Copy)]
pub struct NoStore;

impl RootStore for NoStore {
    ghost faults = { λ _. 0 };

    ghost goes = { λ _ _. Unit {0} };

    ghost keeps = { λ _ _ _. Unit {0} };

    ghost next = { λ _. 0 };

    ghost fits = { λ _ _. Unit {0} };

    fn next_id(&self) -> u64 {
        0
    }

    fn keep(&mut self, _alloc: Global, _base: &Base) -> Result<(), KeepFault> {
        Ok(())
    }
}
