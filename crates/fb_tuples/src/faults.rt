//! Why there is no index of tuples.
use fb_memory::Memory;
use thiserror::Error;

/// Why an index was not made.
#[derive(Clone, Copy, Debug, PartialEq, Eq, Error)]
pub enum TupleFault {
    /// The attribute at the place, counted from 0, is no composite's.
    #[error("the attribute at place {place} is no composite's")]
    BadTuple { place: u32 },
    /// The view shows its history.
    #[error("a view that shows its history has no tuples")]
    History,
    #[error("out of memory")]
    Memory,
}

impl From<Memory> for TupleFault {
    ghost use Rattle.std.specs.Prelude.{◌≡◌};
    ghost use Rattle.fb_tuples.specs.declared.faults.TupleFault.{TupleFault};

    ghost from_gives = { λ _ fault. fault ≡ TupleFault.Memory };

    fn from(_: Memory) -> TupleFault {
        TupleFault::Memory
    }
}
