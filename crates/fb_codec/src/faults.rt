//! Why bytes are not read.
use fb_memory::Memory;
use std::alloc::{AllocError, AllocFailed};
use thiserror::Error;

#[derive(Clone, Copy, Debug, PartialEq, Eq, Error)]
pub enum BytesFault {
    /// The first field that does not fit begins at this byte, counted from 0.
    #[error("no field fits at byte {byte}")]
    At { byte: u64 },
    #[error("out of memory")]
    Memory,
}

impl From<Memory> for BytesFault {
    ghost use Rattle.std.specs.Prelude.{◌≡◌};
    ghost use Rattle.fb_codec.specs.declared.faults.BytesFault.TheVariants.{Memory};

    ghost from_gives = { λ _ fault. fault ≡ Memory };

    fn from(_: Memory) -> BytesFault {
        BytesFault::Memory
    }
}

impl From<AllocError> for BytesFault {
    ghost use Rattle.std.specs.Prelude.{◌≡◌};
    ghost use Rattle.fb_codec.specs.declared.faults.BytesFault.TheVariants.{Memory};

    ghost from_gives = { λ _ fault. fault ≡ Memory };

    fn from(_: AllocError) -> BytesFault {
        BytesFault::Memory
    }
}

impl<T: Drop> From<AllocFailed<T>> for BytesFault {
    ghost use Rattle.std.specs.Prelude.{◌≡◌};
    ghost use Rattle.fb_codec.specs.declared.faults.BytesFault.TheVariants.{Memory};

    ghost from_gives = { λ _ fault. fault ≡ Memory };

    fn from(_: AllocFailed<T>) -> BytesFault {
        BytesFault::Memory
    }
}
