//! Why a host handed out nothing.
use fb_memory::Memory;
use thiserror::Error;

/// Why a host handed out nothing.
#[derive(Clone, Copy, Debug, PartialEq, Eq, Error)]
pub enum OpenFail {
    /// The host could not open it, and has counted it.
    #[error("cannot open")]
    Failed,
    #[error("out of memory")]
    Memory,
}

impl From<Memory> for OpenFail {
    ghost use Rattle.std.specs.Prelude.{◌≡◌};
    ghost use Rattle.fb_ports.specs.declared.fails.OpenFail.{OpenFail};

    ghost from_gives = { λ _ e. e ≡ OpenFail.Memory };

    fn from(_: Memory) -> OpenFail {
        OpenFail::Memory
    }
}
