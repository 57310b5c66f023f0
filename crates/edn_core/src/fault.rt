//! Why a form was not read.
use edn_token::What;
use fb_memory::Memory;
use thiserror::Error;

#[derive(Clone, Copy, Debug, PartialEq, Eq, Error)]
pub enum EdnFault {
    /// A token of no kind, a bracket that closes nothing, a bad escape, a duplicate, or a byte that is not UTF-8.
    #[error("bad at byte {at}")]
    Bad { at: usize },
    /// What EDN has and this reader does not.
    #[error("unsupported at byte {at}")]
    Unsupported { at: usize, what: What },
    /// A collection or a discard inside 64 open ones.
    #[error("deep at byte {at}")]
    Deep { at: usize },
    /// The input ends inside a form.
    #[error("cut at byte {at}")]
    Cut { at: usize },
    #[error("out of memory")]
    Memory,
}

impl From<Memory> for EdnFault {
    ghost use Rattle.std.specs.Prelude.{◌≡◌};
    ghost use Rattle.edn_core.specs.declared.fault.EdnFault.TheVariants.{Memory};

    ghost from_gives = { λ _ e. e ≡ Memory };

    fn from(_e: Memory) -> EdnFault {
        EdnFault::Memory
    }
}
