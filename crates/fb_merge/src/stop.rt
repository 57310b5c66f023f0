//! Why a value is not merged.
use fb_memory::Memory;
use thiserror::Error;

#[derive(Clone, Copy, Debug, PartialEq, Eq, Error)]
pub enum MergeStop {
    #[error("out of memory")]
    Memory,
    /// The numbers of the trees' nodes are used up.
    #[error("no numbers are left for the nodes of trees")]
    Spent,
}

impl From<Memory> for MergeStop {
    ghost use Rattle.std.specs.Prelude.{◌≡◌};
    ghost use Rattle.fb_merge.specs.declared.stop.MergeStop.TheVariants.{Memory};

    ghost from_gives = { λ _ stop. stop ≡ Memory };

    fn from(_: Memory) -> MergeStop {
        MergeStop::Memory
    }
}
