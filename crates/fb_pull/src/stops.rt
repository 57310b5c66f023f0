//! Why a pull gives no tree.
use fb_memory::Memory;

#[derive(Clone, Copy, Debug, PartialEq, Eq)]
pub enum PullStop {
    /// The view shows its history.
    History,
    /// It makes more maps than a pull may, or one inside more others.
    TooLarge,
    Memory,
}

/// Why a part of a tree was not made.
#[derive(Clone, Copy)]
pub(crate) enum Stop {
    TooLarge,
    Memory,
}

impl From<Memory> for Stop {
    ghost use Rattle.std.specs.Prelude.{◌≡◌};
    ghost use Rattle.fb_pull.specs.declared.stops.Stop.TheVariants.{Memory};

    ghost from_gives = { λ _ stop. stop ≡ Memory };

    fn from(_: Memory) -> Stop {
        Stop::Memory
    }
}
