//! Why a read was not made.

use fb_memory::Memory;
use read_refusals::Refusal;

/// Why the forms of a command gave nothing to read by.
#[derive(Drop)]
pub enum NameStop {
    Refused(Refusal),
    /// Out of memory.
    Memory,
}

impl From<Memory> for NameStop {
    ghost use Rattle.std.specs.Prelude.{◌≡◌};
    ghost use Rattle.fb_names.specs.declared.stops.NameStop.TheVariants.{Memory};

    ghost from_gives = { λ _ stop. stop ≡ Memory };

    fn from(_: Memory) -> NameStop {
        NameStop::Memory
    }
}

impl From<Refusal> for NameStop {
    ghost use Rattle.std.specs.Prelude.{◌≡◌};
    ghost use Rattle.fb_names.specs.declared.stops.NameStop.TheVariants.{Refused};

    ghost from_gives = { λ refusal stop. stop ≡ Refused refusal };

    fn from(refusal: Refusal) -> NameStop {
        NameStop::Refused(refusal)
    }
}
