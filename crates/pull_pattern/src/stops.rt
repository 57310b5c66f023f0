//! Why no pattern was read.
ghost use Rattle.std.specs.Prelude.{◌≡◌};
ghost use Rattle.pull_pattern.specs.Answers.{placed};

use fb_memory::Memory;
use std::alloc::AllocFailed;

#[derive(Clone, Copy, Debug, PartialEq, Eq)]
pub enum PatternStop {
    /// The form is not a pattern. `item` is the place of its first item that has no such form, and 0 where it has no item.
    BadPattern { item: usize },
    Memory,
}

impl From<Memory> for PatternStop {
    ghost use Rattle.std.specs.Prelude.{◌≡◌};
    ghost use Rattle.pull_pattern.specs.declared.stops.PatternStop.TheVariants.{Memory};

    ghost from_gives = { λ _ stop. stop ≡ Memory };

    fn from(_: Memory) -> PatternStop {
        PatternStop::Memory
    }
}

/// Why a part of a pattern was not read.
#[derive(Clone, Copy)]
pub(crate) enum Stop {
    /// It has another form.
    OtherForm,
    Memory,
}

impl From<Memory> for Stop {
    ghost use Rattle.std.specs.Prelude.{◌≡◌};
    ghost use Rattle.pull_pattern.specs.declared.stops.Stop.TheVariants.{Memory};

    ghost from_gives = { λ _ stop. stop ≡ Memory };

    fn from(_: Memory) -> Stop {
        Stop::Memory
    }
}

/// What could not be stored is dropped.
impl<T: Drop> From<AllocFailed<T>> for Stop {
    ghost use Rattle.std.specs.Prelude.{◌≡◌};
    ghost use Rattle.pull_pattern.specs.declared.stops.Stop.TheVariants.{Memory};

    ghost from_gives = { λ _ stop. stop ≡ Memory };

    fn from(_: AllocFailed<T>) -> Stop {
        Stop::Memory
    }
}

impl Stop {
    /// Why the whole pattern was not read, whose item at the place this was.
    pub fn at(self, item: usize) -> PatternStop
        ensures { result ≡ placed item self }
    {
        match self {
            Stop::OtherForm => PatternStop::BadPattern { item },
            Stop::Memory => PatternStop::Memory,
        }
    }
}
