//! How long seats that wait for a turn stay awake.
ghost use Rattle.std.specs.Prelude.{◌≡◌, true, false};
ghost use Rattle.board_rule.specs.Patience.{rounds_on};

/// On fewer processors, who looks takes away what the holder of the turn is waiting for.
const ENOUGH: usize = 2;

/// So many rounds of looks outlast many turns in memory. More of them would keep a processor from the holder of the turn and from
/// what syncs its file, wherever as many threads have work as there are processors.
const SEVERAL: u32 = 16;

/// A look before it sleeps.
const ONE: u32 = 1;

/// How long who waits for a turn stays awake: for so many rounds of looks, where it is next in line, or where it is second and
/// both are to be awake. All others sleep.
#[derive(Clone, Copy, Debug, PartialEq, Eq)]
pub struct Patience {
    rounds: u32,
    both: bool,
}

impl Patience {
    /// That of who is next in line, where so many threads can run at once.
    pub fn on(processors: usize) -> Patience
        ensures rounds { result.rounds ≡ rounds_on processors }
        ensures one { result.both ≡ false }
    {
        let rounds = if processors < ENOUGH { ONE } else { SEVERAL };
        Patience {
            rounds,
            both: false,
        }
    }

    /// The same, and who is second in line stays awake for as long.
    pub fn of_both(self) -> Patience
        ensures rounds { result.rounds ≡ self.rounds }
        ensures both { result.both ≡ true }
    {
        Patience {
            rounds: self.rounds,
            both: true,
        }
    }

    /// For how many rounds of looks.
    pub fn rounds(self) -> u32
        ensures { result ≡ self.rounds }
    {
        self.rounds
    }

    /// Whether who is second in line stays awake too.
    pub fn is_of_both(self) -> bool
        ensures { result ≡ self.both }
    {
        self.both
    }

    /// So many places behind the ticket served are awake.
    pub(crate) fn places(self) -> u64 {
        if self.both { 2 } else { 1 }
    }
}
