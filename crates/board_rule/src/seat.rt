//! A seat: one thread's token for the board.
ghost use Rattle.std.specs.Prelude.{◌≡◌, ℕ, ◌<◌, [], ◌∷◌, true, Some, is_some};
ghost use Rattle.board_rule.specs.Seat.{first_of};
ghost use Rattle.board_rule.specs.Views.{Rests};

use crate::view::{Code, View};
use atomic_table::Badge;

/// One thread's token for the board, which may go to another thread. What it knows is its view, of which it keeps in
/// memory only what the steps need.
#[derive(Drop)]
pub struct BoardSeat {
    pub(crate) number: u32,
    pub(crate) given: u32,
    pub(crate) draws: u64,
    pub(crate) ticket: Option<u64>,
    pub(crate) badge: Badge<View<Code>>,
    ghost seated: { badge.views ≡ first_of badge.views ∷ [] },
    ghost live: { 0 < (first_of badge.views).seats },
    ghost rests: { Rests (first_of badge.views) },
    ghost turn_by_ticket: { is_some (first_of badge.views).turn ≡ true → is_some (first_of badge.views).ticket ≡ true },
    ghost number_is: { number ≡ (first_of badge.views).number },
    ghost given_is: { given ≡ (first_of badge.views).given },
    ghost draws_are: { draws ≡ (first_of badge.views).draws },
    ghost ticket_is: { ticket ≡ (first_of badge.views).ticket },
    ghost small: { (t : ℕ) → ticket ≡ Some t → t < 9223372041149743104 },
}

impl BoardSeat {
    ghost use Rattle.board_rule.specs.Calls.{view_of};

    /// The number that the board gave it. Entries name their author by it.
    pub fn number(&self) -> u32
        ensures { result ≡ (view_of self.now).number }
    {
        self.number
    }

    /// The number of draws that it made.
    pub fn draws(&self) -> u64
        ensures { result ≡ (view_of self.now).draws }
    {
        self.draws
    }

    /// The ticket that it drew and has not given up.
    pub fn ticket(&self) -> Option<u64>
        ensures { result ≡ (view_of self.now).ticket }
    {
        self.ticket
    }
}
