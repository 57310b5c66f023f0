//! A session's place at the board, with what it has seen.
ghost use Rattle.std.specs.Prelude.{◌≡◌};
ghost use Rattle.board_rule.specs.Calls.{view_of};

use board_seats::{BoardSeat, Seated};
use fb_view::Snapshot;

/// A seat at the board and the last snapshot that it was answered, which has all that the seat has seen.
#[derive(Drop)]
pub struct Seat {
    pub(crate) board: BoardSeat,
    pub(crate) last: Snapshot,
}

impl Seated for Seat {
    ghost use Rattle.fb_conn.specs.Seats.{board_in};

    ghost seat = { board_in };

    fn into_seat(self) -> BoardSeat {
        self.board
    }
}

impl Seat {
    pub fn last(&self) -> &Snapshot
        ensures { result.now ≡ self.now.last }
    {
        &self.last
    }

    /// How many turns it took.
    pub fn draws(&self) -> u64
        ensures { result ≡ (view_of self.now.board).draws }
    {
        self.board.draws()
    }
}
