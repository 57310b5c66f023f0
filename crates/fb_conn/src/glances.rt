//! Looking at what was mailed, without waiting.
ghost use Rattle.std.specs.Prelude.{◌≡◌, ◌<◌, IfOk, OnErr};
ghost use Rattle.fb_model.specs.Lawful.{IsLawful};
ghost use Rattle.fb_desk.specs.Desks.{GoesOn, glanced, snapshot_of};
ghost use Rattle.board_rule.specs.Views.{longer};
ghost use Rattle.board_rule.specs.Calls.{view_of};
ghost use Rattle.fb_conn.specs.Seats.{IsSeatOf, state_of, Finds};

use crate::conn::Conn;
use crate::letters::Letter;
use crate::seats::Seat;
use board_seats::glance;
use fb_desk::Glance;
use fb_log::Log;
use fb_memory::Memory;
use fb_view::Snapshot;

/// The longer of two histories becomes the last one, and is answered.
fn take_longer(last: &mut Snapshot, letter: Letter) -> Result<Snapshot, Memory>
    ensures last { last.new.entries ≡ longer last.old.entries letter.one.entries }
    ensures lawful { IsLawful last.new.entries }
    ensures answer { IfOk result (λ snapshot. snapshot.entries ≡ last.new.entries) }
    ensures unchanged { OnErr result (last.new ≡ last.old) }
{
    let Letter { one, two } = letter;
    if last.basis() < one.basis() {
        *last = one;
        return Ok(two);
    }
    last.share()
}

impl<L: Log> Conn<L> {
    /// What was mailed to the session last, or what it has seen, whichever is more.
    pub fn db(&self, seat: &mut Seat) -> Result<Glance, Memory>
        requires { IsSeatOf self.now seat.old }
        ensures seat { IsSeatOf self.now seat.new }
        ensures goes_on { GoesOn (state_of seat.old) (state_of seat.new) }
        ensures commits { (state_of seat.new).commits ≡ (state_of seat.old).commits }
        ensures tally { (state_of seat.new).tally ≡ glanced (state_of seat.old).tally }
        ensures sees { IfOk result
            (λ glance. (snapshot_of glance).entries ≡ (state_of seat.new).entries) }
        ensures found { IfOk result (Finds (view_of seat.new.board) seat.old.last.entries) }
        ensures unchanged { OnErr result (seat.new.last ≡ seat.old.last) }
    {
        match glance(&self.board, &mut seat.board)? {
            Some(letter) => Ok(Glance::Fresh(take_longer(&mut seat.last, letter)?)),
            None => Ok(Glance::Held(seat.last.share()?)),
        }
    }
}
