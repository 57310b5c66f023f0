//! A turn, from the ticket to its end.
ghost use Rattle.std.specs.Prelude.{◌≡◌, ℕ, ◌+◌, ◌<◌, List, [], ◌∷◌, ◌++◌, length, None};
ghost use Rattle.std.specs.List.{All};
ghost use Rattle.board_rule.specs.Views.{authors_of, named_of, marks_of, MayMark, IsTried, IsIdle};
ghost use Rattle.board_rule.specs.Calls.{view_of, board_of};
ghost use Rattle.board_turn.specs.Turn.{left};
ghost use Rattle.board_seats.specs.Sight.{Sees, Holds, Learns};
ghost use Rattle.board_seats.specs.Turning.{entered, gained, left_seen};

use board_mail::put_each;
use board_rule::{Board, BoardSeat, Held, Mailed, Named};
use board_turn::{commit, count, draw, leave, turn};
use std::sync::Wait;

/// Draws a ticket, waits for its turn, and takes the value that stands for the history.
pub fn enter<H: Named, S: Mailed + Named<Entry = H::Entry>, R: Wait>(
    board: &Board<H, S>,
    rt: &R,
    seat: &mut BoardSeat,
) -> Held<H>
    requires seat { board_of seat.old ≡ board.now.table.shared.table_id }
    requires idle { IsIdle (view_of seat.old) }
    requires few { (view_of seat.old).draws < 4294967296 }
    ensures seat { board_of seat.new ≡ board_of seat.old }
    ensures entered { (t : ℕ)
        × (view_of seat.new
        ≡ entered H.Entry.row.coded.code (view_of seat.old) t (H.entries result.home)
        (H.authors result.home) (H.marks result.home)) }
    ensures holds { Holds H.Entry.row.coded.code (view_of seat.new) (H.entries result.home)
        (H.authors result.home) }
    ensures learns { (last : List H.Entry)
        → Sees H.Entry.row.coded.code (view_of seat.old) last
        → Learns H.follows (view_of seat.old) last (H.entries result.home) (H.authors result.home)
        (H.marks result.home) }
    ensures sound { H.sound result.home }
    ensures origin { H.origin result.home ≡ H.origin board.now.table.shared.key.home.value }
{
    draw(board, seat);
    turn(board, rt, seat)
}

/// What somebody does who has drawn a ticket, before it waits for the turn. No clause speaks of it: it changes nothing of the board
/// or of its seat, and whatever it leaves is a hint.
pub trait Meanwhile {
    fn pass(&mut self, ticket: u64);
}

/// As `enter`, with something to do in between.
pub fn enter_after<H: Named, S: Mailed + Named<Entry = H::Entry>, R: Wait, M: Meanwhile>(
    board: &Board<H, S>,
    rt: &R,
    seat: &mut BoardSeat,
    meanwhile: &mut M,
) -> Held<H>
    requires seat { board_of seat.old ≡ board.now.table.shared.table_id }
    requires idle { IsIdle (view_of seat.old) }
    requires few { (view_of seat.old).draws < 4294967296 }
    ensures seat { board_of seat.new ≡ board_of seat.old }
    ensures entered { (t : ℕ)
        × (view_of seat.new
        ≡ entered H.Entry.row.coded.code (view_of seat.old) t (H.entries result.home)
        (H.authors result.home) (H.marks result.home)) }
    ensures holds { Holds H.Entry.row.coded.code (view_of seat.new) (H.entries result.home)
        (H.authors result.home) }
    ensures learns { (last : List H.Entry)
        → Sees H.Entry.row.coded.code (view_of seat.old) last
        → Learns H.follows (view_of seat.old) last (H.entries result.home) (H.authors result.home)
        (H.marks result.home) }
    ensures sound { H.sound result.home }
    ensures origin { H.origin result.home ≡ H.origin board.now.table.shared.key.home.value }
{
    draw(board, seat);
    if let Some(ticket) = seat.ticket() {
        meanwhile.pass(ticket);
    }
    turn(board, rt, seat)
}

/// Adds an entry to the history, and mails a snapshot to each session: `held.home` stands for the history with it, and names
/// this seat as its author. What the mails replaced comes back, to be dropped after the turn.
pub fn add<H: Named, S: Mailed + Named<Entry = H::Entry>>(
    board: &Board<H, S>,
    seat: &mut BoardSeat,
    held: &mut Held<H>,
    mails: Vec<S>,
) -> Vec<S>
    requires seat { board_of seat.old ≡ board.now.table.shared.table_id }
    requires entry { (l : List H.Entry)
        × (e : H.Entry)
        × Holds H.Entry.row.coded.code (view_of seat.old) l (authors_of (view_of seat.old))
        × (H.entries held.old.home ≡ l ++ e ∷ [])
        × H.follows l e }
    requires author { H.authors held.old.home
        ≡ authors_of (view_of seat.old) ++ (view_of seat.old).number ∷ [] }
    requires open { ((named_of (view_of seat.old)).stop ≡ None)
        × ((marks_of (view_of seat.old)).stop ≡ None)
        × ((H.marks held.old.home).stop ≡ None) }
    requires sessions { length mails.items ≡ board.now.table.shared.key.sessions }
    requires mails { All (λ s. S.entries s ≡ H.entries held.old.home) mails.items }
    ensures seat { board_of seat.new ≡ board_of seat.old }
    ensures held { held.new ≡ held.old }
    ensures back { length result.items ≡ length mails.items }
    ensures gained { (t : ℕ)
        × (t + 1 ≡ length (H.entries held.old.home))
        × (view_of seat.new
        ≡ record
        (gained H.Entry.row.coded.code (view_of seat.old) t (H.entries held.old.home)
        (H.authors held.old.home) board.now.table.shared.key.sessions)
        { met = (view_of seat.new).met }) }
    ensures holds { Holds H.Entry.row.coded.code (view_of seat.new) (H.entries held.old.home)
        (H.authors held.old.home) }
    ensures tried { IsTried board.now.table.shared.key.sessions (view_of seat.new).tried }
{
    commit(board, seat, held);
    put_each(board, seat, held, mails)
}

/// Ends the turn: the value goes back to its slot, and its marks are the named ones.
pub fn end<H: Named, S: Mailed + Named<Entry = H::Entry>>(
    board: &Board<H, S>,
    seat: &mut BoardSeat,
    held: Held<H>,
)
    requires seat { board_of seat.old ≡ board.now.table.shared.table_id }
    requires holds { Holds H.Entry.row.coded.code (view_of seat.old) (H.entries held.home)
        (H.authors held.home) }
    requires marks { MayMark (view_of seat.old).number (named_of (view_of seat.old))
        (H.marks held.home) }
    requires sound { H.sound held.home }
    requires origin { H.origin held.home ≡ H.origin board.now.table.shared.key.home.value }
    requires tried { IsTried board.now.table.shared.key.sessions (view_of seat.old).tried }
    ensures seat { board_of seat.new ≡ board_of seat.old }
    ensures left { view_of seat.new ≡ left (view_of seat.old) (H.marks held.home) }
{
    leave(board, seat, held);
}

/// Ends the turn after a load of the basis: the seat has seen the whole history.
pub fn end_seen<H: Named, S: Mailed + Named<Entry = H::Entry>>(
    board: &Board<H, S>,
    seat: &mut BoardSeat,
    held: Held<H>,
)
    requires seat { board_of seat.old ≡ board.now.table.shared.table_id }
    requires holds { Holds H.Entry.row.coded.code (view_of seat.old) (H.entries held.home)
        (H.authors held.home) }
    requires marks { MayMark (view_of seat.old).number (named_of (view_of seat.old))
        (H.marks held.home) }
    requires sound { H.sound held.home }
    requires origin { H.origin held.home ≡ H.origin board.now.table.shared.key.home.value }
    requires tried { IsTried board.now.table.shared.key.sessions (view_of seat.old).tried }
    ensures seat { board_of seat.new ≡ board_of seat.old }
    ensures left { view_of seat.new
        ≡ left_seen H.Entry.row.coded.code (view_of seat.old) (H.entries held.home)
        (H.marks held.home) }
{
    count(board, seat);
    leave(board, seat, held);
}
