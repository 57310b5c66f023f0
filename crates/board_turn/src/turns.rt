//! A turn, from the ticket to its end.
ghost use Rattle.std.specs.Prelude.{◌≡◌, ℕ, ◌+◌, ◌<◌, List, [], ◌∷◌, ◌++◌, length, Some, None, MatchBool};
ghost use Rattle.board_rule.specs.declared.view.Code.{Code};
ghost use Rattle.board_rule.specs.declared.view.Story.{Story};
ghost use Rattle.board_rule.specs.declared.view.At.TheVariants.{Away};
ghost use Rattle.board_rule.specs.declared.view.Grab.TheVariants.{Free};
ghost use Rattle.board_rule.specs.Views.{StartsWith, IsLawful, AreLawful, codes, HasTurn, history_of, authors_of, named_of, marks_of, MayMark, IsTried, story, drew, began, added, counted, Learned};
ghost use Rattle.board_rule.specs.Calls.{view_of, board_of};
ghost use Rattle.board_turn.specs.Turn.{holding, left};

use board_rule::{
    Board, BoardSeat, Held, Mailed, Named, Note, step_commit, step_core, step_count, step_draw,
    step_leave, step_look,
};
use std::hint::spin_loop;
use std::sync::Wait;

/// How often a seat looks in a round. It takes less than a microsecond on most machines, and a few on some.
const LOOKS: u32 = 64;

/// Draws a ticket for a turn.
pub fn draw<H: Named, S: Mailed + Named<Entry = H::Entry>>(
    board: &Board<H, S>,
    seat: &mut BoardSeat,
)
    requires seat { board_of seat.old ≡ board.now.table.shared.table_id }
    requires free { (view_of seat.old).ticket ≡ None }
    requires few { (view_of seat.old).draws < 4294967296 }
    ensures seat { board_of seat.new ≡ board_of seat.old }
    ensures drew { (t : ℕ) × (view_of seat.new ≡ drew (view_of seat.old) t) }
{
    step_draw(board, seat);
}

/// Looks once, and says whether the turn has come.
fn look<'a, H: Named, S: Mailed + Named<Entry = H::Entry>>(
    board: &'a Board<H, S>,
    seat: &mut BoardSeat,
) -> bool
    requires seat { board_of seat.old ≡ board.now.table.shared.table_id }
    requires waits { (view_of seat.old).turn ≡ None }
    ensures seat { board_of seat.new ≡ board_of seat.old }
    ensures turn { MatchBool result
        ((y : Story Code)
        × (view_of seat.new ≡ began (view_of seat.old) y)
        × Learned (AreLawful H.Entry.row.coded.code H.follows) (view_of seat.old) y)
        (view_of seat.new ≡ view_of seat.old) }
{
    let ticket = seat.ticket();
    let nothing: Note<'a, H> = Note::Nothing;
    ticket == Some(step_look(board, seat, nothing))
}

/// Looks a few times, and says whether the turn has come.
fn comes_soon<H: Named, S: Mailed + Named<Entry = H::Entry>>(
    board: &Board<H, S>,
    seat: &mut BoardSeat,
) -> bool
    requires seat { board_of seat.old ≡ board.now.table.shared.table_id }
    requires waits { (view_of seat.old).turn ≡ None }
    ensures seat { board_of seat.new ≡ board_of seat.old }
    ensures turn { MatchBool result
        ((y : Story Code)
        × (view_of seat.new ≡ began (view_of seat.old) y)
        × Learned (AreLawful H.Entry.row.coded.code H.follows) (view_of seat.old) y)
        (view_of seat.new ≡ view_of seat.old) }
{
    for _ in 0..LOOKS {
        if look(board, seat) {
            return true;
        }
        spin_loop();
    }
    false
}

/// Whether the seat's turn has come, or it is so near in line that it stays awake.
fn is_near<H: Named, S: Mailed + Named<Entry = H::Entry>>(
    board: &Board<H, S>,
    seat: &BoardSeat,
) -> bool {
    match seat.ticket() {
        Some(ticket) => board.is_near(ticket),
        None => false,
    }
}

/// Looks for as long as the board has patience, and says whether the turn has come. Who is near in line looks on, since a wake may
/// take longer than a turn; all others sleep at once. Nobody yields the processor, which others would take for longer.
fn comes_while_awake<H: Named, S: Mailed + Named<Entry = H::Entry>>(
    board: &Board<H, S>,
    seat: &mut BoardSeat,
) -> bool
    requires seat { board_of seat.old ≡ board.now.table.shared.table_id }
    requires waits { (view_of seat.old).turn ≡ None }
    ensures seat { board_of seat.new ≡ board_of seat.old }
    ensures turn { MatchBool result
        ((y : Story Code)
        × (view_of seat.new ≡ began (view_of seat.old) y)
        × Learned (AreLawful H.Entry.row.coded.code H.follows) (view_of seat.old) y)
        (view_of seat.new ≡ view_of seat.old) }
{
    for _ in 0..board.patience().rounds() {
        if !is_near(board, seat) {
            return false;
        }
        if comes_soon(board, seat) {
            return true;
        }
    }
    false
}

/// Looks for a while and then sleeps, until the turn has come. Whoever leaves wakes it.
fn wait_for_turn<H: Named, S: Mailed + Named<Entry = H::Entry>, R: Wait>(
    board: &Board<H, S>,
    rt: &R,
    seat: &mut BoardSeat,
)
    requires seat { board_of seat.old ≡ board.now.table.shared.table_id }
    requires ticket { (t : ℕ) × ((view_of seat.old).ticket ≡ Some t) }
    requires waits { (view_of seat.old).turn ≡ None }
    ensures seat { board_of seat.new ≡ board_of seat.old }
    ensures turn { (y : Story Code)
        × (view_of seat.new ≡ began (view_of seat.old) y)
        × Learned (AreLawful H.Entry.row.coded.code H.follows) (view_of seat.old) y }
{
    let Some(ticket) = seat.ticket() else {
        unreachable!()
    };
    for _ in rt.forever() {
        if comes_while_awake(board, seat) {
            return;
        }
        board.lie_down(ticket);
        if look(board, seat) {
            return;
        }
        board.sleep(rt, ticket);
    }
    unreachable!()
}

/// Sleeps until the ticket is served, or is near in line. It may return sooner.
pub fn come_near<H: Named, S: Mailed + Named<Entry = H::Entry>, R: Wait>(
    board: &Board<H, S>,
    rt: &R,
    ticket: u64,
) {
    if board.is_near(ticket) {
        return;
    }
    board.lie_down(ticket);
    if board.is_near(ticket) {
        return;
    }
    board.sleep(rt, ticket);
}

/// Waits for the turn of the drawn ticket, and takes the value that stands for the history. Its origin is that of the
/// value with which the board was opened.
pub fn turn<H: Named, S: Mailed + Named<Entry = H::Entry>, R: Wait>(
    board: &Board<H, S>,
    rt: &R,
    seat: &mut BoardSeat,
) -> Held<H>
    requires seat { board_of seat.old ≡ board.now.table.shared.table_id }
    requires ticket { (t : ℕ) × ((view_of seat.old).ticket ≡ Some t) }
    requires waits { (view_of seat.old).turn ≡ None }
    ensures seat { board_of seat.new ≡ board_of seat.old }
    ensures holding { view_of seat.new
        ≡ holding (view_of seat.old) (codes H.Entry.row.coded.code (H.entries result.home))
        (H.authors result.home) (H.marks result.home) }
    ensures learned { Learned (AreLawful H.Entry.row.coded.code H.follows) (view_of seat.old)
        (story (codes H.Entry.row.coded.code (H.entries result.home)) (H.authors result.home)
        (H.marks result.home)) }
    ensures lawful { IsLawful H.follows (H.entries result.home) }
    ensures sound { H.sound result.home }
    ensures origin { H.origin result.home ≡ H.origin board.now.table.shared.key.home.value }
{
    wait_for_turn(board, rt, seat);
    let Some(home) = step_core(board, seat, None) else {
        unreachable!()
    };
    Held { home }
}

/// Adds an entry to the history: `held.home` stands for the history with it, and names this seat as its author.
pub fn commit<H: Named, S: Mailed + Named<Entry = H::Entry>>(
    board: &Board<H, S>,
    seat: &mut BoardSeat,
    held: &mut Held<H>,
)
    requires seat { board_of seat.old ≡ board.now.table.shared.table_id }
    requires turn { HasTurn (view_of seat.old) × ((view_of seat.old).core ≡ Away) }
    requires entry { (l : List H.Entry)
        × (e : H.Entry)
        × (codes H.Entry.row.coded.code l ≡ history_of (view_of seat.old))
        × (H.entries held.old.home ≡ l ++ e ∷ [])
        × H.follows l e }
    requires author { H.authors held.old.home
        ≡ authors_of (view_of seat.old) ++ (view_of seat.old).number ∷ [] }
    requires open { ((named_of (view_of seat.old)).stop ≡ None)
        × ((marks_of (view_of seat.old)).stop ≡ None)
        × ((H.marks held.old.home).stop ≡ None) }
    ensures seat { board_of seat.new ≡ board_of seat.old }
    ensures held { held.new ≡ held.old }
    ensures added { (t : ℕ)
        × (t + 1 ≡ length (H.entries held.old.home))
        × (view_of seat.new
        ≡ added (view_of seat.old) (codes H.Entry.row.coded.code (H.entries held.old.home))
        (H.authors held.old.home) t) }
{
    step_commit(board, seat, &held.home);
}

/// Ends the turn: the value, whose origin no turn changes, goes back to its slot, and its marks are the named ones. Wakes who is served now, and who
/// is near in line.
pub fn leave<H: Named, S: Mailed + Named<Entry = H::Entry>>(
    board: &Board<H, S>,
    seat: &mut BoardSeat,
    held: Held<H>,
)
    requires seat { board_of seat.old ≡ board.now.table.shared.table_id }
    requires turn { HasTurn (view_of seat.old) × ((view_of seat.old).core ≡ Away) }
    requires history { (codes H.Entry.row.coded.code (H.entries held.home)
        ≡ history_of (view_of seat.old))
        × (H.authors held.home ≡ authors_of (view_of seat.old)) }
    requires marks { MayMark (view_of seat.old).number (named_of (view_of seat.old))
        (H.marks held.home) }
    requires sound { H.sound held.home }
    requires origin { H.origin held.home ≡ H.origin board.now.table.shared.key.home.value }
    requires free { (view_of seat.old).grab ≡ Free }
    requires tried { IsTried board.now.table.shared.key.sessions (view_of seat.old).tried }
    ensures seat { board_of seat.new ≡ board_of seat.old }
    ensures left { view_of seat.new ≡ left (view_of seat.old) (H.marks held.home) }
{
    let Held { home } = held;
    step_look(board, seat, Note::Marks(&home));
    step_core(board, seat, Some(home));
    step_leave(board, seat);
    board.wake();
}

/// The basis of the history, all of which the seat has then seen.
pub fn count<H: Named, S: Mailed + Named<Entry = H::Entry>>(
    board: &Board<H, S>,
    seat: &mut BoardSeat,
) -> u32
    requires { board_of seat.old ≡ board.now.table.shared.table_id }
    ensures seat { board_of seat.new ≡ board_of seat.old }
    ensures counted { (l : List Code)
        × (view_of seat.new ≡ counted (view_of seat.old) l)
        × (result + 1 ≡ length l)
        × StartsWith l (view_of seat.old).seen
        × (HasTurn (view_of seat.old) → l ≡ history_of (view_of seat.old)) }
{
    step_count(board, seat)
}
