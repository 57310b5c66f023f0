//! The steps of the mail. Each is one atomic event on the table, and none is tried again.
ghost use Rattle.std.specs.Prelude.{◌≡◌, ◌+◌, ◌<◌, List, IsTrue, MatchBool};
ghost use Rattle.board_rule.specs.declared.view.Code.{Code};
ghost use Rattle.board_rule.specs.declared.view.Content.TheVariants.{Full};
ghost use Rattle.board_rule.specs.declared.view.Grab.TheVariants.{Free, Writing};
ghost use Rattle.board_rule.specs.Views.{StartsWith, codes, HasTurn, history_of, found_of, content_of, refilled, MayMove, MayLetGo, grabbed, passed, let_go, writing, skipped};
ghost use Rattle.board_rule.specs.Plays.{filled_by, MailHas};
ghost use Rattle.board_rule.specs.Calls.{view_of, board_of};

use crate::board::{Board, SlotValue};
use crate::named::{Mailed, Named};
use crate::plays::{GrabMail, GrabOwn, KeepAndLetGo, LetMailGo, LetOwnGo, PutMail, TakeMail};
use crate::seat::BoardSeat;
use crate::steps::open;

/// Takes the seat's own mail word, if it is free. It is not free while the holder of the turn has it.
pub fn step_reader_grab<H: Named, S: Mailed + Named<Entry = H::Entry>>(
    board: &Board<H, S>,
    seat: &mut BoardSeat,
) -> bool
    requires seat { board_of seat.old ≡ board.now.table.shared.table_id }
    requires session { (view_of seat.old).number < board.now.table.shared.key.sessions }
    requires free { (view_of seat.old).grab ≡ Free }
    ensures seat { board_of seat.new ≡ board_of seat.old }
    ensures won { MatchBool result (view_of seat.new ≡ grabbed (view_of seat.old))
        (view_of seat.new ≡ passed (view_of seat.old)) }
{
    let word = seat.number as usize + 3;
    let mut opened = open(&mut seat.badge);
    let met = board
        .table
        .shared
        .compare_exchange::<GrabOwn>(&mut opened, word, 0, 1);
    seat.badge = opened.into_badge();
    met == 0
}

/// Lets the seat's own mail word go. Where it keeps a copy of the snapshot that it found, it has seen that history.
pub fn step_reader_let_go<H: Named, S: Mailed + Named<Entry = H::Entry>>(
    board: &Board<H, S>,
    seat: &mut BoardSeat,
    kept: bool,
)
    requires seat { board_of seat.old ≡ board.now.table.shared.table_id }
    requires session { (view_of seat.old).number < board.now.table.shared.key.sessions }
    requires may { MayLetGo (view_of seat.old).grab }
    ensures seat { board_of seat.new ≡ board_of seat.old }
    ensures let_go { view_of seat.new ≡ let_go (view_of seat.old) kept }
    ensures seen { StartsWith (view_of seat.new).seen (view_of seat.old).seen
        × (IsTrue kept → StartsWith (view_of seat.new).seen (found_of (view_of seat.old).grab)) }
{
    let word = seat.number as usize + 3;
    let mut opened = open(&mut seat.badge);
    if kept {
        board
            .table
            .shared
            .store::<KeepAndLetGo>(&mut opened, word, 0);
    } else {
        board.table.shared.store::<LetOwnGo>(&mut opened, word, 0);
    }
    seat.badge = opened.into_badge();
}

/// Takes a session's mail word by the holder of the turn, if it is free. It is not free while its reader has it.
pub fn step_holder_grab<H: Named, S: Mailed + Named<Entry = H::Entry>>(
    board: &Board<H, S>,
    seat: &mut BoardSeat,
    session: u32,
) -> bool
    requires seat { board_of seat.old ≡ board.now.table.shared.table_id }
    requires turn { HasTurn (view_of seat.old) }
    requires session { session < board.now.table.shared.key.sessions }
    requires free { (view_of seat.old).grab ≡ Free }
    ensures seat { board_of seat.new ≡ board_of seat.old }
    ensures won { MatchBool result
        ((l : List Code) × (view_of seat.new ≡ writing (view_of seat.old) session l))
        (view_of seat.new ≡ skipped (view_of seat.old) session) }
{
    let mut opened = open(&mut seat.badge);
    let met = board
        .table
        .shared
        .compare_exchange::<GrabMail>(&mut opened, session as usize + 3, 0, 2);
    seat.badge = opened.into_badge();
    met == 0
}

/// Lets a session's mail word go, with a snapshot of the whole history in its slot.
pub fn step_holder_let_go<H: Named, S: Mailed + Named<Entry = H::Entry>>(
    board: &Board<H, S>,
    seat: &mut BoardSeat,
    session: u32,
)
    requires seat { board_of seat.old ≡ board.now.table.shared.table_id }
    requires turn { HasTurn (view_of seat.old) }
    requires session { session < board.now.table.shared.key.sessions }
    requires whole { (view_of seat.old).grab
        ≡ Writing session (Full (history_of (view_of seat.old))) }
    ensures seat { board_of seat.new ≡ board_of seat.old }
    ensures free { view_of seat.new ≡ record (view_of seat.old) { grab = Free } }
{
    let mut opened = open(&mut seat.badge);
    board
        .table
        .shared
        .store::<LetMailGo>(&mut opened, session as usize + 3, 0);
    seat.badge = opened.into_badge();
}

/// Puts `put` into a session's mail slot, whose word the seat holds, and answers what was there.
pub fn step_mail<H: Named, S: Mailed + Named<Entry = H::Entry>>(
    board: &Board<H, S>,
    seat: &mut BoardSeat,
    session: u32,
    put: Option<S>,
) -> Option<S>
    requires seat { board_of seat.old ≡ board.now.table.shared.table_id }
    requires session { session < board.now.table.shared.key.sessions }
    requires may { MayMove (view_of seat.old).number session (view_of seat.old).grab }
    ensures seat { board_of seat.new ≡ board_of seat.old }
    ensures put { view_of seat.new
        ≡ record (view_of seat.old) {
          grab = refilled (view_of seat.old).grab
              (filled_by (λ s. codes H.Entry.row.coded.code (S.entries s)) put);
        } }
    ensures was { MailHas (λ s. codes H.Entry.row.coded.code (S.entries s))
        (content_of (view_of seat.old).grab) result }
{
    let shared = &board.table.shared;
    let (word, slot) = (session as usize + 3, session as usize + 1);
    let mut opened = open(&mut seat.badge);
    shared.load::<TakeMail<H, S>>(&mut opened, word);
    let SlotValue::Mail(was) = shared.exchange(&mut opened, slot, SlotValue::Mail(put)) else {
        unreachable!()
    };
    shared.load::<PutMail<H, S>>(&mut opened, word);
    seat.badge = opened.into_badge();
    was
}
