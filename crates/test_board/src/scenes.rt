//! Single scenes on one thread, step by step.
ghost use Rattle.std.specs.Prelude.{◌≡◌, ◌+◌, ◌<◌, IfOk};
ghost use base.Stored.{coded_ℕ};
ghost use Rattle.board_rule.specs.Views.{StartsWith, codes, IsIdle};
ghost use Rattle.board_rule.specs.Calls.{view_of, board_of};
ghost use Rattle.test_board.specs.Books.{IsSameSeat};

use crate::book::{Book, Page};
use crate::crew::open;
use crate::rounds::{begin, end, put_one, round, stop};
use board_mail::{Mail, peek};
use board_rule::laws::{
    a_beginning_in_codes_is_one_in_entries, a_join_adds_its_note_behind_the_others,
};
use board_rule::{Board, BoardSeat, step_join, step_reader_grab, step_reader_let_go, step_split};
use board_turn::count;
use fb_memory::Memory;
use std::alloc::Global;
use std::sync::Wait;

/// What a reader and a writer of mail met.
#[derive(Debug, PartialEq, Eq, Clone, Copy)]
pub struct Met {
    /// The reader got its word.
    pub grabbed: bool,
    /// The writer could put a snapshot into the mail of the reader, who held its word.
    pub put: bool,
    /// How many numbers the reader found in its mail once it had let go, and how many the writer found in its own.
    pub found: usize,
    pub found_by_writer: usize,
}

/// The length of the book in the mail, or 0 where its word was held.
fn mail_length(mail: &Mail<Page>) -> usize {
    match mail {
        Mail::Fresh(page) => page.entries.len(),
        Mail::Held => 0,
    }
}

/// A reader holds its mail word while a writer commits and mails, and lets go after.
pub fn reader_holds<R: Wait>(alloc: Global, rt: &R) -> Result<Met, Memory> {
    let (board, mut first) = open(alloc, 0, 2)?;
    let mut reader = step_split(&board, &mut first);
    let mut writer = step_split(&board, &mut first);
    if !step_reader_grab(&board, &mut reader) {
        return Ok(Met {
            grabbed: false,
            put: false,
            found: 0,
            found_by_writer: 0,
        });
    }
    let mut held = begin(rt, &board, &mut writer);
    let put = put_one(alloc, &board, &mut writer, &mut held, 0);
    end(&board, &mut writer, held);
    round(alloc, rt, &board, &mut writer, 7)?;
    step_reader_let_go(&board, &mut reader, false);
    let mail = peek(&board, &mut reader)?;
    let own = peek(&board, &mut writer)?;
    Ok(Met {
        grabbed: true,
        put: put?,
        found: mail_length(&mail),
        found_by_writer: mail_length(&own),
    })
}

/// The answers of: a round before a stop, the stop, a second one by another seat, and rounds of both after it.
pub fn stops<R: Wait>(alloc: Global, rt: &R) -> Result<[bool; 5], Memory> {
    let (board, mut first) = open(alloc, 0, 2)?;
    let mut one = step_split(&board, &mut first);
    let mut two = step_split(&board, &mut first);
    Ok([
        round(alloc, rt, &board, &mut one, 1)?,
        stop(rt, &board, &mut two),
        stop(rt, &board, &mut one),
        round(alloc, rt, &board, &mut one, 2)?,
        round(alloc, rt, &board, &mut two, 3)?,
    ])
}

/// Copies the book in a turn of its own. The seat has then seen what the copy has.
fn read<R: Wait>(
    alloc: Global,
    rt: &R,
    board: &Board<Book, Page>,
    seat: &mut BoardSeat,
) -> Result<Page, Memory>
    requires seat { board_of seat.old ≡ board.now.table.shared.table_id }
    requires idle { IsIdle (view_of seat.old) }
    requires few { (view_of seat.old).draws < 4294967296 }
    ensures seat { board_of seat.new ≡ board_of seat.old }
    ensures idle { IsIdle (view_of seat.new) }
    ensures seen { IfOk result (λ p. (view_of seat.new).seen ≡ codes coded_ℕ.code p.entries.items) }
    ensures rest { ((view_of seat.new).draws ≡ (view_of seat.old).draws + 1)
        × IsSameSeat (view_of seat.old) (view_of seat.new) }
{
    let held = begin(rt, board, seat);
    let page = Page::of(alloc, held.home.entries.as_slice());
    count(board, seat);
    end(board, seat, held);
    page
}

/// What two seats read of a book, each in its turn, and the book as the board was closed.
#[derive(Drop)]
pub struct Readings {
    pub book: Book,
    pub first: Page,
    pub second: Page,
}

/// Each of two seats adds a number, reads the book, and is joined to the first one, before the other begins.
pub fn two_readings<R: Wait>(alloc: Global, rt: &R, serial: u32) -> Result<Readings, Memory>
    ensures serial { IfOk result (λ r. r.book.serial ≡ serial) }
    ensures readings { IfOk result (λ r. StartsWith r.book.entries.items r.first.entries.items
        × StartsWith r.book.entries.items r.second.entries.items) }
{
    let (board, mut keeper) = open(alloc, serial, 2)?;
    let mut one = step_split(&board, &mut keeper);
    let mut two = step_split(&board, &mut keeper);
    round(alloc, rt, &board, &mut one, 1)?;
    let first = read(alloc, rt, &board, &mut one)?;
    step_join(&board, &mut keeper, one);
    round(alloc, rt, &board, &mut two, 2)?;
    let second = read(alloc, rt, &board, &mut two)?;
    step_join(&board, &mut keeper, two);
    let book = board.close(keeper);
    a_join_adds_its_note_behind_the_others();
    a_beginning_in_codes_is_one_in_entries::<u32>();
    Ok(Readings {
        book,
        first,
        second,
    })
}
