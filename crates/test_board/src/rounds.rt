//! One turn of one seat.
ghost use Rattle.std.specs.Prelude.{◌≡◌, ℕ, ◌+◌, ◌<◌, ◌⊎◌, length, Some, None};
ghost use Rattle.board_rule.specs.Views.{IsIdle, IsTried};
ghost use Rattle.board_rule.specs.Calls.{view_of, board_of};
ghost use Rattle.test_board.specs.Books.{HasBook, IsSoundBook, IsSameSeat, stop_of};

use crate::book::{Book, Halt, Page};
use board_mail::{put, put_each};
use board_rule::{Board, BoardSeat, Held};
use board_turn::{commit, draw, leave, turn};
use fb_memory::Memory;
use std::alloc::Global;
use std::sync::Wait;

pub fn begin<R: Wait>(rt: &R, board: &Board<Book, Page>, seat: &mut BoardSeat) -> Held<Book>
    requires seat { board_of seat.old ≡ board.now.table.shared.table_id }
    requires idle { IsIdle (view_of seat.old) }
    requires few { (view_of seat.old).draws < 4294967296 }
    ensures seat { board_of seat.new ≡ board_of seat.old }
    ensures book { HasBook (view_of seat.new) result.home.entries.items result.home.authors.items
        result.home.halt }
    ensures sound { IsSoundBook result.home.entries.items result.home.halt }
    ensures serial { result.home.serial ≡ board.now.table.shared.key.home.value.serial }
    ensures rest { ((view_of seat.new).draws ≡ (view_of seat.old).draws + 1)
        × IsSameSeat (view_of seat.old) (view_of seat.new)
        × ((view_of seat.new).tried ≡ None) }
{
    draw(board, seat);
    turn(board, rt, seat)
}

/// Adds a number and mails the book to each session. Where memory is short nothing is added.
fn add(
    alloc: Global,
    board: &Board<Book, Page>,
    seat: &mut BoardSeat,
    held: &mut Held<Book>,
    value: u32,
) -> Result<(), Memory>
    requires seat { board_of seat.old ≡ board.now.table.shared.table_id }
    requires book { HasBook (view_of seat.old) held.old.home.entries.items
        held.old.home.authors.items held.old.home.halt }
    requires open { held.old.home.halt ≡ None }
    requires room { length held.old.home.entries.items < 4294967296 }
    requires value { value < 1000000 }
    requires fresh { (view_of seat.old).tried ≡ None }
    ensures seat { board_of seat.new ≡ board_of seat.old }
    ensures book { HasBook (view_of seat.new) held.new.home.entries.items
        held.new.home.authors.items held.new.home.halt }
    ensures open { (held.new.home.halt ≡ None) × (held.new.home.serial ≡ held.old.home.serial) }
    ensures tried { IsTried board.now.table.shared.key.sessions (view_of seat.new).tried }
    ensures rest { ((view_of seat.new).draws ≡ (view_of seat.old).draws)
        × IsSameSeat (view_of seat.old) (view_of seat.new) }
{
    let pages = Page::copies_with(
        alloc,
        board.sessions() as usize,
        held.home.entries.as_slice(),
        value,
    )?;
    held.home.add(value, seat.number())?;
    commit(board, seat, held);
    put_each(board, seat, held, pages);
    Ok(())
}

/// Adds a number where that is not stopped.
fn offer(
    alloc: Global,
    board: &Board<Book, Page>,
    seat: &mut BoardSeat,
    held: &mut Held<Book>,
    value: u32,
) -> Result<bool, Memory>
    requires seat { board_of seat.old ≡ board.now.table.shared.table_id }
    requires book { HasBook (view_of seat.old) held.old.home.entries.items
        held.old.home.authors.items held.old.home.halt }
    requires sound { IsSoundBook held.old.home.entries.items held.old.home.halt }
    requires value { value < 1000000 }
    requires fresh { (view_of seat.old).tried ≡ None }
    ensures seat { board_of seat.new ≡ board_of seat.old }
    ensures book { HasBook (view_of seat.new) held.new.home.entries.items
        held.new.home.authors.items held.new.home.halt }
    ensures sound { IsSoundBook held.new.home.entries.items held.new.home.halt
        × (held.new.home.serial ≡ held.old.home.serial) }
    ensures tried { IsTried board.now.table.shared.key.sessions (view_of seat.new).tried }
    ensures rest { ((view_of seat.new).draws ≡ (view_of seat.old).draws)
        × IsSameSeat (view_of seat.old) (view_of seat.new) }
{
    if held.home.halt.is_some() || held.home.entries.len() >= 1 << 32 {
        return Ok(false);
    }
    add(alloc, board, seat, held, value)?;
    Ok(true)
}

pub fn end(board: &Board<Book, Page>, seat: &mut BoardSeat, held: Held<Book>)
    requires seat { board_of seat.old ≡ board.now.table.shared.table_id }
    requires book { HasBook (view_of seat.old) held.home.entries.items held.home.authors.items
        held.home.halt }
    requires sound { IsSoundBook held.home.entries.items held.home.halt }
    requires serial { held.home.serial ≡ board.now.table.shared.key.home.value.serial }
    requires tried { IsTried board.now.table.shared.key.sessions (view_of seat.old).tried }
    ensures seat { board_of seat.new ≡ board_of seat.old }
    ensures idle { IsIdle (view_of seat.new) }
    ensures told { (view_of seat.new).stop ≡ stop_of held.home.halt }
    ensures seen { (view_of seat.new).seen ≡ (view_of seat.old).seen }
    ensures rest { ((view_of seat.new).draws ≡ (view_of seat.old).draws)
        × IsSameSeat (view_of seat.old) (view_of seat.new) }
{
    leave(board, seat, held);
}

/// Mails the book to one session. It says whether its word was free.
pub fn put_one(
    alloc: Global,
    board: &Board<Book, Page>,
    seat: &mut BoardSeat,
    held: &mut Held<Book>,
    session: u32,
) -> Result<bool, Memory>
    requires seat { board_of seat.old ≡ board.now.table.shared.table_id }
    requires book { HasBook (view_of seat.old) held.old.home.entries.items
        held.old.home.authors.items held.old.home.halt }
    requires session { session < board.now.table.shared.key.sessions }
    requires fresh { (view_of seat.old).tried ≡ None }
    ensures seat { board_of seat.new ≡ board_of seat.old }
    ensures held { held.new ≡ held.old }
    ensures book { HasBook (view_of seat.new) held.old.home.entries.items
        held.old.home.authors.items held.old.home.halt }
    ensures fresh { (view_of seat.new).tried ≡ None }
    ensures rest { ((view_of seat.new).draws ≡ (view_of seat.old).draws)
        × IsSameSeat (view_of seat.old) (view_of seat.new) }
{
    let page = Page::of(alloc, held.home.entries.as_slice())?;
    match put(board, seat, held, session, page) {
        Ok(_) => Ok(true),
        Err(_) => Ok(false),
    }
}

/// Adds a number to the book in a turn of its own. `Ok(false)` where adding was stopped.
pub fn round<R: Wait>(
    alloc: Global,
    rt: &R,
    board: &Board<Book, Page>,
    seat: &mut BoardSeat,
    value: u32,
) -> Result<bool, Memory>
    requires seat { board_of seat.old ≡ board.now.table.shared.table_id }
    requires idle { IsIdle (view_of seat.old) }
    requires few { (view_of seat.old).draws < 4294967296 }
    requires value { value < 1000000 }
    ensures seat { board_of seat.new ≡ board_of seat.old }
    ensures idle { IsIdle (view_of seat.new) }
    ensures rest { ((view_of seat.new).draws ≡ (view_of seat.old).draws + 1)
        × IsSameSeat (view_of seat.old) (view_of seat.new) }
{
    let mut held = begin(rt, board, seat);
    let outcome = offer(alloc, board, seat, &mut held, value);
    end(board, seat, held);
    outcome
}

/// Sets the halt, where none is set. It says whether it did.
fn set_halt(book: &mut Book, author: u32) -> bool
    requires { IsSoundBook book.old.entries.items book.old.halt }
    ensures sound { IsSoundBook book.new.entries.items book.new.halt }
    ensures same { (book.new.entries.items ≡ book.old.entries.items)
        × (book.new.authors.items ≡ book.old.authors.items)
        × (book.new.serial ≡ book.old.serial) }
    ensures halt { (book.new.halt ≡ book.old.halt)
        ⊎ ((book.old.halt ≡ None)
        × ((at : ℕ) × (book.new.halt ≡ Some record { at = at; author = author }))) }
{
    if book.halt.is_some() || book.entries.len() >= 1 << 32 {
        return false;
    }
    book.halt = Some(Halt {
        at: book.entries.len() as u32,
        author,
    });
    true
}

/// Stops all adding, in a turn of its own. It says whether it was the first to do so.
pub fn stop<R: Wait>(rt: &R, board: &Board<Book, Page>, seat: &mut BoardSeat) -> bool
    requires seat { board_of seat.old ≡ board.now.table.shared.table_id }
    requires idle { IsIdle (view_of seat.old) }
    requires few { (view_of seat.old).draws < 4294967296 }
    ensures seat { board_of seat.new ≡ board_of seat.old }
    ensures idle { IsIdle (view_of seat.new) }
    ensures rest { ((view_of seat.new).draws ≡ (view_of seat.old).draws + 1)
        × IsSameSeat (view_of seat.old) (view_of seat.new) }
{
    let mut held = begin(rt, board, seat);
    let outcome = set_halt(&mut held.home, seat.number());
    leave(board, seat, held);
    outcome
}
