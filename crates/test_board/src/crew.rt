//! Many seats at work, each in a thread of its own.
ghost use Rattle.std.specs.Prelude.{◌≡◌, ◌+◌, ◌<◌, ◌≤◌, length, Some, IfOk};
ghost use Rattle.std.specs.List.{All};
ghost use Rattle.board_rule.specs.Views.{worker, IsIdle, IsLawful};
ghost use Rattle.board_rule.specs.Calls.{view_of, board_of};
ghost use Rattle.test_board.specs.Books.{IsSameSeat, IsHired, IsDone, IsSoundBook};

use crate::book::{Book, Page};
use crate::rounds::round;
use board_mail::{Mail, peek};
use board_rule::{Board, BoardSeat, BoardStop, Mails, Patience, step_join, step_split};
use fb_memory::Memory;
use std::alloc::Global;
use std::sync::Wait;
use std::thread;
use std::thread::Threads;

/// A seat with its task: to add `rounds` numbers, from `base` on.
#[derive(Drop)]
pub struct Worker {
    pub seat: BoardSeat,
    pub base: u32,
    pub rounds: u32,
    /// How many numbers it added.
    pub added: u32,
    /// The most numbers that it found in its mail, and whether the mail ever went back.
    pub longest: usize,
    pub fell: bool,
    ghost small: { (base + rounds < 1000000) × (added ≤ 1000000) },
}

/// Looks at the mail, and notes how long the book there is.
fn read_mail(board: &Board<Book, Page>, worker: &mut Worker) -> Result<(), Memory>
    requires seat { board_of worker.old.seat ≡ board.now.table.shared.table_id }
    requires session { (view_of worker.old.seat).number < board.now.table.shared.key.sessions }
    requires idle { IsIdle (view_of worker.old.seat) }
    ensures seat { board_of worker.new.seat ≡ board_of worker.old.seat }
    ensures idle { IsIdle (view_of worker.new.seat) }
    ensures rest { ((view_of worker.new.seat).draws ≡ (view_of worker.old.seat).draws)
        × IsSameSeat (view_of worker.old.seat) (view_of worker.new.seat)
        × (worker.new.base ≡ worker.old.base)
        × (worker.new.rounds ≡ worker.old.rounds) }
{
    if let Mail::Fresh(page) = peek(board, &mut worker.seat)? {
        let length = page.entries.len();
        if length < worker.longest {
            worker.fell = true;
        }
        worker.longest = length;
    }
    Ok(())
}

/// One number, and a look at the mail.
fn work_once<R: Wait>(
    alloc: Global,
    rt: &R,
    board: &Board<Book, Page>,
    worker: &mut Worker,
    value: u32,
) -> Result<(), Memory>
    requires seat { board_of worker.old.seat ≡ board.now.table.shared.table_id }
    requires session { (view_of worker.old.seat).number < board.now.table.shared.key.sessions }
    requires idle { IsIdle (view_of worker.old.seat) }
    requires few { (view_of worker.old.seat).draws < 4294967296 }
    requires value { value < 1000000 }
    ensures seat { board_of worker.new.seat ≡ board_of worker.old.seat }
    ensures idle { IsIdle (view_of worker.new.seat) }
    ensures rest { ((view_of worker.new.seat).draws ≡ (view_of worker.old.seat).draws + 1)
        × IsSameSeat (view_of worker.old.seat) (view_of worker.new.seat)
        × (worker.new.base ≡ worker.old.base)
        × (worker.new.rounds ≡ worker.old.rounds) }
{
    let outcome = round(alloc, rt, board, &mut worker.seat, value);
    if let Ok(true) = outcome
        && worker.added < 1000000
    {
        worker.added += 1;
    }
    read_mail(board, worker)
}

fn work<R: Wait>(alloc: Global, rt: &R, board: &Board<Book, Page>, worker: &mut Worker)
    requires seat { board_of worker.old.seat ≡ board.now.table.shared.table_id }
    requires session { (view_of worker.old.seat).number < board.now.table.shared.key.sessions }
    requires idle { IsIdle (view_of worker.old.seat) }
    requires few { (view_of worker.old.seat).draws ≡ 0 }
    ensures seat { board_of worker.new.seat ≡ board_of worker.old.seat }
    ensures idle { IsIdle (view_of worker.new.seat) }
    ensures same { IsSameSeat (view_of worker.old.seat) (view_of worker.new.seat) }
{
    let (base, rounds) = (worker.base, worker.rounds);
    for k in 0..rounds {
        let _ = work_once(alloc, rt, board, worker, base + k);
    }
}

/// Takes on that many workers, each with numbers of its own.
fn hire(
    alloc: Global,
    board: &Board<Book, Page>,
    first: &mut BoardSeat,
    count: u32,
    rounds: u32,
) -> Result<Vec<Worker>, Memory>
    requires seat { board_of first.old ≡ board.now.table.shared.table_id }
    requires first { ((view_of first.old).number ≡ worker) × ((view_of first.old).given ≡ 0) }
    requires few { (count ≤ 64) × (rounds ≤ 10000) }
    ensures seat { board_of first.new ≡ board_of first.old }
    ensures given { IfOk result
        (λ ws. view_of first.new ≡ record (view_of first.old) { given = count }) }
    ensures workers { IfOk result (λ ws. (length ws.items ≡ count)
        × All
        (λ w. (board_of w.seat ≡ board.now.table.shared.table_id) × IsHired count (view_of w.seat))
        ws.items) }
{
    let mut workers = Vec::new(alloc);
    for i in 0..count {
        workers.push(Worker {
            seat: step_split(board, first),
            base: i * rounds,
            rounds,
            added: 0,
            longest: 0,
            fell: false,
        })?;
    }
    Ok(workers)
}

/// What the work came to.
#[derive(Drop)]
pub struct Report {
    pub book: Book,
    /// How many numbers the workers added, by their own count.
    pub added: u64,
    /// A worker's mail went back once.
    pub fell: bool,
}

fn work_all<R: Threads + Wait + Sync>(
    alloc: Global,
    rt: &R,
    board: &Board<Book, Page>,
    workers: &mut [Worker],
    threads: usize,
)
    requires threads { 0 < threads }
    requires workers { All
        (λ w. (board_of w.seat ≡ board.now.table.shared.table_id)
        × IsHired board.now.table.shared.key.sessions (view_of w.seat))
        workers.old }
    ensures { All
        (λ w. (board_of w.seat ≡ board.now.table.shared.table_id) × IsDone (view_of w.seat))
        workers.new }
{
    thread::for_each_mut(
        rt,
        workers,
        threads,
        &|_, worker: &mut Worker|
            requires { (board_of worker.old.seat ≡ board.now.table.shared.table_id)
                × IsHired board.now.table.shared.key.sessions (view_of worker.old.seat) }
            ensures { (board_of worker.new.seat ≡ board.entry.now.table.shared.table_id)
                × IsDone (view_of worker.new.seat) }
        { work(alloc, rt, board, worker) },
    );
}

/// Joins the workers' seats to the first one, and adds up what they did.
fn gather(board: &Board<Book, Page>, first: &mut BoardSeat, mut workers: Vec<Worker>) -> (u64, bool)
    requires seat { board_of first.old ≡ board.now.table.shared.table_id }
    requires idle { IsIdle (view_of first.old) }
    requires workers { All
        (λ w. (board_of w.seat ≡ board.now.table.shared.table_id) × IsDone (view_of w.seat))
        workers.items }
    ensures seat { board_of first.new ≡ board_of first.old }
    ensures idle { IsIdle (view_of first.new) }
    ensures rest { ((view_of first.new).number ≡ (view_of first.old).number)
        × ((view_of first.new).given ≡ (view_of first.old).given)
        × ((view_of first.new).seats ≡ (view_of first.old).seats + length workers.items) }
{
    let (mut added, mut fell) = (0u64, false);
    while let Some(worker) = workers.pop() {
        let Worker {
            seat,
            base: _,
            rounds: _,
            added: by_this,
            longest: _,
            fell: back,
        } = worker;
        step_join(board, first, seat);
        added = added.saturating_add(by_this as u64);
        fell = fell || back;
    }
    (added, fell)
}

/// Little, so that seats sleep often. In every other book two are awake.
fn patience_of(serial: u32) -> Patience {
    let one = Patience::on(1);
    if serial % 2 == 0 { one } else { one.of_both() }
}

/// A board over a book of this serial number, which has the number 0 alone, with that many sessions, and its first seat.
pub fn open(
    alloc: Global,
    serial: u32,
    sessions: u32,
) -> Result<(Board<Book, Page>, BoardSeat), Memory>
    requires { sessions ≤ 64 }
    ensures board { IfOk result (λ r. (board_of r.1 ≡ r.0.table.shared.table_id)
        × (r.0.table.shared.key.sessions ≡ sessions)) }
    ensures serial { IfOk result (λ r. r.0.table.shared.key.home.value.serial ≡ serial) }
    ensures seat { IfOk result (λ r. IsIdle (view_of r.1)
        × ((view_of r.1).number ≡ worker)
        × ((view_of r.1).given ≡ 0)
        × ((view_of r.1).seats ≡ 1)) }
{
    let pages = Mails::of(Page::copies(alloc, sessions as usize, &[0])?);
    let book = Book::new(alloc, serial, 0)?;
    match Board::new(alloc, book, 0, pages, patience_of(serial)) {
        Ok(made) => Ok(made),
        Err(BoardStop { home: _ }) => Err(Memory),
    }
}

/// Adds `count` times `rounds` numbers to a book of this serial number, each worker in a thread of its own, and closes the board.
pub fn run<R: Threads + Wait + Sync>(
    alloc: Global,
    rt: &R,
    serial: u32,
    count: u32,
    rounds: u32,
) -> Result<Report, Memory>
    requires { (0 < count) × (count ≤ 64) × (rounds ≤ 10000) }
    ensures { IfOk result (λ r. IsLawful (λ l e. e < 1000000) r.book.entries.items
        × IsSoundBook r.book.entries.items r.book.halt
        × (r.book.serial ≡ serial)) }
{
    let (board, mut first) = open(alloc, serial, count)?;
    let mut workers = hire(alloc, &board, &mut first, count, rounds)?;
    work_all(alloc, rt, &board, workers.as_mut_slice(), count as usize);
    let (added, fell) = gather(&board, &mut first, workers);
    let book = board.close(first);
    Ok(Report { book, added, fell })
}
