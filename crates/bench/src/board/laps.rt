//! Turns and looks, many in a row.
ghost use Rattle.std.specs.Prelude.{◌≡◌, ◌+◌, ◌<◌, ◌≤◌, IfOk};
ghost use Rattle.std.specs.List.{All};
ghost use Rattle.board_rule.specs.Views.{worker, IsIdle};
ghost use Rattle.board_rule.specs.Calls.{view_of, board_of};
ghost use Rattle.bench.specs.Seats.{IsFresh};

use super::fixed::{Fixed, Sheet, sheets};
use board_mail::{Mail, peek};
use board_rule::{Board, BoardSeat, BoardStop, Mails, Patience, step_split};
use board_turn::{draw, leave, turn};
use fb_memory::Memory;
use std::alloc::Global;
use std::sync::Wait;
use std::thread;
use std::thread::Threads;

/// The turns are read as on a machine of four processors.
const PROCESSORS: usize = 4;

fn open(alloc: Global, sessions: u32) -> Result<(Board<Fixed, Sheet>, BoardSeat), Memory>
    requires { sessions ≤ 64 }
    ensures board { IfOk result (λ r. (board_of r.1 ≡ r.0.table.shared.table_id)
        × (r.0.table.shared.key.sessions ≡ sessions)) }
    ensures seat { IfOk result (λ r. ((view_of r.1).number ≡ worker) × ((view_of r.1).given ≡ 0)) }
{
    let home = Fixed { counter: 0 };
    let mails = Mails::of(sheets(alloc, sessions)?);
    match Board::new(alloc, home, 0, mails, Patience::on(PROCESSORS)) {
        Ok(made) => Ok(made),
        Err(BoardStop { home: _ }) => Err(Memory),
    }
}

/// A seat for each session.
fn seats(
    alloc: Global,
    board: &Board<Fixed, Sheet>,
    first: &mut BoardSeat,
    count: u32,
) -> Result<Vec<BoardSeat>, Memory>
    requires seat { board_of first.old ≡ board.now.table.shared.table_id }
    requires first { ((view_of first.old).number ≡ worker) × ((view_of first.old).given ≡ 0) }
    requires few { count ≤ 64 }
    ensures { IfOk result (λ v. All
        (λ s. (board_of s ≡ board.now.table.shared.table_id) × IsFresh (view_of s)) v.items) }
{
    let mut seats = Vec::new(alloc);
    for _ in 0..count {
        seats.push(step_split(board, first))?;
    }
    Ok(seats)
}

fn lap<R: Wait>(rt: &R, board: &Board<Fixed, Sheet>, seat: &mut BoardSeat)
    requires seat { board_of seat.old ≡ board.now.table.shared.table_id }
    requires idle { IsIdle (view_of seat.old) }
    requires few { (view_of seat.old).draws < 4294967296 }
    ensures seat { board_of seat.new ≡ board_of seat.old }
    ensures idle { IsIdle (view_of seat.new) }
    ensures drew { (view_of seat.new).draws ≡ (view_of seat.old).draws + 1 }
{
    draw(board, seat);
    let held = turn(board, rt, seat);
    leave(board, seat, held);
}

fn run<R: Wait>(rt: &R, board: &Board<Fixed, Sheet>, seat: &mut BoardSeat, count: u32)
    requires seat { board_of seat.old ≡ board.now.table.shared.table_id }
    requires idle { IsIdle (view_of seat.old) }
    requires few { (view_of seat.old).draws ≡ 0 }
{
    for _ in 0..count {
        lap(rt, board, seat);
    }
}

fn run_each<R: Threads + Wait + Sync>(
    rt: &R,
    board: &Board<Fixed, Sheet>,
    seats: &mut [BoardSeat],
    threads: u32,
    count: u32,
)
    requires threads { 0 < threads }
    requires seats { All (λ s. (board_of s ≡ board.now.table.shared.table_id) × IsFresh (view_of s))
        seats.old }
{
    thread::for_each_mut(
        rt,
        seats,
        threads as usize,
        &|_, seat: &mut BoardSeat|
            requires { (board_of seat.old ≡ board.now.table.shared.table_id)
                × IsFresh (view_of seat.old) }
        { run(rt, board, seat, count) },
    );
}

/// That many turns with an empty body on each of so many threads.
pub fn turns<R: Threads + Wait + Sync>(
    alloc: Global,
    rt: &R,
    threads: u32,
    count: u32,
) -> Result<(), Memory>
    requires { (0 < threads) × (threads ≤ 64) }
{
    let (board, mut first) = open(alloc, threads)?;
    let mut all = seats(alloc, &board, &mut first, threads)?;
    run_each(rt, &board, all.as_mut_slice(), threads, count);
    Ok(())
}

/// Whether the mail had a snapshot.
fn look(board: &Board<Fixed, Sheet>, seat: &mut BoardSeat) -> bool
    requires seat { board_of seat.old ≡ board.now.table.shared.table_id }
    requires idle { IsIdle (view_of seat.old) }
    requires session { (view_of seat.old).number < board.now.table.shared.key.sessions }
    ensures seat { board_of seat.new ≡ board_of seat.old }
    ensures idle { IsIdle (view_of seat.new) }
    ensures session { (view_of seat.new).number ≡ (view_of seat.old).number }
{
    matches!(peek(board, seat), Ok(Mail::Fresh(_)))
}

/// That many looks at the mail. It answers how many found a snapshot.
pub fn looks(alloc: Global, count: u32) -> Result<u32, Memory> {
    let (board, mut first) = open(alloc, 1)?;
    let mut seat = step_split(&board, &mut first);
    let mut fresh = 0u32;
    for _ in 0..count {
        if look(&board, &mut seat) {
            fresh = fresh.saturating_add(1);
        }
    }
    Ok(fresh)
}
