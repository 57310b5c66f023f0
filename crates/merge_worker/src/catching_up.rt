//! Catching up with what the sessions have added, outside of any turn, before trees are adopted in one.
ghost use Rattle.std.specs.Prelude.{◌≡◌, ◌+◌, ◌<◌, IfOk, OnOk};
ghost use Rattle.board_rule.specs.Views.{StartsWith};
ghost use Rattle.board_rule.specs.Calls.{view_of};
ghost use Rattle.fb_conn.specs.Seats.{IsWorkerOf};
ghost use Rattle.merge_worker.specs.Work.{IsSameWorker, AreStill};

use crate::working::is_out_of_turns;
use fb_conn::{Conn, Seat};
use fb_log::Log;
use fb_memory::Memory;
use fb_view::Snapshot;
use std::sync::Wait;

/// So few datoms may be left for the turn in which trees are adopted. Each takes some microseconds.
const FEW: usize = 192;

/// How often the worker catches up before that turn at most. Each time has less to add than the one before, since sessions add entries
/// more slowly than it does.
const PASSES: u32 = 16;

/// Takes a turn for the latest value, which the seat has from then on.
pub(crate) fn take_latest<L: Log, R: Wait>(
    rt: &R,
    conn: &Conn<L>,
    seat: &mut Seat,
) -> Result<Snapshot, Memory>
    requires seat { IsWorkerOf conn.now seat.old }
    requires turn { (view_of seat.old.board).draws < 4294967296 }
    ensures seat { IsWorkerOf conn.now seat.new }
    ensures same { IsSameWorker (view_of seat.old.board) (view_of seat.new.board) }
    ensures covered { (view_of seat.new.board).covered ≡ (view_of seat.old.board).covered }
    ensures trees { AreStill seat.old.last.entries seat.new.last.entries }
    ensures turn { (view_of seat.new.board).draws ≡ (view_of seat.old.board).draws + 1 }
    ensures latest { IfOk result (λ latest. (latest ≡ seat.new.last)
        × StartsWith latest.entries seat.old.last.entries) }
{
    // This call brings into the proof that the snapshot represents its history.
    let last = seat.last();
    let _basis = last.basis();
    let latest = conn.begin(rt, seat)?;
    let _latest = latest.basis();
    Ok(latest)
}

/// Adds to a value over newer trees what came since, until only a few datoms are missing.
pub(crate) fn catch_up<L: Log, R: Wait>(
    rt: &R,
    conn: &Conn<L>,
    seat: &mut Seat,
    mut ahead: Snapshot,
) -> Result<Snapshot, Memory>
    requires seat { IsWorkerOf conn.now seat.old }
    requires turn { (view_of seat.old.board).draws < 4294967296 }
    requires ahead { StartsWith seat.old.last.entries ahead.entries }
    ensures seat { IsWorkerOf conn.now seat.new }
    ensures same { IsSameWorker (view_of seat.old.board) (view_of seat.new.board) }
    ensures covered { (view_of seat.new.board).covered ≡ (view_of seat.old.board).covered }
    ensures trees { AreStill seat.old.last.entries seat.new.last.entries }
    ensures turn { OnOk result ((view_of seat.new.board).draws < 4294967296) }
    ensures ahead { IfOk result (λ value. StartsWith seat.new.last.entries value.entries
        × (value.covered ≡ ahead.covered)) }
{
    for _ in 0..PASSES {
        if !catches_up(rt, conn, seat, &mut ahead)? {
            return Ok(ahead);
        }
    }
    Ok(ahead)
}

/// Adds what came since to a value over newer trees, where that is more than a few datoms, and the seat has turns left. It says
/// whether it did.
fn catches_up<L: Log, R: Wait>(
    rt: &R,
    conn: &Conn<L>,
    seat: &mut Seat,
    ahead: &mut Snapshot,
) -> Result<bool, Memory>
    requires seat { IsWorkerOf conn.now seat.old }
    requires turn { (view_of seat.old.board).draws < 4294967296 }
    requires ahead { StartsWith seat.old.last.entries ahead.old.entries }
    ensures seat { IsWorkerOf conn.now seat.new }
    ensures same { IsSameWorker (view_of seat.old.board) (view_of seat.new.board) }
    ensures covered { (view_of seat.new.board).covered ≡ (view_of seat.old.board).covered }
    ensures trees { AreStill seat.old.last.entries seat.new.last.entries }
    ensures turn { (view_of seat.new.board).draws < 4294967296 }
    ensures ahead { OnOk result (StartsWith seat.new.last.entries ahead.new.entries
        × (ahead.new.covered ≡ ahead.old.covered)) }
{
    if is_out_of_turns(seat) {
        return Ok(false);
    }
    let latest = take_latest(rt, conn, seat)?;
    // This call brings into the proof that the snapshot represents its history.
    let _basis = ahead.basis();
    if is_near(ahead, &latest) {
        return Ok(false);
    }
    *ahead = ahead.caught_up(&latest)?;
    Ok(true)
}

/// Whether only a few datoms came since. Entries are of very different lengths, so the number of datoms says how long it takes to add them.
fn is_near(ahead: &Snapshot, latest: &Snapshot) -> bool {
    let entries = latest.entries();
    let mut missing: usize = 0;
    for t in ahead.basis().saturating_add(1)..entries.len() {
        missing = missing.saturating_add(entries.at(t).datoms.len());
        if missing > FEW {
            return false;
        }
    }
    true
}
