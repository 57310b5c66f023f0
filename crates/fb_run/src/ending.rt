//! How a run ends: what became of the database, the status and the line.
ghost use Rattle.std.specs.Prelude.{◌≡◌, ℕ, ◌≤◌, [], map, length, Some, None, slice_get, string_bytes, IfSome, IfOk, OnErr};
ghost use Rattle.std.specs.Option.{option_map};
ghost use Rattle.command_line.specs.Views.{names_in};
ghost use Rattle.board_rule.specs.Calls.{view_of};
ghost use Rattle.disk_log.specs.Logs.{disk_in, count_in};
ghost use Rattle.fb_conn.specs.declared.seats.Seat.{Seat};
ghost use Rattle.fb_conn.specs.Seats.{table_of, begun_of, IsAtRest};
ghost use Rattle.merge_worker.specs.declared.ends.WorkEnd.{WorkEnd};
ghost use Rattle.fb_view.specs.SnapshotModel.{Stands};
ghost use Rattle.fb_run.specs.StatusLines.{first_early, why_of};
ghost use Rattle.fb_run.specs.Database.{why_unready};
ghost use Rattle.fb_run.specs.Outside.{disks_of};
ghost use Rattle.fb_run.specs.Headline.{stop_of};
ghost use Rattle.fb_run.specs.Causes.{HasNoConsole, HasNoDisk, HasNoTarget, NoSession, IsOutOfMemory, SaysWhy};
ghost use Rattle.fb_run.specs.Merging.{TreesFit, CanWork, HaveMerged};
ghost use Rattle.fb_run.specs.Running.{Closes, HandsLogBack, EndsWith};

use crate::database::{Disks, Obstacle, Unready};
use crate::jobs::Ended;
use crate::lines::{
    cannot_open, line_of_end, line_of_fault, log_stopped, out_of_memory, segment_fault,
    status_of_end, status_of_fault,
};
use crate::merging::{Trees, Worker, settled};
use crate::opening::Unopened;
use crate::outcome::{Outcome, SessionOut};
use command_line::Run;
use disk_log::DiskLog;
use fb_conn::{Closed, Conn};
use fb_core::{CoreParts, Draft};
use fb_disk::Disk;
use fb_memory::Memory;
use fb_session::SessionEnd;
use merge_worker::WorkEnd;
use std::alloc::Global;
use std::thread::Threads;

/// Closes the database, merges what the worker left, and says how the run ended.
pub(crate) fn closed<R: Threads + Sync, I: Drop, O: Drop, D: Disk>(
    rt: &R,
    alloc: Global,
    command: &Run<'_>,
    conn: Conn<DiskLog<D>>,
    worker: Worker<D>,
    ended: Ended<I, O>,
    recovered: u32,
) -> Outcome<I, O, D>
    requires merge_at { 1 ≤ command.now.options.merge_at }
    requires seats { (k : ℕ) (seat : Seat) → slice_get ended.seats.items k ≡ Some seat
        → IsAtRest (table_of conn) seat × ((view_of seat.board).number ≡ k) }
    requires worker { ((view_of worker.seat.board).given ≡ length ended.seats.items)
        × ((view_of worker.seat.board).start ≡ recovered) }
    requires can_work { CanWork conn worker }
    requires fit { (worker.end ≡ WorkEnd.StoreFault → ⊥)
        → TreesFit (disks_of D.bytes D.faults D.images D.moment D.images_since) worker.trees }
    ensures sessions { result.sessions.items ≡ ended.sessions.items }
    ensures recovered { result.recovered ≡ recovered }
    ensures closes { Closes ended.seats.items recovered result }
    ensures stands { IfSome result.last Stands }
    ensures log { IfSome result.last (λ last. HandsLogBack
        (disks_of D.bytes D.faults D.images D.moment D.images_since)
        (count_in (begun_of conn)) (disk_in (begun_of conn)) last.entries result) }
    ensures ends { (begun : _) → begun.ahead ≡ None
        → HaveMerged (disks_of D.bytes D.faults D.images D.moment D.images_since) begun worker.trees
        worker.end
        → EndsWith (disks_of D.bytes D.faults D.images D.moment D.images_since)
        command.now.options.merge_at (names_in command.now.scripts.items) begun result }
    ensures covered { IfSome result.last (λ last. result.covered ≡ last.covered) }
    ensures no_console { HasNoConsole result }
    ensures no_target { HasNoTarget result }
    ensures no_loads { result.loads.items ≡ [] }
{
    let Ended { sessions, seats } = ended;
    let Worker {
        seat,
        mut trees,
        end,
    } = worker;
    // This call brings into the proof that the snapshot represents its history.
    let _basis = seat.last().basis();
    let Closed {
        mut core,
        log,
        stopped: _,
        torn,
    } = conn.close(seats, seat);
    let end = settled(
        rt,
        alloc,
        &mut core,
        &mut trees,
        end,
        command.options.merge_at,
    );
    let (status, line) = said(
        alloc,
        command.scripts.as_slice(),
        sessions.as_slice(),
        stop_in(&torn),
        end,
    );
    let CoreParts { snapshot, authors } = core.into_parts();
    Outcome {
        sessions,
        log: Some(log.into_disk()),
        segments: Some(trees.store.give_back()),
        authors: Some(authors),
        covered: snapshot.covered(),
        last: Some(snapshot),
        torn,
        recovered,
        ..without_session(alloc, status, Ok(line))
    }
}

/// The t that the log did not take.
fn stop_in(torn: &Option<Draft>) -> Option<u32>
    ensures { result ≡ stop_of torn.now }
{
    match torn {
        Some(draft) => Some(draft.after().basis()),
        None => None,
    }
}

/// The status and the line for how the sessions of the scripts, the log and the merges ended: the first session that ended early
/// decides. There are few.
fn said<I: Drop, O: Drop>(
    alloc: Global,
    scripts: &[&str],
    sessions: &[SessionOut<I, O>],
    stop: Option<u32>,
    end: WorkEnd,
) -> (u8, String)
    ensures { SaysWhy
        (why_of (first_early (names_in scripts.now) (map (λ s. s.end) sessions.now)) stop end)
        result.0 (string_bytes result.1) }
{
    let [script, scripts @ ..] = scripts else {
        return said_of_log(alloc, stop, end);
    };
    let [session, sessions @ ..] = sessions else {
        return said_of_log(alloc, stop, end);
    };
    if matches!(session.end, SessionEnd::Done) {
        return said(alloc, scripts, sessions, stop, end);
    }
    match line_of_end(alloc, *script, &session.end) {
        Ok(line) => (status_of_end(&session.end), line),
        Err(Memory) => (9, String::new(alloc)),
    }
}

/// The status and the line where each session answered all of its script: a log that stopped decides.
fn said_of_log(alloc: Global, stop: Option<u32>, end: WorkEnd) -> (u8, String)
    ensures { SaysWhy (why_of None stop end) result.0 (string_bytes result.1) }
{
    let Some(t) = stop else {
        return said_of_merges(alloc, end);
    };
    match log_stopped(alloc, t) {
        Ok(line) => (7, line),
        Err(Memory) => (9, String::new(alloc)),
    }
}

/// The status and the line where the log took every entry, too: they say how merging ended.
fn said_of_merges(alloc: Global, end: WorkEnd) -> (u8, String)
    ensures { SaysWhy (why_of None None end) result.0 (string_bytes result.1) }
{
    let (status, line) = match end {
        WorkEnd::Shut | WorkEnd::Spent => (0, Ok(String::new(alloc))),
        WorkEnd::StoreFault => (8, segment_fault(alloc)),
        WorkEnd::Memory => (9, out_of_memory(alloc)),
    };
    match line {
        Ok(line) => (status, line),
        Err(Memory) => (9, String::new(alloc)),
    }
}

/// The outcome of a command that can't begin.
pub(crate) fn not_begun<I: Drop, O: Drop, D: Drop>(
    alloc: Global,
    unready: Unready<'_, D>,
) -> Outcome<I, O, D>
    ensures none { NoSession result }
    ensures no_console { HasNoConsole result }
    ensures no_target { HasNoTarget result }
    ensures log { result.log ≡ option_map (λ disks. disks.log) unready.entry.disks }
    ensures segments { result.segments ≡ option_map (λ disks. disks.segments) unready.entry.disks }
    ensures said { SaysWhy (why_unready unready.entry.why) result.status (string_bytes result.line) }
{
    let Unready { why, disks } = unready;
    let (log, segments) = match disks {
        Some(Disks { log, segments }) => (Some(log), Some(segments)),
        None => (None, None),
    };
    Outcome {
        log,
        segments,
        ..obstructed(alloc, why)
    }
}

/// The outcome where this obstacle is all that there is to say.
fn obstructed<I: Drop, O: Drop, D: Drop>(alloc: Global, why: Obstacle<'_>) -> Outcome<I, O, D>
    ensures none { NoSession result }
    ensures no_console { HasNoConsole result }
    ensures no_target { HasNoTarget result }
    ensures said { SaysWhy (why_unready why.entry) result.status (string_bytes result.line) }
{
    match why {
        Obstacle::Unopened(Unopened::CannotOpen(name)) => {
            without_session(alloc, 2, cannot_open(alloc, name))
        }
        Obstacle::Unopened(Unopened::Memory) => { without_session(alloc, 9, out_of_memory(alloc)) }
        Obstacle::NotReopened(fault) => {
            without_session(alloc, status_of_fault(fault), line_of_fault(alloc, fault))
        }
    }
}

/// The outcome where memory ran out over a directory that was opened, and no session ran.
pub(crate) fn cut_short<I: Drop, O: Drop, D: Drop>(
    alloc: Global,
    disks: Disks<D>,
) -> Outcome<I, O, D>
    ensures none { NoSession result }
    ensures no_console { HasNoConsole result }
    ensures no_target { HasNoTarget result }
    ensures log { result.log ≡ Some disks.log }
    ensures segments { result.segments ≡ Some disks.segments }
    ensures said { IsOutOfMemory result }
{
    Outcome {
        log: Some(disks.log),
        segments: Some(disks.segments),
        ..without_session(alloc, 9, out_of_memory(alloc))
    }
}

/// The outcome where no session ran.
pub(crate) fn without_session<I: Drop, O: Drop, D: Drop>(
    alloc: Global,
    status: u8,
    line: Result<String, Memory>,
) -> Outcome<I, O, D>
    ensures none { NoSession result }
    ensures no_disk { HasNoDisk result }
    ensures no_console { HasNoConsole result }
    ensures no_target { HasNoTarget result }
    ensures said { IfOk line (λ line. (result.status ≡ status)
        × (string_bytes result.line ≡ string_bytes line)) }
    ensures unsaid { OnErr line ((result.status ≡ 9) × (string_bytes result.line ≡ [])) }
{
    let (status, line) = match line {
        Ok(line) => (status, line),
        Err(Memory) => (9, String::new(alloc)),
    };
    Outcome {
        status,
        line,
        sessions: Vec::new(alloc),
        console: None,
        loads: Vec::new(alloc),
        log: None,
        segments: None,
        target_log: None,
        target_segments: None,
        authors: None,
        last: None,
        torn: None,
        recovered: 0,
        covered: 0,
    }
}
