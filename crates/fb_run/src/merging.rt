//! The worker of a run: it merges beside the sessions, and what it leaves is merged when they have ended.
ghost use Rattle.std.specs.Prelude.{◌≡◌, ◌≤◌, None};
ghost use Rattle.std.specs.Fork.{AcceptsEach, ChangesEach};
ghost use Rattle.std.specs.Thread.{IsSend, IsSync};
ghost use Rattle.merge_worker.specs.declared.ends.WorkEnd.{WorkEnd};
ghost use Rattle.fb_run.specs.Outside.{disks_of};
ghost use Rattle.fb_run.specs.Merging.{TreesStand, TreesFit, CanWork, HaveMerged, HasWorked, HaveSettled};

use fb_conn::{Conn, Seat};
use fb_core::Core;
use fb_disk::Disk;
use fb_log::Log;
use fb_roots::Base;
use merge_worker::{Gate, WorkEnd, settle, work};
use seg_store::SegStore;
use std::alloc::Global;
use std::sync::Wait;
use std::thread;
use std::thread::{Threads, join_mut};

/// What the worker has: its seat, its trees, and how it ended.
#[derive(Drop)]
pub(crate) struct Worker<D: Disk> {
    pub(crate) seat: Seat,
    pub(crate) trees: Trees<D>,
    pub(crate) end: WorkEnd,
}

/// The trees that were adopted last, those that are kept and were not adopted yet, and the store that keeps them.
#[derive(Drop)]
pub(crate) struct Trees<D: Disk> {
    pub(crate) base: Base,
    pub(crate) ahead: Option<Base>,
    pub(crate) store: SegStore<D>,
}

/// Does each of the jobs, in a thread of its own where one can be made, and merges beside them until the last is done. Where the
/// worker has no thread, it comes after them.
pub(crate) fn beside<
    R: Threads + Wait + Sync,
    L: Log,
    M: FnMut() + Send,
    J: Send,
    F: Fn(usize, &mut J) + Sync,
>(rt: &R, conn: &Conn<L>, merges: &mut M, job: &F, jobs: &mut [J])
    requires merges { M.pre merges.old }
    requires accepts { AcceptsEach F.Fn job.now jobs.old }
    ensures merges { M.step merges.old tt merges.new }
    ensures jobs { ChangesEach F.Fn job.now jobs.old jobs.new }
{
    let mut sessions = ||
        requires { IsSync R.row × IsSync F.row × IsSend J.row × AcceptsEach F.Fn job.now jobs.now }
        ensures { ChangesEach F.Fn job.entry.now jobs.entry.now jobs.exit.now }
    { do_each(rt, conn, job, jobs) };
    join_mut(rt, merges, &mut sessions);
}

/// Does each of the jobs, and then lets the worker know that none is left.
fn do_each<R: Threads + Wait + Sync, L: Log, J: Send, F: Fn(usize, &mut J) + Sync>(
    rt: &R,
    conn: &Conn<L>,
    job: &F,
    jobs: &mut [J],
)
    requires { AcceptsEach F.Fn job.now jobs.old }
    ensures { ChangesEach F.Fn job.now jobs.old jobs.new }
{
    let threads = jobs.len().max(1);
    thread::for_each_mut(rt, jobs, threads, job);
    conn.shut(rt);
}

/// Merges beside the sessions, until the last of them has ended.
pub(crate) fn merge<R: Threads + Wait + Sync, L: Log, W: Gate, D: Disk>(
    rt: &R,
    alloc: Global,
    conn: &Conn<L>,
    gate: &W,
    worker: &mut Worker<D>,
)
    requires can_work { CanWork conn.now worker.old }
    requires fit { TreesFit (disks_of D.bytes D.faults D.images D.moment D.images_since)
        worker.old.trees }
    ensures { HasWorked (disks_of D.bytes D.faults D.images D.moment D.images_since) conn.now
        worker.old worker.new }
{
    worker.end = work(
        rt,
        alloc,
        conn,
        &mut worker.seat,
        &mut worker.trees.store,
        &mut worker.trees.base,
        &mut worker.trees.ahead,
        gate,
    );
}

/// Merges what a worker that ended so has left, where that is due, and says how merging ended.
pub(crate) fn settled<R: Threads + Sync, D: Disk>(
    rt: &R,
    alloc: Global,
    core: &mut Core,
    trees: &mut Trees<D>,
    end: WorkEnd,
    merge_at: u64,
) -> WorkEnd
    requires merge_at { 1 ≤ merge_at }
    requires stand { TreesStand trees.old core.old.snapshot.entries core.old.snapshot.covered }
    requires fit { (end ≡ WorkEnd.StoreFault → ⊥)
        → TreesFit (disks_of D.bytes D.faults D.images D.moment D.images_since) trees.old }
    ensures authors { core.new.authors ≡ core.old.authors }
    ensures entries { core.new.snapshot.entries ≡ core.old.snapshot.entries }
    ensures stand { TreesStand trees.new core.new.snapshot.entries core.new.snapshot.covered }
    ensures settled { (begun : _) → begun.ahead ≡ None
        → HaveMerged (disks_of D.bytes D.faults D.images D.moment D.images_since) begun trees.old end
        → HaveSettled (disks_of D.bytes D.faults D.images D.moment D.images_since) merge_at begun
        trees.new result core.new.snapshot }
{
    match end {
        WorkEnd::StoreFault | WorkEnd::Memory => end,
        WorkEnd::Shut | WorkEnd::Spent => settle(
            rt,
            alloc,
            core,
            &mut trees.store,
            &mut trees.base,
            &mut trees.ahead,
            merge_at,
        ),
    }
}
