//! The sessions of a run: each has a desk of its own, and a thread where one can be made. The worker runs beside them.
ghost use denote.Param.Send.{IsSync};
ghost use Rattle.std.specs.Prelude.{◌≡◌, ℕ, ◌+◌, ◌≤◌, ◌<◌, [], ◌∷◌, map, length, Some, IfOk, slice_get, slice_index_or, vec_len, vec_capacity};
ghost use Rattle.std.specs.List.{All};
ghost use Rattle.std.specs.Vec.Iter.{into_iter_items, into_iter_len};
ghost use Rattle.talk_model.specs.Script.{most_commands};
ghost use Rattle.fb_conn.specs.declared.seats.Seat.{Seat};
ghost use Rattle.fb_conn.specs.Seats.{IsSeatOf, state_of};
ghost use Rattle.fb_session.specs.Terms.{terms_at};
ghost use Rattle.fb_run.specs.Outside.{streams_of, disks_of};
ghost use Rattle.fb_run.specs.Jobs.{HasTalked, HaveTalked};
ghost use Rattle.fb_run.specs.Merging.{TreesFit, CanWork, HasWorked};

use crate::merging::{Worker, beside, merge};
use crate::opening::Start;
use crate::outcome::SessionOut;
use conn_desk::ConnDesk;
use fb_conn::{Conn, Seat};
use fb_core::Guard;
use fb_disk::Disk;
use fb_log::Log;
use fb_memory::Memory;
use fb_ports::{Clock, Sink, Source};
use fb_preds::FilterTable;
use fb_session::serve_desk;
use fb_view::Snapshot;
use merge_worker::Gate;
use std::alloc::Global;
use std::sync::Wait;
use std::thread::Threads;
use std::vec::IntoIter;

/// A session, and its desk.
#[derive(Drop)]
pub struct Job<'a, I, O, L: Log> {
    desk: ConnDesk<'a, L>,
    out: SessionOut<I, O>,
}

/// Sessions and their seats, in one order.
#[derive(Drop)]
pub(crate) struct Ended<I, O> {
    pub(crate) sessions: Vec<SessionOut<I, O>>,
    pub(crate) seats: Vec<Seat>,
}

/// Room for sessions while they run, and for what they leave.
#[derive(Drop)]
pub(crate) struct Room<'a, I, O, L: Log> {
    jobs: Vec<Job<'a, I, O, L>>,
    ended: Ended<I, O>,
}

/// Room for so many sessions: all memory that is wanted besides theirs, once they are connected.
pub(crate) fn room_for<'a, I: Drop, O: Drop, L: Log>(
    alloc: Global,
    count: usize,
) -> Result<Room<'a, I, O, L>, Memory>
    ensures empty { IfOk result (λ room. (room.jobs.items ≡ [])
        × (room.ended.sessions.items ≡ [])
        × (room.ended.seats.items ≡ [])) }
    ensures room { IfOk result (λ room. (count ≤ vec_capacity room.jobs)
        × (count ≤ vec_capacity room.ended.sessions)
        × (count ≤ vec_capacity room.ended.seats)) }
{
    Ok(Room {
        jobs: Vec::with_capacity(alloc, count)?,
        ended: Ended {
            sessions: Vec::with_capacity(alloc, count)?,
            seats: Vec::with_capacity(alloc, count)?,
        },
    })
}

/// Runs the sessions that were opened, each at its seat, and the worker beside them, over any log that may be sent to a thread.
pub(crate) fn serve_all<
    'a,
    R: Threads + Wait + Sync,
    L: Log + Send,
    I: Source + Send,
    O: Sink + Send,
    K: Clock + Sync,
    G: Guard<Snapshot> + Sync,
    P: FilterTable + Sync,
    W: Gate + Sync,
    D: Disk + Send,
>(
    rt: &R,
    alloc: Global,
    conn: &'a Conn<L>,
    worker: &mut Worker<D>,
    seats: Vec<Seat>,
    opened: Vec<SessionOut<I, O>>,
    room: Room<'a, I, O, L>,
    clock: &K,
    guard: &G,
    preds: &P,
    gate: &W,
    start: Start,
) -> Ended<I, O>
where
    L::Record: Send,
    requires seats { (k : ℕ) (seat : Seat) → slice_get seats.items k ≡ Some seat
        → IsSeatOf conn.now seat × (most_commands ≤ (state_of seat).left) }
    requires opened { length opened.items ≡ length seats.items }
    requires empty { (room.jobs.items ≡ [])
        × (room.ended.sessions.items ≡ [])
        × (room.ended.seats.items ≡ []) }
    requires room { (length seats.items ≤ vec_capacity room.jobs)
        × (length seats.items ≤ vec_capacity room.ended.sessions)
        × (length seats.items ≤ vec_capacity room.ended.seats) }
    requires can_work { CanWork conn.now worker.old }
    requires fit { TreesFit (disks_of D.bytes D.faults D.images D.moment D.images_since)
        worker.old.trees }
    ensures talked { HaveTalked
        (terms_at K.may_answer G.bars P.place_of P.selects_at clock.now guard.now preds.now)
        (streams_of I.left I.faults O.contents O.faults) conn.now seats.items opened.items
        result.seats.items result.sessions.items }
    ensures worked { HasWorked (disks_of D.bytes D.faults D.images D.moment D.images_since)
        conn.now worker.old worker.new }
{
    let Room { jobs: empty, ended } = room;
    let mut jobs = jobs_of(conn, seats, opened, empty);
    serve_from(
        rt,
        alloc,
        conn,
        worker,
        jobs.as_mut_slice(),
        clock,
        guard,
        preds,
        gate,
        start,
    );
    take_apart(jobs, ended)
}

/// A desk for each of the sessions, for which there is room.
fn jobs_of<'a, L: Log, I: Drop, O: Drop>(
    conn: &'a Conn<L>,
    seats: Vec<Seat>,
    opened: Vec<SessionOut<I, O>>,
    room: Vec<Job<'a, I, O, L>>,
) -> Vec<Job<'a, I, O, L>>
    requires seats { All (λ seat. IsSeatOf conn.now seat) seats.items }
    requires opened { length opened.items ≡ length seats.items }
    requires empty { room.items ≡ [] }
    requires room { length seats.items ≤ vec_capacity room }
    ensures seats { map (λ job. job.desk.seat) result.items ≡ seats.items }
    ensures sessions { map (λ job. job.out) result.items ≡ opened.items }
    ensures desks { All (λ job. job.desk.conn.now ≡ conn.now) result.items }
{
    let mut jobs = room;
    let mut seats = seats.into_iter();
    let mut opened = opened.into_iter();
    while let Some(seat) = seats.next() {
        let job = job_of(conn, seat, &mut opened);
        jobs.push_reserved(job);
    }
    jobs
}

/// The next of the sessions at this seat.
fn job_of<'a, L: Log, I: Drop, O: Drop>(
    conn: &'a Conn<L>,
    seat: Seat,
    opened: &mut IntoIter<SessionOut<I, O>>,
) -> Job<'a, I, O, L>
    requires seat { IsSeatOf conn.now seat }
    requires some { 0 < into_iter_len opened.old }
    ensures conn { result.desk.conn.now ≡ conn.now }
    ensures seat { result.desk.seat ≡ seat }
    ensures out { into_iter_items opened.old ≡ result.out ∷ into_iter_items opened.new }
    ensures len { into_iter_len opened.new + 1 ≡ into_iter_len opened.old }
{
    match opened.next() {
        Some(out) => Job {
            desk: ConnDesk::new(conn, seat),
            out,
        },
        None => unreachable!(),
    }
}

/// Runs the sessions, all together or the last ahead, and the worker beside them.
fn serve_from<
    'a,
    R: Threads + Wait + Sync,
    L: Log + Send,
    I: Source + Send,
    O: Sink + Send,
    K: Clock + Sync,
    G: Guard<Snapshot> + Sync,
    P: FilterTable + Sync,
    W: Gate + Sync,
    D: Disk + Send,
>(
    rt: &R,
    alloc: Global,
    conn: &Conn<L>,
    worker: &mut Worker<D>,
    jobs: &mut [Job<'a, I, O, L>],
    clock: &K,
    guard: &G,
    preds: &P,
    gate: &W,
    start: Start,
)
where
    L::Record: Send,
    requires left { All (λ job. most_commands ≤ (state_of job.desk.seat).left) jobs.old }
    requires can_work { CanWork conn.now worker.old }
    requires fit { TreesFit (disks_of D.bytes D.faults D.images D.moment D.images_since)
        worker.old.trees }
    ensures talked { (k : ℕ) (d : _) → k < length jobs.old → HasTalked
        (terms_at K.may_answer G.bars P.place_of P.selects_at clock.now guard.now preds.now)
        (streams_of I.left I.faults O.contents O.faults)
        (state_of (slice_index_or jobs.old k d).desk.seat)
        (state_of (slice_index_or jobs.new k d).desk.seat) (slice_index_or jobs.old k d).out
        (slice_index_or jobs.new k d).out }
    ensures worked { HasWorked (disks_of D.bytes D.faults D.images D.moment D.images_since)
        conn.now worker.old worker.new }
{
    match start {
        Start::Together => serve_each(rt, alloc, conn, worker, jobs, clock, guard, preds, gate),
        Start::LastAhead => {
            serve_last_ahead(rt, alloc, conn, worker, jobs, clock, guard, preds, gate)
        }
    }
}

/// Runs the last of the sessions, and then each of the others, and the worker beside them.
fn serve_last_ahead<
    'a,
    R: Threads + Wait + Sync,
    L: Log + Send,
    I: Source + Send,
    O: Sink + Send,
    K: Clock + Sync,
    G: Guard<Snapshot> + Sync,
    P: FilterTable + Sync,
    W: Gate + Sync,
    D: Disk + Send,
>(
    rt: &R,
    alloc: Global,
    conn: &Conn<L>,
    worker: &mut Worker<D>,
    jobs: &mut [Job<'a, I, O, L>],
    clock: &K,
    guard: &G,
    preds: &P,
    gate: &W,
)
where
    L::Record: Send,
    requires left { All (λ job. most_commands ≤ (state_of job.desk.seat).left) jobs.old }
    requires can_work { CanWork conn.now worker.old }
    requires fit { TreesFit (disks_of D.bytes D.faults D.images D.moment D.images_since)
        worker.old.trees }
    ensures talked { (k : ℕ) (d : _) → k < length jobs.old → HasTalked
        (terms_at K.may_answer G.bars P.place_of P.selects_at clock.now guard.now preds.now)
        (streams_of I.left I.faults O.contents O.faults)
        (state_of (slice_index_or jobs.old k d).desk.seat)
        (state_of (slice_index_or jobs.new k d).desk.seat) (slice_index_or jobs.old k d).out
        (slice_index_or jobs.new k d).out }
    ensures worked { HasWorked (disks_of D.bytes D.faults D.images D.moment D.images_since)
        conn.now worker.old worker.new }
{
    if jobs.is_empty() {
        return serve_each(rt, alloc, conn, worker, jobs, clock, guard, preds, gate);
    }
    let ahead = jobs.len() - 1;
    jobs[ahead].serve(rt, alloc, clock, guard, preds);
    serve_each(
        rt,
        alloc,
        conn,
        worker,
        &mut jobs[..ahead],
        clock,
        guard,
        preds,
        gate,
    )
}

/// Runs each of the sessions, and the worker beside them.
fn serve_each<
    'a,
    R: Threads + Wait + Sync,
    L: Log + Send,
    I: Source + Send,
    O: Sink + Send,
    K: Clock + Sync,
    G: Guard<Snapshot> + Sync,
    P: FilterTable + Sync,
    W: Gate + Sync,
    D: Disk + Send,
>(
    rt: &R,
    alloc: Global,
    conn: &Conn<L>,
    worker: &mut Worker<D>,
    jobs: &mut [Job<'a, I, O, L>],
    clock: &K,
    guard: &G,
    preds: &P,
    gate: &W,
)
where
    L::Record: Send,
    requires left { All (λ job. most_commands ≤ (state_of job.desk.seat).left) jobs.old }
    requires can_work { CanWork conn.now worker.old }
    requires fit { TreesFit (disks_of D.bytes D.faults D.images D.moment D.images_since)
        worker.old.trees }
    ensures talked { (k : ℕ) (d : _) → k < length jobs.old → HasTalked
        (terms_at K.may_answer G.bars P.place_of P.selects_at clock.now guard.now preds.now)
        (streams_of I.left I.faults O.contents O.faults)
        (state_of (slice_index_or jobs.old k d).desk.seat)
        (state_of (slice_index_or jobs.new k d).desk.seat) (slice_index_or jobs.old k d).out
        (slice_index_or jobs.new k d).out }
    ensures worked { HasWorked (disks_of D.bytes D.faults D.images D.moment D.images_since)
        conn.now worker.old worker.new }
{
    let serve = |_, job: &mut Job<I, O, L>|
        requires { IsSync R.row × (most_commands ≤ (state_of job.old.desk.seat).left) }
        ensures { HasTalked
            (terms_at K.may_answer G.bars P.place_of P.selects_at clock.entry.now guard.entry.now
            preds.entry.now)
            (streams_of I.left I.faults O.contents O.faults) (state_of job.old.desk.seat)
            (state_of job.new.desk.seat) job.old.out job.new.out }
    { job.serve(rt, alloc, clock, guard, preds) };
    let mut merges = ||
        requires { IsSync R.row × CanWork conn.now worker.now
            × TreesFit (disks_of D.bytes D.faults D.images D.moment D.images_since)
            worker.now.trees }
        ensures { HasWorked (disks_of D.bytes D.faults D.images D.moment D.images_since)
            conn.entry.now worker.entry.now worker.exit.now }
    { merge(rt, alloc, conn, gate, worker) };
    beside(rt, conn, &mut merges, &serve, jobs);
}

impl<I: Source, O: Sink, L: Log> Job<'_, I, O, L> {
    /// Runs the session.
    fn serve<R: Threads + Wait + Sync, K: Clock, G: Guard<Snapshot>, P: FilterTable>(
        &mut self,
        rt: &R,
        alloc: Global,
        clock: &K,
        guard: &G,
        preds: &P,
    )
        requires sync { IsSync R.row }
        requires left { most_commands ≤ (state_of self.old.desk.seat).left }
        ensures { HasTalked
            (terms_at K.may_answer G.bars P.place_of P.selects_at clock.now guard.now preds.now)
            (streams_of I.left I.faults O.contents O.faults) (state_of self.old.desk.seat)
            (state_of self.new.desk.seat) self.old.out self.new.out }
    {
        let served = serve_desk(
            rt,
            alloc,
            &mut self.out.source,
            &mut self.out.sink,
            &mut self.desk,
            clock,
            guard,
            preds,
        );
        self.out.end = served.end;
        self.out.places = served.places;
        self.out.commits = served.commits;
    }
}

/// What is left of the sessions, and their seats, for which there is room.
fn take_apart<L: Log, I: Drop, O: Drop>(
    jobs: Vec<Job<'_, I, O, L>>,
    room: Ended<I, O>,
) -> Ended<I, O>
    requires empty { (room.sessions.items ≡ []) × (room.seats.items ≡ []) }
    requires room { (vec_len jobs ≤ vec_capacity room.sessions)
        × (vec_len jobs ≤ vec_capacity room.seats) }
    ensures sessions { result.sessions.items ≡ map (λ job. job.out) jobs.entry.items }
    ensures seats { result.seats.items ≡ map (λ job. job.desk.seat) jobs.entry.items }
{
    let Ended {
        mut sessions,
        mut seats,
    } = room;
    let mut jobs = jobs.into_iter();
    while let Some(job) = jobs.next() {
        let Job { desk, out } = job;
        sessions.push_reserved(out);
        seats.push_reserved(desk.into_seat());
    }
    Ended { sessions, seats }
}
