//! The runs, each beside its model.
ghost use Rattle.std.specs.Prelude.{◌≡◌};
ghost use Rattle.board_rule.specs.Calls.{view_of};
ghost use Rattle.fb_conn.specs.Seats.{IsWorkerOf};
ghost use Rattle.fb_roots.specs.Bases.{IsBaseOf};
ghost use Rattle.merge_worker.specs.Work.{IsSameWorker};
ghost use Rattle.test_conn.specs.Seated.{AreSessions};

use crate::answers::{Answer, ask};
use crate::calls::{Said, Turn};
use crate::copies::copied;
use crate::forms::Forms;
use crate::logs::CountingLog;
use crate::model::{Counts, Model, halt_of};
use crate::orders::Script;
use crate::stores::NoStore;
use anyhow::{Result, bail};
use fb_conn::{Closed, Conn, Made, Patience, Seat};
use fb_core::{Core, CoreParts, Draft};
use fb_roots::Base;
use fb_view::Snapshot;
use merge_worker::{OpenGate, WorkEnd, base_of, work};
use std::alloc::Global;
use std::sync::Wait;
use std::thread::Threads;

/// How many orders there may be of the calls of both sessions.
const ORDERS: u32 = 256;

/// As on a machine of four processors.
const PROCESSORS: usize = 4;

/// The records at which the log fails, and the number of one that never comes.
const FAILURES: &[u64] = &[1, 2, 3, 1000];

/// The t of the commit behind which the database is copied, while the sessions go on.
const COPIED_AT: u64 = 2;

/// Runs each order of the calls.
pub(crate) fn run_orders<R: Threads + Wait + Sync>(
    rt: &R,
    alloc: Global,
    forms: &Forms,
    script: &Script,
    counts: &mut Counts,
) -> Result<()> {
    for order in 0..ORDERS {
        if let Some(turns) = script.in_order(alloc, order)? {
            run_failures(rt, alloc, forms, turns.as_slice(), counts)?;
        }
    }
    Ok(())
}

fn run_failures<R: Threads + Wait + Sync>(
    rt: &R,
    alloc: Global,
    forms: &Forms,
    turns: &[Turn],
    counts: &mut Counts,
) -> Result<()> {
    for fails_at in FAILURES {
        counts.runs = counts.runs.saturating_add(1);
        run(rt, alloc, forms, turns, *fails_at, counts)?;
    }
    Ok(())
}

fn run<R: Threads + Wait + Sync>(
    rt: &R,
    alloc: Global,
    forms: &Forms,
    turns: &[Turn],
    fails_at: u64,
    counts: &mut Counts,
) -> Result<()> {
    let mut model = Model::new(alloc, Some(fails_at))?;
    serve(rt, alloc, forms, turns, &mut model, counts)
}

/// Serves the calls over a log that fails where the model says, and closes the connection. A failure is told once nothing is left of it.
fn serve<R: Threads + Wait + Sync>(
    rt: &R,
    alloc: Global,
    forms: &Forms,
    turns: &[Turn],
    model: &mut Model,
    counts: &mut Counts,
) -> Result<()> {
    let log = CountingLog {
        records: 0,
        fails_at: model.fails_at,
    };
    let core = Core::of(alloc, Snapshot::first(alloc)?);
    let mut base = base_of(core.snapshot())?;
    let Ok(
        Made {
            conn,
            mut seats,
            mut worker,
        },
    ) = Conn::new(alloc, core, log, 2, 1, Patience::on(PROCESSORS))
    else {
        bail!("out of memory");
    };
    let asked = ask_all(rt, alloc, &conn, &mut seats, turns, forms, model, counts);
    let merged = merge_rest(rt, alloc, &conn, &mut worker, &mut base);
    let left = compare_end(model, conn.close(seats, worker));
    asked?;
    merged?;
    left
}

/// Asks for one call after another, each at the seat of its session, and compares the answers.
fn ask_all<R: Wait>(
    rt: &R,
    alloc: Global,
    conn: &Conn<CountingLog>,
    seats: &mut Vec<Seat>,
    turns: &[Turn],
    forms: &Forms,
    model: &mut Model,
    counts: &mut Counts,
) -> Result<()>
    requires { AreSessions conn.now seats.old.items }
    ensures { AreSessions conn.now seats.new.items }
{
    for turn in turns {
        let answer = ask_at(rt, conn, seats, *turn, forms)?;
        compare(model, *turn, &answer, seats.as_slice(), counts)?;
        compare_copy(alloc, model, &answer)?;
    }
    Ok(())
}

/// Lets the worker merge what is left when both sessions have ended.
fn merge_rest<R: Threads + Wait + Sync>(
    rt: &R,
    alloc: Global,
    conn: &Conn<CountingLog>,
    worker: &mut Seat,
    base: &mut Base,
) -> Result<()>
    requires worker { IsWorkerOf conn.now worker.old }
    requires base { IsBaseOf base.old worker.old.last.entries
        (view_of worker.old.board).covered }
    ensures worker { IsWorkerOf conn.now worker.new }
    ensures same { IsSameWorker (view_of worker.old.board) (view_of worker.new.board) }
{
    conn.shut(rt);
    let mut ahead = None;
    let end = work(
        rt,
        alloc,
        conn,
        worker,
        &mut NoStore,
        base,
        &mut ahead,
        &OpenGate,
    );
    match end {
        WorkEnd::Shut => Ok(()),
        _ => bail!("the worker ended before all was merged"),
    }
}

/// Asks at the seat of the session whose turn it is.
fn ask_at<R: Wait>(
    rt: &R,
    conn: &Conn<CountingLog>,
    seats: &mut Vec<Seat>,
    turn: Turn,
    forms: &Forms,
) -> Result<Answer>
    requires { AreSessions conn.now seats.old.items }
    ensures { AreSessions conn.now seats.new.items }
{
    match seats.get_mut(turn.who) {
        Some(seat) => ask(rt, conn, seat, turn, forms),
        None => bail!("there is no such session"),
    }
}

/// The answer, and what each session has seen now, are as the model says.
fn compare(
    model: &mut Model,
    turn: Turn,
    answer: &Answer,
    seats: &[Seat],
    counts: &mut Counts,
) -> Result<()> {
    let said = model.answer(turn)?;
    if answer.said != said || !model.has(&answer.snapshot) {
        bail!("a call is answered otherwise than the model says");
    }
    if !model.have_seen(seats) {
        bail!("a session has seen something else than the model says");
    }
    counts.count(said);
    Ok(())
}

/// A copy that is made between two commits has all that was accepted until then, and nothing else.
fn compare_copy(alloc: Global, model: &Model, answer: &Answer) -> Result<()> {
    match answer.said {
        Said::Receipt { t: COPIED_AT, .. } if !model.has(&copied(alloc, &answer.snapshot)?) => {
            bail!("a copy between two commits is of another history")
        }
        _ => Ok(()),
    }
}

/// What is left is as the model says.
fn compare_end(model: &Model, closed: Closed<CountingLog>) -> Result<()> {
    compare_stop(model, &closed)?;
    let left = closed.core.into_parts();
    compare_history(model, &left)
}

/// All of the history is merged, the log took as many records, and it stopped as the model says, with that transaction torn.
fn compare_stop(model: &Model, closed: &Closed<CountingLog>) -> Result<()> {
    if u64::from(closed.core.covered()) != model.basis() {
        bail!("something is left that was not merged");
    }
    if closed.log.records != model.basis() || halt_of(closed.stopped) != model.halt {
        bail!("the log stopped elsewhere");
    }
    if torn_at(&closed.torn) != model.stop_at() {
        bail!("another transaction is torn");
    }
    Ok(())
}

/// The t that the entry of the torn transaction was to have.
fn torn_at(torn: &Option<Draft>) -> Option<u64> {
    match torn {
        Some(draft) => Some(u64::from(draft.after().basis())),
        None => None,
    }
}

/// The history that is left is the model's, and each entry has its author.
fn compare_history(model: &Model, left: &CoreParts) -> Result<()> {
    for place in 0..left.authors.len() {
        let Some(who) = model.authors.get(place as usize) else {
            bail!("there are too many entries");
        };
        if left.authors.at(place) as usize != *who {
            bail!("an entry has another author");
        }
    }
    if !model.has(&left.snapshot) || u64::from(left.authors.len()) != model.basis() {
        bail!("another history is left");
    }
    Ok(())
}
