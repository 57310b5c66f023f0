//! The generator: its sessions run over the history in memory, and what they left is summed up on the console.
ghost use Rattle.std.specs.Prelude.{◌≡◌, ◌∷◌, ℕ, [], map, None, Some, IfOk, IfErr, IfSome, string_bytes};
ghost use Rattle.std.specs.Option.{unwrap_or};
ghost use Rattle.std.specs.List.{AllByRecursion};
ghost use Rattle.fb_model.specs.History.{basis, upto};
ghost use Rattle.disk_model.specs.Disk.{IfKnown};
ghost use Rattle.log_model.specs.Log.{IsLogOf};
ghost use Rattle.talk_model.specs.Prefixes.{Prefixes};
ghost use Rattle.command_line.specs.Words.{load, load_merge_at, standard};
ghost use Rattle.command_line.specs.Views.{names_in};
ghost use Rattle.fb_ports.specs.declared.hosts.Part.{Part};
ghost use Rattle.fb_session.specs.Terms.{terms_at};
ghost use Rattle.fb_run.specs.Outside.{streams_of, disks_of, of_sinks, ports_of, IsSinkOf, OpensOnly};
ghost use Rattle.fb_run.specs.Generated.{loads_of, spec_in_memory, in_memory};
ghost use Rattle.fb_run.specs.Opening.{OpensSink, HostRefuses};
ghost use Rattle.fb_run.specs.Database.{IsOpened, IsUnready};
ghost use Rattle.fb_view.specs.SnapshotModel.{Stands};
ghost use Rattle.fb_run.specs.Headline.{OneHistory, EachReplies};
ghost use Rattle.fb_run.specs.Logs.{LogHolds, IsUnharmed};
ghost use Rattle.fb_run.specs.Causes.{directory_of, names_of, NoSession, HasNoTarget, Causes};
ghost use Rattle.fb_run.specs.Looking.{IsUnanswered};
ghost use Rattle.fb_run.specs.Loading.{supply, room, AreGenerated, left_of, said_of, SumsUp, SaysFurther};
ghost use Rattle.fb_run.specs.Coverage.{GoAsFar, IsMerged};

use crate::database::{Directory, Obstacle, Unready, open_directory};
use crate::ending::{not_begun, without_session};
use crate::lines::out_of_memory;
use crate::looking::{CONSOLE, answered, write_line};
use crate::opening::{Ready, Start, Unopened, open_sink, session_of};
use crate::outcome::{Outcome, SessionOut};
use crate::summary::summary_line;
use crate::top::run_opened;
use command_line::{Options, Run};
use fb_core::Guard;
use fb_disk::Disk;
use fb_memory::Memory;
use fb_ports::{Clock, Host, Sink};
use fb_preds::FilterTable;
use fb_view::Snapshot;
use load_scripts::{SESSIONS, script_of};
use mem_ports::{MemSink, MemSource};
use merge_worker::Gate;
use std::alloc::Global;
use std::sync::Wait;
use std::thread::Threads;

/// The directory whose history is in memory alone.
pub(crate) const IN_MEMORY: &str = ":memory:";

/// The sessions, by their numbers. The last one installs the attributes.
const NAMES: [&str; 5] = ["0", "1", "2", "3", "4"];

/// From how many live datoms on a merge is due.
const MERGE_AT: u64 = 10_000;

/// The room for the lines of a session.
const ROOM: usize = 1_048_576;

/// Runs the sessions of the generator, each of which records so many numbers, and sums them up on the console.
pub(crate) fn load<
    R: Threads + Wait + Sync,
    H: Host,
    K: Clock + Sync,
    G: Guard<Snapshot> + Sync,
    P: FilterTable + Sync,
    W: Gate + Sync,
>(
    rt: &R,
    alloc: Global,
    count: u32,
    host: &mut H,
    clock: &K,
    preds: &P,
    guard: &G,
    gate: &W,
) -> Outcome<H::In, H::Out, H::Disk>
    ensures sessions { result.sessions.items ≡ [] }
    ensures no_target { HasNoTarget result }
    ensures one_history { IfSome result.last (λ last. OneHistory last.entries result.recovered
        (unwrap_or result.authors []) (map (λ s. s.commits) result.loads.items)) }
    ensures replies { IfSome result.last (λ last. EachReplies
        (terms_at K.may_answer G.bars P.place_of P.selects_at clock.now guard.now preds.now)
        (spec_in_memory (H.spec host.old) (Some (load count))) in_memory result.recovered
        result.torn (unwrap_or result.authors []) (loads_of (Some (load count)))
        result.loads.items last.entries) }
    ensures prefixes { IfSome result.last (λ last. AllByRecursion
        (λ s. Prefixes result.recovered (basis last.entries) s.places s.commits)
        result.loads.items) }
    ensures opening { IfSome result.last (λ last. IfKnown
        ((H.spec host.old).disks (directory_of (Some (load count))) Part.Log)
        (λ file. IsLogOf file (upto last.entries result.recovered))) }
    ensures log { IfSome result.last (λ last. IfSome result.log (LogHolds (H.spec host.old)
        (disks_of H.Disk.bytes H.Disk.faults H.Disk.images H.Disk.moment H.Disk.images_since)
        (directory_of (Some (load count))) last.entries result.recovered result.torn)) }
    ensures causes { Causes (H.spec host.old) (H.spec host.new)
        (streams_of H.In.left H.In.faults H.Out.contents H.Out.faults)
        (disks_of H.Disk.bytes H.Disk.faults H.Disk.images H.Disk.moment H.Disk.images_since)
        (Some (load count)) result }
    ensures others { OpensOnly (ports_of (Some (load count))) (H.spec host.old)
        (H.spec host.new) }
    ensures stands { IfSome result.last Stands }
    ensures unharmed { result.last ≡ None → IfSome result.log (IsUnharmed (H.spec host.old)
        (disks_of H.Disk.bytes H.Disk.faults H.Disk.images H.Disk.moment H.Disk.images_since)
        (directory_of (Some (load count)))) }
    ensures covered { IfSome result.last (λ last. result.covered ≡ last.covered) }
    ensures coverage { IfSome result.last (λ last. IfSome result.segments (GoAsFar
        (H.spec host.old)
        (disks_of H.Disk.bytes H.Disk.faults H.Disk.images H.Disk.moment H.Disk.images_since)
        (directory_of (Some (load count))) (upto last.entries result.recovered) last)) }
    ensures merged { IfSome result.last (λ last. result.status ≡ 0
        → IfSome result.segments (IsMerged (H.spec host.old)
        (disks_of H.Disk.bytes H.Disk.faults H.Disk.images H.Disk.moment H.Disk.images_since)
        (directory_of (Some (load count))) load_merge_at last)) }
{
    let Ok(command) = command_of(alloc) else {
        return without_session(alloc, 9, out_of_memory(alloc));
    };
    match open_load(alloc, host, count) {
        Ok(made) => {
            let Prepared { ready, console } = made;
            let ran = run_opened(rt, alloc, &command, ready, clock, preds, guard, gate);
            summed_up(alloc, ran, console)
        }
        Err(unready) => not_begun(alloc, unready),
    }
}

/// The generator as a run of scripts, whose names are the numbers of its sessions.
fn command_of<'a>(alloc: Global) -> Result<Run<'a>, Memory>
    ensures names { (count : ℕ) → IfOk result
        (λ run. names_in run.scripts.items ≡ loads_of (Some (load count))) }
    ensures merge_at { IfOk result (λ run. run.options.merge_at ≡ load_merge_at) }
{
    Ok(Run {
        options: Options {
            merge_at: MERGE_AT,
            strict: false,
        },
        directory: IN_MEMORY,
        scripts: Vec::from_array(alloc, NAMES)?,
    })
}

/// What the generator begins with, and the console for its summary.
#[derive(Drop)]
struct Prepared<O, D: Disk> {
    ready: Ready<MemSource, MemSink, D>,
    console: O,
}

/// Opens the directory and then the console, and makes the sessions.
fn open_load<'a, H: Host>(
    alloc: Global,
    host: &mut H,
    count: u32,
) -> Result<Prepared<H::Out, H::Disk>, Unready<'a, H::Disk>>
    ensures directory { IfOk result (λ made. IsOpened (H.spec host.old)
        (disks_of H.Disk.bytes H.Disk.faults H.Disk.images H.Disk.moment H.Disk.images_since)
        (directory_of (Some (load count))) made.ready.directory) }
    ensures sessions { IfOk result (λ made. AreGenerated count made.ready.sessions.items) }
    ensures console { IfOk result (λ made. IsSinkOf (H.spec host.old)
        (streams_of H.In.left H.In.faults H.Out.contents H.Out.faults) standard made.console) }
    ensures unfailed { IfOk result
        (λ _. (H.spec host.new).faults ≡ (H.spec host.old).faults) }
    ensures stop { IfErr result (IsUnready (H.spec host.old) (H.spec host.new)
        (disks_of H.Disk.bytes H.Disk.faults H.Disk.images H.Disk.moment H.Disk.images_since)
        (ports_of (Some (load count))) (directory_of (Some (load count)))
        (names_of (Some (load count)))) }
    ensures others { OpensOnly (ports_of (Some (load count))) (H.spec host.old)
        (H.spec host.new) }
{
    match open_directory(alloc, host, IN_MEMORY) {
        Ok(directory) => prepare_over(alloc, host, count, directory),
        Err(unready) => Err(unready),
    }
}

/// Opens the console, and makes the sessions over a directory.
fn prepare_over<'a, H: Host>(
    alloc: Global,
    host: &mut H,
    count: u32,
    directory: Directory<H::Disk>,
) -> Result<Prepared<H::Out, H::Disk>, Unready<'a, H::Disk>>
    ensures directory { IfOk result (λ made. made.ready.directory ≡ directory) }
    ensures sessions { IfOk result (λ made. AreGenerated count made.ready.sessions.items) }
    ensures console { IfOk result (λ made. OpensSink
        (streams_of H.In.left H.In.faults H.Out.contents H.Out.faults) standard (H.spec host.old)
        (H.spec host.new) made.console) }
    ensures stop { IfErr result
        (IsUnanswered (H.spec host.old) (H.spec host.new) standard directory) }
    ensures others { OpensOnly (of_sinks (standard ∷ [])) (H.spec host.old) (H.spec host.new) }
{
    match open_sessions(alloc, host, count) {
        Ok(Streams { sessions, console }) => Ok(Prepared {
            ready: Ready {
                directory,
                sessions,
                start: Start::LastAhead,
            },
            console,
        }),
        Err(why) => Err(Unready {
            why: Obstacle::Unopened(why),
            disks: Some(directory.into_disks()),
        }),
    }
}

/// The sessions, and the console.
#[derive(Drop)]
struct Streams<O> {
    sessions: Vec<SessionOut<MemSource, MemSink>>,
    console: O,
}

/// Opens the console, and makes the sessions.
fn open_sessions<'a, H: Host>(
    alloc: Global,
    host: &mut H,
    count: u32,
) -> Result<Streams<H::Out>, Unopened<'a>>
    ensures console { IfOk result (λ made. OpensSink
        (streams_of H.In.left H.In.faults H.Out.contents H.Out.faults) standard (H.spec host.old)
        (H.spec host.new) made.console) }
    ensures sessions { IfOk result (λ made. AreGenerated count made.sessions.items) }
    ensures stop { IfErr result (HostRefuses standard (H.spec host.old) (H.spec host.new)) }
    ensures others { OpensOnly (of_sinks (standard ∷ [])) (H.spec host.old) (H.spec host.new) }
{
    let console = open_sink(alloc, host, CONSOLE)?;
    match sessions_of(alloc, count) {
        Ok(sessions) => Ok(Streams { sessions, console }),
        Err(Memory) => Err(Unopened::Memory),
    }
}

/// The sessions of the generator, by number. They are still to be run.
fn sessions_of(alloc: Global, count: u32) -> Result<Vec<SessionOut<MemSource, MemSink>>, Memory>
    ensures { IfOk result (λ sessions. AreGenerated count sessions.items) }
{
    let mut sessions = Vec::new(alloc);
    for number in 0..SESSIONS + 1 {
        sessions.push(numbered(alloc, number, count)?)?;
    }
    Ok(sessions)
}

/// The session with this number, in memory.
fn numbered(
    alloc: Global,
    number: u32,
    count: u32,
) -> Result<SessionOut<MemSource, MemSink>, Memory>
    ensures source { IfOk result (λ s. s.source ≡ supply count number) }
    ensures sink { IfOk result (λ s. s.sink ≡ room number) }
{
    let source = MemSource::new(script_of(alloc, number, count)?, Vec::new(alloc));
    let sink = MemSink::new(alloc, ROOM, Vec::new(alloc))?;
    Ok(session_of(alloc, source, sink))
}

/// The outcome of the generator: where nothing went wrong, its summary goes out to the console.
fn summed_up<I: Drop, O: Sink, D: Disk>(
    alloc: Global,
    ran: Outcome<MemSource, MemSink, D>,
    console: O,
) -> Outcome<I, O, D>
    ensures sessions { result.sessions.items ≡ [] }
    ensures no_target { HasNoTarget result }
    ensures loads { result.loads.items ≡ ran.sessions.items }
    ensures left { left_of result ≡ left_of ran }
    ensures said { SaysFurther O.contents O.faults ran.status (string_bytes ran.line) ran.last
        console (said_of result) }
{
    let Outcome {
        status,
        line,
        sessions,
        console: _,
        loads: _,
        log,
        segments,
        target_log: _,
        target_segments: _,
        authors,
        last,
        torn,
        recovered,
        covered,
    } = ran;
    let said = said_further(alloc, status, line, &last, console);
    Outcome {
        loads: sessions,
        log,
        segments,
        authors,
        last,
        torn,
        recovered,
        covered,
        ..said
    }
}

/// What is printed where a run ended with this status, this line and this value of the database.
fn said_further<I: Drop, O: Sink, D: Drop>(
    alloc: Global,
    status: u8,
    line: String,
    last: &Option<Snapshot>,
    console: O,
) -> Outcome<I, O, D>
    ensures none { NoSession result }
    ensures no_target { HasNoTarget result }
    ensures said { SaysFurther O.contents O.faults status (string_bytes line) last.now console
        (said_of result) }
{
    match last {
        Some(last) if status == 0 => printed(alloc, last, console),
        _ => without_session(alloc, status, Ok(line)),
    }
}

/// The outcome where the summary of this value is printed on the console.
fn printed<I: Drop, O: Sink, D: Drop>(
    alloc: Global,
    last: &Snapshot,
    mut console: O,
) -> Outcome<I, O, D>
    ensures none { NoSession result }
    ensures no_target { HasNoTarget result }
    ensures sums_up { SumsUp O.contents O.faults last.now.entries console (said_of result) }
{
    let Ok(line) = summary_line(alloc, last) else {
        return without_session(alloc, 9, out_of_memory(alloc));
    };
    let written = write_line(&mut console, line.as_bytes());
    Outcome {
        console: Some(console),
        ..answered(alloc, written)
    }
}
