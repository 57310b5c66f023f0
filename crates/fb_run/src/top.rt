//! The top call: from the words of a command line, over a host and a clock, to an outcome.
ghost use Rattle.std.specs.Prelude.{◌≡◌, ◌⊎◌, ℕ, ◌<◌, ◌≤◌, Bool, true, [], ◌++◌, map, length, Some, None, slice_get, string_bytes, IfSome};
ghost use Rattle.std.specs.Option.{unwrap_or};
ghost use Rattle.std.specs.List.{AllByRecursion};
ghost use Rattle.fb_model.specs.History.{basis, upto};
ghost use Rattle.disk_model.specs.Disk.{IfKnown};
ghost use Rattle.log_model.specs.Log.{IsLogOf};
ghost use Rattle.command_line.specs.Words.{are_scripts, command_of, scripts_of, merge_at_of};
ghost use Rattle.command_line.specs.Views.{names_in, run_by};
ghost use Rattle.disk_log.specs.Logs.{disk_in};
ghost use Rattle.talk_model.specs.Prefixes.{Prefixes};
ghost use Rattle.fb_ports.specs.declared.hosts.Part.{Part};
ghost use Rattle.fb_session.specs.Terms.{terms_at};
ghost use Rattle.fb_view.specs.SnapshotModel.{Stands};
ghost use Rattle.fb_run.specs.Outside.{streams_of, disks_of, ports_of, OpensOnly};
ghost use Rattle.fb_run.specs.Generated.{loads_of, spec_in_memory, in_memory};
ghost use Rattle.fb_run.specs.Headline.{OneHistory, EachReplies};
ghost use Rattle.fb_run.specs.Strict.{under};
ghost use Rattle.fb_run.specs.Logs.{LogHolds, IsUnharmed};
ghost use Rattle.fb_run.specs.Causes.{directory_of, target_of, HasNoConsole, HasNoTarget, NoSession, IsOutOfMemory, Causes};
ghost use Rattle.fb_run.specs.Complete.{Complete};
ghost use Rattle.fb_run.specs.Coverage.{GoAsFar, IsMerged};
ghost use Rattle.fb_run.specs.Merging.{trees_in};
ghost use Rattle.fb_run.specs.Targets.{TargetHolds, TargetHasRoot};
ghost use Rattle.fb_run.specs.Database.{IsReopened};
ghost use Rattle.fb_run.specs.Running.{RepliesBy, HaveEnded, HandsLogBack, HandsBothBack, GoesOnFrom};

use crate::backing::back_up;
use crate::database::{Connection, connected, patience_for};
use crate::ending::{closed, cut_short, not_begun, without_session};
use crate::jobs::{room_for, serve_all};
use crate::lines::{out_of_memory, usage};
use crate::loading::load;
use crate::looking::check_directory;
use crate::opening::{Ready, open_run};
use crate::outcome::{Outcome, SessionOut};
use crate::strict::Chosen;
use command_line::{Request, Run, command_in};
use fb_core::Guard;
use fb_disk::Disk;
use fb_memory::Memory;
use fb_ports::{Clock, Host, Sink, Source};
use fb_preds::FilterTable;
use fb_view::Snapshot;
use merge_worker::Gate;
use std::alloc::Global;
use std::sync::Wait;
use std::thread::Threads;

/// Runs the command that the words after the program's name are.
pub fn run<
    R: Threads + Wait + Sync,
    H: Host,
    K: Clock + Sync,
    G: Guard<Snapshot> + Sync,
    P: FilterTable + Sync,
    W: Gate + Sync,
>(
    rt: &R,
    alloc: Global,
    words: &Vec<String>,
    host: &mut H,
    clock: &K,
    preds: &P,
    guard: &G,
    gate: &W,
) -> Outcome<H::In, H::Out, H::Disk>
    // The accepted transactions form one lawful history, in which each has one author.
    ensures one_history { IfSome result.last (λ last. OneHistory last.entries result.recovered
        (unwrap_or result.authors []) (map (λ s. s.commits) result.loads.items
        ++ map (λ s. s.commits) result.sessions.items)) }

    // The last value of the database represents that history.
    ensures stands { IfSome result.last Stands }

    // Each line answers its form as a database with one thread would at its place in the history. The guard judges with
    // `--strict` alone, and never what the generator asks for. The torn transaction is that of the one session that is told `:log`.
    ensures replies { IfSome result.last (λ last. EachReplies
        (terms_at K.may_answer (under (command_of (map string_bytes words.now.items)) G.bars)
        P.place_of P.selects_at clock.now guard.now preds.now)
        (H.spec host.old) (streams_of H.In.left H.In.faults H.Out.contents H.Out.faults)
        result.recovered result.torn (unwrap_or result.authors [])
        (scripts_of (command_of (map string_bytes words.now.items))) result.sessions.items
        last.entries) }
    ensures loads { IfSome result.last (λ last. EachReplies
        (terms_at K.may_answer (under (command_of (map string_bytes words.now.items)) G.bars)
        P.place_of P.selects_at clock.now guard.now preds.now)
        (spec_in_memory (H.spec host.old) (command_of (map string_bytes words.now.items)))
        in_memory result.recovered result.torn (unwrap_or result.authors [])
        (loads_of (command_of (map string_bytes words.now.items))) result.loads.items
        last.entries) }

    // Each line rests on a prefix of the history that has all that its session had seen.
    ensures prefixes { IfSome result.last (λ last. AllByRecursion
        (λ s. Prefixes result.recovered (basis last.entries) s.places s.commits)
        result.sessions.items) }
    ensures load_prefixes { IfSome result.last (λ last. AllByRecursion
        (λ s. Prefixes result.recovered (basis last.entries) s.places s.commits)
        result.loads.items) }

    // The log's file was that of the history at the opening.
    ensures opening { IfSome result.last (λ last. IfKnown
        ((H.spec host.old).disks (directory_of (command_of (map string_bytes words.now.items)))
        Part.Log)
        (λ file. IsLogOf file (upto last.entries result.recovered))) }

    // At the end a crash leaves a log of the history, or of the history with the transaction at which the log failed. Before, it
    // leaves that up to some t with all that was there at the opening, or what a crash could have left before the run.
    ensures log { IfSome result.last (λ last. IfSome result.log (LogHolds (H.spec host.old)
        (disks_of H.Disk.bytes H.Disk.faults H.Disk.images H.Disk.moment H.Disk.images_since)
        (directory_of (command_of (map string_bytes words.now.items))) last.entries
        result.recovered result.torn)) }

    // Each status and its line have their cause.
    ensures causes { Causes (H.spec host.old) (H.spec host.new)
        (streams_of H.In.left H.In.faults H.Out.contents H.Out.faults)
        (disks_of H.Disk.bytes H.Disk.faults H.Disk.images H.Disk.moment H.Disk.images_since)
        (command_of (map string_bytes words.now.items)) result }

    // Of the outside nothing is opened that the command does not name.
    ensures others { OpensOnly (ports_of (command_of (map string_bytes words.now.items)))
        (H.spec host.old) (H.spec host.new) }

    // Over a log that is that of a history, scripts that are forms within the limits are answered whole where no count of faults
    // rises, unless memory is refused.
    ensures complete { Complete
        (terms_at K.may_answer (under (command_of (map string_bytes words.now.items)) G.bars)
        P.place_of P.selects_at clock.now guard.now preds.now)
        (H.spec host.old) (streams_of H.In.left H.In.faults H.Out.contents H.Out.faults)
        (disks_of H.Disk.bytes H.Disk.faults H.Disk.images H.Disk.moment H.Disk.images_since)
        (H.spec host.new).faults (command_of (map string_bytes words.now.items)) result }

    // How far the trees go: as far as ones that the segments keep at the end. Only where the file of segments had a fault, or kept
    // none that the history agrees with, the trees may be those of the opening, and not kept. Where the program succeeds, no merge
    // is due any longer.
    ensures covered { IfSome result.last (λ last. result.covered ≡ last.covered) }
    ensures coverage { IfSome result.last (λ last. IfSome result.segments (GoAsFar
        (H.spec host.old)
        (disks_of H.Disk.bytes H.Disk.faults H.Disk.images H.Disk.moment H.Disk.images_since)
        (directory_of (command_of (map string_bytes words.now.items)))
        (upto last.entries result.recovered) last)) }
    ensures merged { IfSome result.last (λ last. result.status ≡ 0
        → IfSome (merge_at_of (command_of (map string_bytes words.now.items)))
        (λ merge_at. IfSome result.segments (IsMerged (H.spec host.old)
        (disks_of H.Disk.bytes H.Disk.faults H.Disk.images H.Disk.moment H.Disk.images_since)
        (directory_of (command_of (map string_bytes words.now.items))) merge_at last))) }

    // Where no session ran, the log is unharmed.
    ensures unharmed { result.last ≡ None → IfSome result.log (IsUnharmed (H.spec host.old)
        (disks_of H.Disk.bytes H.Disk.faults H.Disk.images H.Disk.moment H.Disk.images_since)
        (directory_of (command_of (map string_bytes words.now.items)))) }

    // A backup leaves the target's log a beginning of the history, with all that it had, and where it succeeds the whole of it.
    ensures target { IfSome result.target_log (TargetHolds (H.spec host.old)
        (disks_of H.Disk.bytes H.Disk.faults H.Disk.images H.Disk.moment H.Disk.images_since)
        (directory_of (command_of (map string_bytes words.now.items)))
        (target_of (command_of (map string_bytes words.now.items))) result.status) }

    // Where it succeeds, a new file of segments gets a copy of the trees. A file that has a record is left as it is.
    ensures target_trees { IfSome result.target_segments (TargetHasRoot (H.spec host.old)
        (disks_of H.Disk.bytes H.Disk.faults H.Disk.images H.Disk.moment H.Disk.images_since)
        (directory_of (command_of (map string_bytes words.now.items)))
        (target_of (command_of (map string_bytes words.now.items))) result.status) }
{
    match command_in(alloc, words.as_slice()) {
        Ok(Some(Request::Run(command))) => {
            let chosen = Chosen {
                strict: command.options.strict,
                guard,
            };
            run_command(rt, alloc, &command, host, clock, preds, &chosen, gate)
        }
        Ok(Some(Request::Check(directory))) => check_directory(alloc, host, directory),
        // No guard judges what the generator asks for.
        Ok(Some(Request::Load(count))) => {
            let chosen = Chosen {
                strict: false,
                guard,
            };
            load(rt, alloc, count, host, clock, preds, &chosen, gate)
        }
        Ok(Some(Request::Backup(names))) => back_up(alloc, host, &names),
        Ok(None) => without_session(alloc, 1, usage(alloc)),
        Err(Memory) => without_session(alloc, 9, out_of_memory(alloc)),
    }
}

/// Opens the directory, the scripts' sources and their sinks, and runs the sessions.
fn run_command<
    R: Threads + Wait + Sync,
    H: Host,
    K: Clock + Sync,
    G: Guard<Snapshot> + Sync,
    P: FilterTable + Sync,
    W: Gate + Sync,
>(
    rt: &R,
    alloc: Global,
    command: &Run<'_>,
    host: &mut H,
    clock: &K,
    preds: &P,
    guard: &G,
    gate: &W,
) -> Outcome<H::In, H::Out, H::Disk>
    requires scripts { are_scripts (names_in command.now.scripts.items) ≡ true }
    requires merge_at { 1 ≤ command.now.options.merge_at }
    ensures one_history { IfSome result.last (λ last. OneHistory last.entries result.recovered
        (unwrap_or result.authors []) (map (λ s. s.commits) result.sessions.items)) }
    ensures replies { IfSome result.last (λ last. EachReplies
        (terms_at K.may_answer G.bars P.place_of P.selects_at clock.now guard.now preds.now)
        (H.spec host.old) (streams_of H.In.left H.In.faults H.Out.contents H.Out.faults)
        result.recovered result.torn (unwrap_or result.authors [])
        (names_in command.now.scripts.items) result.sessions.items last.entries) }
    ensures prefixes { IfSome result.last (λ last. AllByRecursion
        (λ s. Prefixes result.recovered (basis last.entries) s.places s.commits)
        result.sessions.items) }
    ensures opening { IfSome result.last (λ last. IfKnown
        ((H.spec host.old).disks command.now.directory.now Part.Log)
        (λ file. IsLogOf file (upto last.entries result.recovered))) }
    ensures log { IfSome result.last (λ last. IfSome result.log (LogHolds (H.spec host.old)
        (disks_of H.Disk.bytes H.Disk.faults H.Disk.images H.Disk.moment H.Disk.images_since)
        command.now.directory.now last.entries result.recovered result.torn)) }
    ensures causes { Causes (H.spec host.old) (H.spec host.new)
        (streams_of H.In.left H.In.faults H.Out.contents H.Out.faults)
        (disks_of H.Disk.bytes H.Disk.faults H.Disk.images H.Disk.moment H.Disk.images_since)
        (Some (run_by command.now)) result }
    ensures others { OpensOnly (ports_of (Some (run_by command.now))) (H.spec host.old)
        (H.spec host.new) }
    ensures stands { IfSome result.last Stands }
    ensures unharmed { result.last ≡ None → IfSome result.log (IsUnharmed (H.spec host.old)
        (disks_of H.Disk.bytes H.Disk.faults H.Disk.images H.Disk.moment H.Disk.images_since)
        command.now.directory.now) }
    ensures covered { IfSome result.last (λ last. result.covered ≡ last.covered) }
    ensures coverage { IfSome result.last (λ last. IfSome result.segments (GoAsFar
        (H.spec host.old)
        (disks_of H.Disk.bytes H.Disk.faults H.Disk.images H.Disk.moment H.Disk.images_since)
        command.now.directory.now (upto last.entries result.recovered) last)) }
    ensures merged { IfSome result.last (λ last. result.status ≡ 0
        → IfSome result.segments (IsMerged (H.spec host.old)
        (disks_of H.Disk.bytes H.Disk.faults H.Disk.images H.Disk.moment H.Disk.images_since)
        command.now.directory.now command.now.options.merge_at last)) }
    ensures no_console { HasNoConsole result }
    ensures no_target { HasNoTarget result }
    ensures no_loads { result.loads.items ≡ [] }
{
    match open_run(alloc, host, command) {
        Ok(ready) => run_opened(rt, alloc, command, ready, clock, preds, guard, gate),
        Err(unready) => not_begun(alloc, unready),
    }
}

/// Runs the sessions over a database that was opened, and the worker beside them.
pub(crate) fn run_opened<
    R: Threads + Wait + Sync,
    I: Source + Send,
    O: Sink + Send,
    D: Disk + Send,
    K: Clock + Sync,
    G: Guard<Snapshot> + Sync,
    P: FilterTable + Sync,
    W: Gate + Sync,
>(
    rt: &R,
    alloc: Global,
    command: &Run<'_>,
    ready: Ready<I, O, D>,
    clock: &K,
    preds: &P,
    guard: &G,
    gate: &W,
) -> Outcome<I, O, D>
    requires few { (0 < length ready.sessions.items) × (length ready.sessions.items ≤ 16) }
    requires merge_at { 1 ≤ command.now.options.merge_at }
    requires reopened { (disk : D) × (segments : D) × IsReopened
        (disks_of D.bytes D.faults D.images D.moment D.images_since) disk segments
        ready.directory }
    ensures one_history { IfSome result.last (λ last. OneHistory last.entries result.recovered
        (unwrap_or result.authors []) (map (λ s. s.commits) result.sessions.items)) }
    ensures replies { IfSome result.last (λ last. RepliesBy
        (terms_at K.may_answer G.bars P.place_of P.selects_at clock.now guard.now preds.now)
        (streams_of I.left I.faults O.contents O.faults) result.recovered result.torn
        (unwrap_or result.authors []) ready.sessions.items result.sessions.items last.entries) }
    ensures prefixes { IfSome result.last (λ last. AllByRecursion
        (λ s. Prefixes result.recovered (basis last.entries) s.places s.commits)
        result.sessions.items) }
    ensures opening { IfSome result.last (λ last. GoesOnFrom ready.directory last.entries result) }
    ensures log { IfSome result.last (λ last. HandsLogBack
        (disks_of D.bytes D.faults D.images D.moment D.images_since) ready.directory.recovered
        (disk_in ready.directory.log) last.entries result) }
    ensures stands { IfSome result.last Stands }
    ensures none { result.last ≡ None → HandsBothBack ready.directory result }
    ensures ended { (NoSession result × IsOutOfMemory result) ⊎ HaveEnded
        (streams_of I.left I.faults O.contents O.faults)
        (disks_of D.bytes D.faults D.images D.moment D.images_since)
        command.now.options.merge_at (names_in command.now.scripts.items) ready.sessions.items
        (trees_in ready.directory) result }
    ensures covered { IfSome result.last (λ last. result.covered ≡ last.covered) }
    ensures no_console { HasNoConsole result }
    ensures no_target { HasNoTarget result }
    ensures no_loads { result.loads.items ≡ [] }
{
    let Ready {
        directory,
        sessions,
        start,
    } = ready;
    let count = sessions.len();
    let recovered = directory.recovered;
    let Ok(room) = room_for(alloc, count) else {
        return cut_short(alloc, directory.into_disks());
    };
    let merge_at = command.options.merge_at;
    let number = count as u32;
    let patience = patience_for(rt, command.directory, number);
    match connected(alloc, directory, number, merge_at, patience) {
        Ok(
            Connection {
                conn,
                seats,
                mut worker,
            },
        ) => {
            let ended = serve_all(
                rt,
                alloc,
                &conn,
                &mut worker,
                seats,
                sessions,
                room,
                clock,
                guard,
                preds,
                gate,
                start,
            );
            closed(rt, alloc, command, conn, worker, ended, recovered)
        }
        Err(disks) => cut_short(alloc, disks),
    }
}
