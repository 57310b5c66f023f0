//! A look at a directory: its history is summed up on the console, and nothing is changed.
ghost use Rattle.std.specs.Prelude.{◌≡◌, ◌∷◌, [], Some, string_bytes, IfOk, IfErr, IfSome, OnOk, OnErr, MatchResult};
ghost use Rattle.std.specs.Io.KnownBytes.{append_known};
ghost use Rattle.command_line.specs.Words.{check, standard};
ghost use Rattle.disk_log.specs.Logs.{disk_in};
ghost use Rattle.seg_store.specs.Stores.{disk_in as segments_in};
ghost use Rattle.fb_ports.specs.Faults.{Counts};
ghost use Rattle.fb_session.specs.Written.{TakesPart};
ghost use Rattle.fb_run.specs.Outside.{streams_of, disks_of, of_sinks, ports_of, OpensOnly};
ghost use Rattle.fb_run.specs.Logs.{IsUnharmed};
ghost use Rattle.fb_run.specs.Opening.{OpensSink, HostRefuses};
ghost use Rattle.fb_run.specs.Database.{IsUnready};
ghost use Rattle.fb_run.specs.StatusLines.{history_line, reported, console_failed};
ghost use Rattle.fb_run.specs.Causes.{HasNoConsole, HasNoTarget, NoSession, SaysWhy, Causes};
ghost use Rattle.fb_run.specs.Looking.{IsLook, IsUnanswered, HasPrinted};

use crate::database::{Directory, Obstacle, Unready, open_directory};
use crate::ending::{not_begun, without_session};
use crate::lines::{Reach, console_fault, history_line};
use crate::opening::{Unopened, open_sink};
use crate::outcome::Outcome;
use fb_disk::Disk;
use fb_ports::{Failed, Host, Sink};
use std::alloc::Global;

/// The name of standard output.
pub(crate) const CONSOLE: &str = "-";

/// Opens the directory, and prints a line about its history on the console.
pub(crate) fn check_directory<H: Host>(
    alloc: Global,
    host: &mut H,
    directory: &str,
) -> Outcome<H::In, H::Out, H::Disk>
    ensures none { NoSession result }
    ensures no_target { HasNoTarget result }
    ensures unharmed { IfSome result.log (IsUnharmed (H.spec host.old)
        (disks_of H.Disk.bytes H.Disk.faults H.Disk.images H.Disk.moment H.Disk.images_since)
        directory.now) }
    ensures causes { Causes (H.spec host.old) (H.spec host.new)
        (streams_of H.In.left H.In.faults H.Out.contents H.Out.faults)
        (disks_of H.Disk.bytes H.Disk.faults H.Disk.images H.Disk.moment H.Disk.images_since)
        (Some (check directory.now)) result }
    ensures others { OpensOnly (ports_of (Some (check directory.now))) (H.spec host.old)
        (H.spec host.new) }
{
    let names = Names {
        directory,
        console: CONSOLE,
    };
    match open_look(alloc, host, &names) {
        Ok(look) => looked(alloc, look),
        Err(unready) => not_begun(alloc, unready),
    }
}

/// What a look opens.
#[derive(Drop)]
struct Names<'a> {
    directory: &'a str,
    console: &'a str,
}

/// A directory that was opened, and the answer about its history.
#[derive(Drop)]
struct Look<O, D: Disk> {
    directory: Directory<D>,
    answer: Answer<O>,
}

/// A line, and the console for it.
#[derive(Drop)]
struct Answer<O> {
    line: String,
    console: O,
}

/// Opens the directory, and then the console.
fn open_look<'a, H: Host>(
    alloc: Global,
    host: &mut H,
    names: &Names<'a>,
) -> Result<Look<H::Out, H::Disk>, Unready<'a, H::Disk>>
    requires console { names.now.console.now ≡ standard }
    ensures look { IfOk result (IsLook (H.spec host.old) (H.spec host.new)
        (streams_of H.In.left H.In.faults H.Out.contents H.Out.faults)
        (disks_of H.Disk.bytes H.Disk.faults H.Disk.images H.Disk.moment H.Disk.images_since)
        names.now.directory.now) }
    ensures stop { IfErr result (IsUnready (H.spec host.old) (H.spec host.new)
        (disks_of H.Disk.bytes H.Disk.faults H.Disk.images H.Disk.moment H.Disk.images_since)
        (ports_of (Some (check names.now.directory.now))) names.now.directory.now
        (names.now.directory.now ∷ standard ∷ [])) }
    ensures others { OpensOnly (ports_of (Some (check names.now.directory.now)))
        (H.spec host.old) (H.spec host.new) }
{
    match open_directory(alloc, host, names.directory) {
        Ok(directory) => look_into(alloc, host, names, directory),
        Err(unready) => Err(unready),
    }
}

/// Opens the console for the line about a directory.
fn look_into<'a, H: Host>(
    alloc: Global,
    host: &mut H,
    names: &Names<'a>,
    directory: Directory<H::Disk>,
) -> Result<Look<H::Out, H::Disk>, Unready<'a, H::Disk>>
    ensures directory { IfOk result (λ look. look.directory ≡ directory) }
    ensures line { IfOk result (λ look. string_bytes look.answer.line
        ≡ history_line directory.recovered directory.core.snapshot.covered) }
    ensures console { IfOk result (λ look. OpensSink
        (streams_of H.In.left H.In.faults H.Out.contents H.Out.faults) names.now.console.now
        (H.spec host.old) (H.spec host.new) look.answer.console) }
    ensures stop { IfErr result
        (IsUnanswered (H.spec host.old) (H.spec host.new) names.now.console.now directory) }
    ensures others { OpensOnly (of_sinks (names.now.console.now ∷ [])) (H.spec host.old)
        (H.spec host.new) }
{
    let reach = directory.reach();
    match open_answer(alloc, host, names, reach) {
        Ok(answer) => Ok(Look { directory, answer }),
        Err(why) => Err(Unready {
            why: Obstacle::Unopened(why),
            disks: Some(directory.into_disks()),
        }),
    }
}

/// Opens the console for the line about a history.
fn open_answer<'a, H: Host>(
    alloc: Global,
    host: &mut H,
    names: &Names<'a>,
    reach: Reach,
) -> Result<Answer<H::Out>, Unopened<'a>>
    ensures line { IfOk result
        (λ answer. string_bytes answer.line ≡ history_line reach.basis reach.covered) }
    ensures console { IfOk result (λ answer. OpensSink
        (streams_of H.In.left H.In.faults H.Out.contents H.Out.faults) names.now.console.now (H.spec host.old)
        (H.spec host.new) answer.console) }
    ensures stop { IfErr result
        (HostRefuses names.now.console.now (H.spec host.old) (H.spec host.new)) }
    ensures others { OpensOnly (of_sinks (names.now.console.now ∷ [])) (H.spec host.old)
        (H.spec host.new) }
{
    let Ok(line) = history_line(alloc, reach) else {
        return Err(Unopened::Memory);
    };
    let console = open_sink(alloc, host, names.console)?;
    Ok(Answer { line, console })
}

/// The outcome of a look: its line goes out to the console.
fn looked<I: Drop, O: Sink, D: Disk>(alloc: Global, look: Look<O, D>) -> Outcome<I, O, D>
    ensures none { NoSession result }
    ensures no_target { HasNoTarget result }
    ensures log { result.log ≡ Some (disk_in look.directory.log) }
    ensures segments { result.segments ≡ Some (segments_in look.directory.store) }
    ensures printed { HasPrinted O.contents O.faults (string_bytes look.answer.line)
        look.answer.console result }
{
    let Look { directory, answer } = look;
    let Answer { line, mut console } = answer;
    let written = write_line(&mut console, line.as_bytes());
    let disks = directory.into_disks();
    Outcome {
        console: Some(console),
        log: Some(disks.log),
        segments: Some(disks.segments),
        ..answered(alloc, written)
    }
}

/// The outcome where this became of the line.
pub(crate) fn answered<I: Drop, O: Drop, D: Drop>(
    alloc: Global,
    written: Result<(), Failed>,
) -> Outcome<I, O, D>
    ensures none { NoSession result }
    ensures no_console { HasNoConsole result }
    ensures no_target { HasNoTarget result }
    ensures said { MatchResult written
        (λ _. SaysWhy reported result.status (string_bytes result.line))
        (λ _. SaysWhy console_failed result.status (string_bytes result.line)) }
{
    match written {
        Ok(()) => without_session(alloc, 0, Ok(String::new(alloc))),
        Err(Failed) => without_session(alloc, 6, console_fault(alloc)),
    }
}

/// Writes the line in as few pieces as the sink takes. A sink that fails has taken less than the whole.
pub(crate) fn write_line<O: Sink>(sink: &mut O, line: &[u8]) -> Result<(), Failed>
    ensures whole { OnOk result
        (O.contents sink.new ≡ append_known (O.contents sink.old) line.now) }
    ensures part { OnErr result (TakesPart line.now (O.contents sink.old) (O.contents sink.new)) }
    ensures counted { Counts result (O.faults sink.old) (O.faults sink.new) }
{
    let mut out = 0;
    while out < line.len() {
        out += sink.write(&line[out..])?;
    }
    Ok(())
}
