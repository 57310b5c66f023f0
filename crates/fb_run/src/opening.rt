//! Opening what a run needs of the outside: the directory, and then what its scripts need, all sources and then all sinks.
ghost use Rattle.std.specs.Prelude.{◌≡◌, ◌+◌, ◌<◌, [], ◌∷◌, true, length, Some, IfOk, IfErr, OnOk};
ghost use Rattle.std.specs.Vec.Iter.{into_iter_items, into_iter_len};
ghost use Rattle.command_line.specs.Words.{are_apart};
ghost use Rattle.command_line.specs.Views.{names_in, run_by};
ghost use Rattle.fb_run.specs.Outside.{streams_of, disks_of, of_sources, of_sinks, of_scripts, ports_of, OpensOnly};
ghost use Rattle.fb_run.specs.Database.{IsOpened, IsUnready};
ghost use Rattle.fb_run.specs.Opening.{AddsSource, OpensSources, OpensSink, AddsSession, AddsSessions, HasOpened, HostRefuses, HostRefusesOne, IsUnopened};

use crate::database::{Directory, Obstacle, Unready, open_directory};
use crate::outcome::SessionOut;
use command_line::{Run, sink_name};
use fb_disk::Disk;
use fb_ports::{Host, OpenFail};
use fb_session::{Places, SessionEnd};
use std::alloc::Global;
use std::vec::IntoIter;

/// What a run begins with: the database, and the sessions of its scripts.
#[derive(Drop)]
pub(crate) struct Ready<I, O, D: Disk> {
    pub(crate) directory: Directory<D>,
    pub(crate) sessions: Vec<SessionOut<I, O>>,
    pub(crate) start: Start,
}

/// When the sessions begin.
#[derive(Clone, Copy)]
pub(crate) enum Start {
    Together,
    /// The last one runs before the others begin.
    LastAhead,
}

/// Opens the directory of a run, and then what its scripts need.
pub(crate) fn open_run<'a, H: Host>(
    alloc: Global,
    host: &mut H,
    command: &Run<'a>,
) -> Result<Ready<H::In, H::Out, H::Disk>, Unready<'a, H::Disk>>
    requires apart { are_apart (names_in command.now.scripts.items) ≡ true }
    ensures directory { IfOk result (λ ready. IsOpened (H.spec host.old)
        (disks_of H.Disk.bytes H.Disk.faults H.Disk.images H.Disk.moment H.Disk.images_since)
        command.now.directory.now ready.directory) }
    ensures sessions { IfOk result (λ ready. HasOpened
        (streams_of H.In.left H.In.faults H.Out.contents H.Out.faults)
        (names_in command.now.scripts.items) (H.spec host.old) (H.spec host.new)
        ready.sessions.items) }
    ensures stop { IfErr result (IsUnready (H.spec host.old) (H.spec host.new)
        (disks_of H.Disk.bytes H.Disk.faults H.Disk.images H.Disk.moment H.Disk.images_since)
        (ports_of (Some (run_by command.now))) command.now.directory.now
        (command.now.directory.now ∷ names_in command.now.scripts.items)) }
    ensures others { OpensOnly (ports_of (Some (run_by command.now))) (H.spec host.old)
        (H.spec host.new) }
{
    let directory = open_directory(alloc, host, command.directory)?;
    match open_all(alloc, host, command.scripts.as_slice()) {
        Ok(sessions) => Ok(Ready {
            directory,
            sessions,
            start: Start::Together,
        }),
        Err(why) => Err(Unready {
            why: Obstacle::Unopened(why),
            disks: Some(directory.into_disks()),
        }),
    }
}

/// Why not all was opened that a command needs.
#[derive(Drop)]
pub(crate) enum Unopened<'a> {
    /// The host could not open the directory of this name, the console, or the source or the sink of a script.
    CannotOpen(&'a str),
    Memory,
}

/// Opens the sources of all scripts, and then their sinks. The sessions of these are still to be run.
pub(crate) fn open_all<'a, H: Host>(
    alloc: Global,
    host: &mut H,
    scripts: &[&'a str],
) -> Result<Vec<SessionOut<H::In, H::Out>>, Unopened<'a>>
    requires apart { are_apart (names_in scripts.now) ≡ true }
    ensures opened { IfOk result (λ opened. HasOpened
        (streams_of H.In.left H.In.faults H.Out.contents H.Out.faults) (names_in scripts.now)
        (H.spec host.old) (H.spec host.new) opened.items) }
    ensures stop { IfErr result
        (IsUnopened (names_in scripts.now) (H.spec host.old) (H.spec host.new)) }
    ensures others { OpensOnly (of_scripts (names_in scripts.now)) (H.spec host.old)
        (H.spec host.new) }
{
    let mut sources = Vec::new(alloc);
    open_sources(alloc, host, scripts, &mut sources)?;
    let mut sources = sources.into_iter();
    let mut sessions = Vec::new(alloc);
    open_sinks(alloc, host, scripts, &mut sources, &mut sessions)?;
    Ok(sessions)
}

/// Opens the source of each script, in order. There are few.
fn open_sources<'a, H: Host>(
    alloc: Global,
    host: &mut H,
    scripts: &[&'a str],
    sources: &mut Vec<H::In>,
) -> Result<(), Unopened<'a>>
    requires apart { are_apart (names_in scripts.now) ≡ true }
    ensures opened { OnOk result (OpensSources
        (streams_of H.In.left H.In.faults H.Out.contents H.Out.faults) (names_in scripts.now)
        sources.old.items sources.new.items (H.spec host.old) (H.spec host.new)) }
    ensures stop { IfErr result (HostRefusesOne of_sources (names_in scripts.now)
        (H.spec host.old) (H.spec host.new)) }
    ensures others { OpensOnly (of_sources (names_in scripts.now)) (H.spec host.old)
        (H.spec host.new) }
{
    match scripts {
        [] => Ok(()),
        [name, rest @ ..] => {
            add_source(alloc, host, *name, sources)?;
            open_sources(alloc, host, rest, sources)
        }
    }
}

/// Opens the source of a script.
fn add_source<'a, H: Host>(
    alloc: Global,
    host: &mut H,
    name: &'a str,
    sources: &mut Vec<H::In>,
) -> Result<(), Unopened<'a>>
    ensures opened { OnOk result (AddsSource
        (streams_of H.In.left H.In.faults H.Out.contents H.Out.faults) name.now
        sources.old.items sources.new.items (H.spec host.old) (H.spec host.new)) }
    ensures stop { IfErr result (HostRefuses name.now (H.spec host.old) (H.spec host.new)) }
    ensures others { OpensOnly (of_sources (name.now ∷ [])) (H.spec host.old) (H.spec host.new) }
{
    match host.source(alloc, name) {
        Ok(source) => match sources.push(source) {
            Ok(()) => Ok(()),
            Err(_) => Err(Unopened::Memory),
        },
        Err(OpenFail::Failed) => Err(Unopened::CannotOpen(name)),
        Err(OpenFail::Memory) => Err(Unopened::Memory),
    }
}

/// Opens the sink of each script, in order, beside the next of the sources. There are few.
fn open_sinks<'a, H: Host>(
    alloc: Global,
    host: &mut H,
    scripts: &[&'a str],
    sources: &mut IntoIter<H::In>,
    sessions: &mut Vec<SessionOut<H::In, H::Out>>,
) -> Result<(), Unopened<'a>>
    requires apart { are_apart (names_in scripts.now) ≡ true }
    requires sources { into_iter_len sources.old ≡ length scripts.now }
    ensures opened { OnOk result (AddsSessions
        (streams_of H.In.left H.In.faults H.Out.contents H.Out.faults) (names_in scripts.now)
        (into_iter_items sources.old) sessions.old.items sessions.new.items (H.spec host.old)
        (H.spec host.new)) }
    ensures stop { IfErr result (HostRefusesOne of_sinks (names_in scripts.now)
        (H.spec host.old) (H.spec host.new)) }
    ensures others { OpensOnly (of_sinks (names_in scripts.now)) (H.spec host.old)
        (H.spec host.new) }
{
    match scripts {
        [] => Ok(()),
        [name, rest @ ..] => {
            add_session(alloc, host, *name, sources, sessions)?;
            open_sinks(alloc, host, rest, sources, sessions)
        }
    }
}

/// Adds the session of a script, with the next of the sources.
fn add_session<'a, H: Host>(
    alloc: Global,
    host: &mut H,
    name: &'a str,
    sources: &mut IntoIter<H::In>,
    sessions: &mut Vec<SessionOut<H::In, H::Out>>,
) -> Result<(), Unopened<'a>>
    requires some { 0 < into_iter_len sources.old }
    ensures opened { OnOk result (AddsSession
        (streams_of H.In.left H.In.faults H.Out.contents H.Out.faults) name.now
        (into_iter_items sources.old) (into_iter_items sources.new) sessions.old.items
        sessions.new.items (H.spec host.old) (H.spec host.new)) }
    ensures stop { IfErr result (HostRefuses name.now (H.spec host.old) (H.spec host.new)) }
    ensures others { OpensOnly (of_sinks (name.now ∷ [])) (H.spec host.old) (H.spec host.new) }
    ensures len { into_iter_len sources.new + 1 ≡ into_iter_len sources.old }
{
    let source = match sources.next() {
        Some(source) => source,
        None => unreachable!(),
    };
    let sink = open_sink(alloc, host, name)?;
    let Ok(()) = sessions.push(session_of(alloc, source, sink)) else {
        return Err(Unopened::Memory);
    };
    Ok(())
}

/// A session that is still to be run.
pub(crate) fn session_of<I: Drop, O: Drop>(alloc: Global, source: I, sink: O) -> SessionOut<I, O>
    ensures source { result.source ≡ source }
    ensures sink { result.sink ≡ sink }
{
    SessionOut {
        source,
        sink,
        // It stays so until the session has run.
        end: SessionEnd::Memory,
        places: Places::of(Vec::new(alloc)),
        commits: Places::of(Vec::new(alloc)),
    }
}

/// Opens the sink for the lines of a script.
pub(crate) fn open_sink<'a, H: Host>(
    alloc: Global,
    host: &mut H,
    name: &'a str,
) -> Result<H::Out, Unopened<'a>>
    ensures opened { IfOk result (OpensSink
        (streams_of H.In.left H.In.faults H.Out.contents H.Out.faults) name.now (H.spec host.old)
        (H.spec host.new)) }
    ensures stop { IfErr result (HostRefuses name.now (H.spec host.old) (H.spec host.new)) }
    ensures others { OpensOnly (of_sinks (name.now ∷ [])) (H.spec host.old) (H.spec host.new) }
{
    let Ok(lines) = sink_name(alloc, name) else {
        return Err(Unopened::Memory);
    };
    match host.sink(alloc, lines.as_str()) {
        Ok(sink) => Ok(sink),
        Err(OpenFail::Failed) => Err(Unopened::CannotOpen(name)),
        Err(OpenFail::Memory) => Err(Unopened::Memory),
    }
}
