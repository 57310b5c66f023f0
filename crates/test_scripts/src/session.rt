//! A script by the session, over a core in memory.
ghost use Rattle.std.specs.Prelude.{◌≡◌, [], IfOk};

use crate::rows::Terms;
use anyhow::{Result, bail};
use core_desk::CoreDesk;
use fb_checks::Checks;
use fb_core::Core;
use fb_preds::shipped;
use fb_session::{SessionEnd, serve_desk};
use fb_view::Snapshot;
use mem_ports::{MemSink, MemSource, StepClock};
use std::alloc::Global;
use std::sync::Wait;
use std::thread::Threads;

/// The room of a sink: 16 MiB.
const ROOM: usize = 16_777_216;

/// The lines that answer the script.
pub(crate) fn lines<R: Threads + Wait + Sync>(
    rt: &R,
    alloc: Global,
    script: &[u8],
    terms: Terms,
) -> Result<Vec<u8>> {
    let mut sink = MemSink::new(alloc, ROOM, Vec::new(alloc))?;
    serve(rt, alloc, script, &mut sink, terms)?;
    copied(alloc, sink.bytes())
}

fn serve<R: Threads + Wait + Sync>(
    rt: &R,
    alloc: Global,
    script: &[u8],
    sink: &mut MemSink,
    terms: Terms,
) -> Result<()> {
    let mut source = source_of(alloc, script)?;
    serve_source(rt, alloc, &mut source, sink, terms)
}

fn source_of(alloc: Global, script: &[u8]) -> Result<MemSource> {
    let bytes = copied(alloc, script)?;
    Ok(MemSource::new(bytes, Vec::new(alloc)))
}

fn copied(alloc: Global, bytes: &[u8]) -> Result<Vec<u8>> {
    let mut copy = Vec::new(alloc);
    copy.extend_from_slice(bytes)?;
    Ok(copy)
}

/// A session on a new database.
fn serve_source<R: Threads + Wait + Sync>(
    rt: &R,
    alloc: Global,
    source: &mut MemSource,
    sink: &mut MemSink,
    terms: Terms,
) -> Result<()> {
    if terms.is_strict {
        return serve_under(rt, alloc, source, sink, terms, &fb_checks::shipped(alloc)?);
    }
    serve_under(rt, alloc, source, sink, terms, &Checks::new(alloc))
}

/// Serves the session with these checks as its guard.
fn serve_under<R: Threads + Wait + Sync>(
    rt: &R,
    alloc: Global,
    source: &mut MemSource,
    sink: &mut MemSink,
    terms: Terms,
    checks: &Checks,
) -> Result<()> {
    let clock = StepClock::new(terms.clock.first, terms.clock.step);
    let filters = shipped(alloc)?;
    let mut desk = CoreDesk::new(alloc, new_core(alloc)?);
    let served = serve_desk(rt, alloc, source, sink, &mut desk, &clock, checks, &filters);
    check_end(&served.end)
}

/// The core of a new database, to which nobody has written.
fn new_core(alloc: Global) -> Result<Core>
    ensures { IfOk result (λ core. core.authors ≡ []) }
{
    let snapshot = Snapshot::first(alloc)?;
    Ok(Core::of(alloc, snapshot))
}

fn check_end(end: &SessionEnd) -> Result<()> {
    if !matches!(end, SessionEnd::Done) {
        bail!("a session ended early");
    }
    Ok(())
}
