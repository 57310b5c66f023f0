//! Drawn scripts run in as many threads. A plain session replays what they were answered, and merges change no byte of it.
use crate::drawn::{barred_scripts, long_script, scripts};
use crate::plain::plain_session;
use crate::runs::{Ended, Terms, run_by, run_in_memory, served_by, texts_of};
use anyhow::{Result, bail};
use plain_session::PlainSession;
use std::alloc::Global;
use std::sync::Wait;
use std::thread::Threads;
use test_replay::{Replay, Served};

/// So many datoms make a merge due.
const MERGES: &[&str] = &["1", "65536"];

const LATER_MERGES: &[&str] = &["1000", "1000000"];

pub(crate) fn replay_drawn<R: Print + Threads + Wait + Sync>(rt: &R, alloc: Global) -> Result<()> {
    for merge_at in MERGES {
        let of_two = replayed(rt, alloc, 2, 200, merge_at)?;
        let of_many = replayed(rt, alloc, 16, 60, merge_at)?;
        println!(rt; "2 sessions: {of_two} lines as the plain session's, 16 sessions: {of_many}")?;
    }
    Ok(())
}

/// Runs so many scripts, for each of which so many commands are drawn, and replays them. It says how many lines there were.
fn replayed<R: Threads + Wait + Sync>(
    rt: &R,
    alloc: Global,
    sessions: usize,
    commands: u32,
    merge_at: &str,
) -> Result<usize> {
    let scripts = scripts(alloc, sessions, commands)?;
    let texts = texts_of(alloc, scripts.as_slice())?;
    replay_run(rt, alloc, merge_at, texts.as_slice())
}

fn replay_run<R: Threads + Wait + Sync>(
    rt: &R,
    alloc: Global,
    merge_at: &str,
    scripts: &[&str],
) -> Result<usize> {
    let ended = run_in_memory(rt, alloc, merge_at, scripts)?;
    replay(alloc, scripts, &ended, plain_session(alloc)?)
}

/// Replays the whole history, up to its last t, by a plain session that is still to be asked. It says how many lines there were.
fn replay(alloc: Global, scripts: &[&str], ended: &Ended, plain: PlainSession) -> Result<usize> {
    let Some(last) = ended.last else {
        bail!("a run hands back no history");
    };
    let served = served_by(alloc, scripts, ended)?;
    let mut replay = Replay::new(alloc, plain, None)?;
    replay.replay(served.as_slice(), 0..last)?;
    Ok(lines_in(served.as_slice()))
}

fn lines_in(served: &[Served<'_>]) -> usize {
    let mut lines: usize = 0;
    for session in served {
        lines = lines.saturating_add(session.places.len());
    }
    lines
}

/// Two sessions run at once under the program's guard, which bars each empty text and more, and then without it.
pub(crate) fn replay_barred<R: Print + Threads + Wait + Sync>(rt: &R, alloc: Global) -> Result<()> {
    let scripts = barred_scripts(alloc, 150)?;
    let texts = texts_of(alloc, scripts.as_slice())?;
    let loose = Terms::in_memory("1");
    let strict = Terms {
        is_strict: true,
        ..loose
    };
    let lines = replay_on(rt, alloc, strict, texts.as_slice(), empty_texts(&texts))?;
    replay_on(rt, alloc, loose, texts.as_slice(), 0)?;
    println!(rt; "under a guard: {lines} lines as the plain session's")?;
    Ok(())
}

/// Runs the scripts on these terms, by which so many texts have to be barred, and replays them.
fn replay_on<R: Threads + Wait + Sync>(
    rt: &R,
    alloc: Global,
    terms: Terms<'_>,
    scripts: &[&str],
    barred: usize,
) -> Result<usize> {
    let ended = run_by(rt, alloc, terms, scripts)?;
    if barred_texts(&ended) != barred {
        bail!("a guard bars other texts than the empty ones");
    }
    let plain = plain_session(alloc)?;
    let plain = if terms.is_strict {
        plain.strict()
    } else {
        plain
    };
    replay(alloc, scripts, &ended, plain)
}

/// How many commands record an empty text.
fn empty_texts(scripts: &[&str]) -> usize {
    let mut count: usize = 0;
    for script in scripts {
        let lines = script.lines().filter(|line| line.contains(":db/doc \"\""));
        count = count.saturating_add(lines.count());
    }
    count
}

/// How many lines say that a guard barred a value.
fn barred_texts(ended: &Ended) -> usize {
    let mut count: usize = 0;
    for session in &ended.sessions {
        let lines = session.sink.bytes().split(|byte| *byte == b'\n');
        let barred = lines.filter(|line| line.starts_with(b"{:refused :db.error/attr-pred "));
        count = count.saturating_add(barred.count());
    }
    count
}

/// One script has to be answered by the same bytes, whenever merges are due.
pub(crate) fn compare_bytes<R: Print + Threads + Wait + Sync>(rt: &R, alloc: Global) -> Result<()> {
    let script = long_script(alloc)?;
    let lines = lines_of(rt, alloc, "1", script.as_str())?;
    for merge_at in LATER_MERGES {
        if lines_of(rt, alloc, merge_at, script.as_str())? != lines {
            bail!("a merge changes a line");
        }
    }
    println!(rt; "the same bytes, whenever merges are due")?;
    Ok(())
}

/// What a script is answered.
fn lines_of<R: Threads + Wait + Sync>(
    rt: &R,
    alloc: Global,
    merge_at: &str,
    script: &str,
) -> Result<Vec<u8>> {
    let ended = run_in_memory(rt, alloc, merge_at, &[script])?;
    first_lines(alloc, &ended)
}

/// The lines of the first session.
fn first_lines(alloc: Global, ended: &Ended) -> Result<Vec<u8>> {
    match ended.sessions.first() {
        Some(session) => Ok(session.sink.bytes().to_vec(alloc)?),
        None => bail!("no session has run"),
    }
}
