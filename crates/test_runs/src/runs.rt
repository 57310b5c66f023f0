//! Runs of scripts over hosts in memory, and what they hand back.
use crate::directories::{DIRECTORY, Parts, host_with};
use anyhow::{Result, bail};
use fb_ports::Host;
use fb_preds::shipped;
use fb_run::{Outcome, SessionOut, run};
use fb_text::Text;
use fb_tuple_guard::{Both, Names, UniqueTuples};
use fb_view::Snapshot;
use mem_ports::{FixedClock, MemDisk, MemHost, MemSink, MemSource};
use merge_worker::{Gate, OpenGate};
use std::alloc::Global;
use std::sync::Wait;
use std::thread::Threads;
use test_replay::Served;

/// The first of January 2024, which the clock of a run reads unless its terms say otherwise.
pub(crate) const CLOCK: i64 = 1_704_067_200_000;

/// The attributes whose values together are of one entity in a strict run.
const COMPOSITE: &[&str] = &["n/a", "n/b"];

/// How scripts are run.
#[derive(Clone, Copy)]
pub(crate) struct Terms<'a> {
    pub(crate) directory: &'a str,
    /// How many datoms make a merge due.
    pub(crate) merge_at: &'a str,
    pub(crate) clock: i64,
    /// Whether the program's guard judges what the scripts ask for.
    pub(crate) is_strict: bool,
}

impl<'a> Terms<'a> {
    /// In memory alone.
    pub(crate) fn in_memory(merge_at: &'a str) -> Terms<'a> {
        Terms {
            directory: ":memory:",
            merge_at,
            clock: CLOCK,
            is_strict: false,
        }
    }

    /// Over a directory.
    pub(crate) fn in_directory(merge_at: &'a str) -> Terms<'a> {
        Terms {
            directory: DIRECTORY,
            merge_at,
            clock: CLOCK,
            is_strict: false,
        }
    }

    /// The words of the command, without its scripts.
    pub(crate) fn words(&self, alloc: Global) -> Result<Vec<String>> {
        let mut words = Vec::new(alloc);
        for word in &["run", "--merge-at", self.merge_at, self.directory] {
            words.push(String::from_str(alloc, word)?)?;
        }
        if self.is_strict {
            words.push(String::from_str(alloc, "--strict")?)?;
        }
        Ok(words)
    }
}

/// What a run hands back, without its database.
#[derive(Drop)]
pub(crate) struct EndedRun<O> {
    pub(crate) status: u8,
    pub(crate) line: String,
    pub(crate) sessions: Vec<SessionOut<MemSource, O>>,
    parts: Option<Parts>,
    /// The t up to which the history was there at the opening, that of the last entry where sessions ran, and that of the last one in the
    /// trees.
    pub(crate) recovered: u32,
    pub(crate) last: Option<u32>,
    pub(crate) covered: u32,
}

/// A run whose sinks are in memory too.
pub(crate) type Ended = EndedRun<MemSink>;

impl<O> EndedRun<O> {
    pub(crate) fn succeeds(&self) -> Result<()> {
        if self.status != 0 {
            bail!("a run ended with status {}", self.status);
        }
        Ok(())
    }

    /// The t of the last entry, which is 0 where there is none.
    pub(crate) fn basis(&self) -> u32 {
        self.last.unwrap_or(0)
    }

    /// The disks of the directory. Only a run that opens them hands them back.
    pub(crate) fn parts(&self) -> Result<&Parts> {
        match &self.parts {
            Some(parts) => Ok(parts),
            None => bail!("a run hands back no disks"),
        }
    }
}

impl EndedRun<MemSink> {
    /// The disks, to go on with.
    pub(crate) fn into_parts(self) -> Result<Parts> {
        let EndedRun { parts, .. } = self;
        match parts {
            Some(parts) => Ok(parts),
            None => bail!("a run hands back no disks"),
        }
    }
}

/// Of a run's outcome what is looked at.
pub(crate) fn ended_of<O: Drop>(outcome: Outcome<MemSource, O, MemDisk>) -> EndedRun<O> {
    let Outcome {
        status,
        line,
        sessions,
        log,
        segments,
        last,
        recovered,
        covered,
        ..
    } = outcome;
    EndedRun {
        status,
        line,
        sessions,
        parts: both(log, segments),
        recovered,
        last: basis_of(last),
        covered,
    }
}

/// The disks of a directory, where both were handed back.
pub(crate) fn both(log: Option<MemDisk>, segments: Option<MemDisk>) -> Option<Parts> {
    match (log, segments) {
        (Some(log), Some(segments)) => Some(Parts { log, segments }),
        _ => None,
    }
}

fn basis_of(last: Option<Snapshot>) -> Option<u32> {
    match last {
        Some(last) => Some(last.basis()),
        None => None,
    }
}

/// Runs the scripts in memory, each in a session of its own, which has to succeed.
pub(crate) fn run_in_memory<R: Threads + Wait + Sync>(
    rt: &R,
    alloc: Global,
    merge_at: &str,
    scripts: &[&str],
) -> Result<Ended> {
    run_by(rt, alloc, Terms::in_memory(merge_at), scripts)
}

/// The same on these terms.
pub(crate) fn run_by<R: Threads + Wait + Sync>(
    rt: &R,
    alloc: Global,
    terms: Terms<'_>,
    scripts: &[&str],
) -> Result<Ended> {
    let mut host = MemHost::new(alloc);
    let ended = run_scripts(rt, alloc, terms, scripts, &mut host)?;
    ended.succeeds()?;
    Ok(ended)
}

/// Scripts that were made, as a run takes them.
pub(crate) fn texts_of(alloc: Global, scripts: &[String]) -> Result<Vec<&str>> {
    let mut texts = Vec::new(alloc);
    for script in scripts {
        texts.push(script.as_str())?;
    }
    Ok(texts)
}

/// Runs the scripts over a log alone.
pub(crate) fn run_over<R: Threads + Wait + Sync>(
    rt: &R,
    alloc: Global,
    scripts: &[&str],
    log: MemDisk,
) -> Result<Ended> {
    let parts = Parts::with_log(alloc, log)?;
    run_in(rt, alloc, Terms::in_directory("65536"), scripts, parts)
}

/// Runs the scripts over a directory, whose disks have to be handed back.
pub(crate) fn run_in<R: Threads + Wait + Sync>(
    rt: &R,
    alloc: Global,
    terms: Terms<'_>,
    scripts: &[&str],
    parts: Parts,
) -> Result<Ended> {
    let mut host = host_with(alloc, parts)?;
    let ended = run_scripts(rt, alloc, terms, scripts, &mut host)?;
    ended.parts()?;
    Ok(ended)
}

/// Runs the scripts over a host, which is given them under their numbers.
fn run_scripts<R: Threads + Wait + Sync>(
    rt: &R,
    alloc: Global,
    terms: Terms<'_>,
    scripts: &[&str],
    host: &mut MemHost,
) -> Result<Ended> {
    let mut words = terms.words(alloc)?;
    add_scripts(alloc, scripts, &mut words, host)?;
    let outcome = run_words(rt, alloc, &words, terms.clock, host, &OpenGate)?;
    Ok(ended_of(outcome))
}

fn add_scripts(
    alloc: Global,
    scripts: &[&str],
    words: &mut Vec<String>,
    host: &mut MemHost,
) -> Result<()> {
    for (number, script) in scripts.iter().enumerate() {
        let name = format!(in alloc; "{number}")?;
        host.add_source(name.as_str(), source_of(alloc, script)?)?;
        words.push(name)?;
    }
    Ok(())
}

/// A source of the script's bytes.
pub(crate) fn source_of(alloc: Global, script: &str) -> Result<MemSource> {
    let bytes = script.as_bytes().to_vec(alloc)?;
    Ok(MemSource::new(bytes, Vec::new(alloc)))
}

/// Runs a command by a clock that stands. It has the program's guard and one on a composite, which count in a strict run alone.
pub(crate) fn run_words<R: Threads + Wait + Sync, H: Host, W: Gate + Sync>(
    rt: &R,
    alloc: Global,
    words: &Vec<String>,
    clock: i64,
    host: &mut H,
    gate: &W,
) -> Result<Outcome<H::In, H::Out, H::Disk>> {
    let clock = FixedClock::new(clock);
    let filters = shipped(alloc)?;
    let guard = Both::new(fb_checks::shipped(alloc)?, unique_tuples(alloc)?);
    Ok(run(rt, alloc, words, host, &clock, &filters, &guard, gate))
}

/// Bars each second entity with the values of another.
fn unique_tuples(alloc: Global) -> Result<UniqueTuples> {
    let mut tuples = UniqueTuples::new(alloc);
    tuples.add(composite(alloc)?)?;
    Ok(tuples)
}

fn composite(alloc: Global) -> Result<Names> {
    let mut items = Vec::new(alloc);
    for name in COMPOSITE {
        items.push(Text::of(alloc, name)?)?;
    }
    Ok(Names { items })
}

/// What each session asked and was answered.
pub(crate) fn served_by<'a>(
    alloc: Global,
    scripts: &[&'a str],
    ended: &'a Ended,
) -> Result<Vec<Served<'a>>> {
    let mut served = Vec::new(alloc);
    for (script, session) in scripts.iter().zip(ended.sessions.iter()) {
        served.push(Served {
            script,
            lines: session.sink.bytes(),
            places: session.places.as_slice(),
            commits: session.commits.as_slice(),
        })?;
    }
    Ok(served)
}

/// Whether the run ended with this status and line, and its first session with these lines.
pub(crate) fn ends_so(ended: &Ended, status: u8, line: &str, lines: &[u8]) -> bool {
    let replies = match ended.sessions.first() {
        Some(session) => session.sink.bytes(),
        None => &[],
    };
    ended.status == status && ended.line.as_str() == line && replies == lines
}

/// Whether a script over the log is answered so.
pub(crate) fn is_answered<R: Threads + Wait + Sync>(
    rt: &R,
    alloc: Global,
    log: MemDisk,
    script: &str,
    lines: &[u8],
) -> Result<bool> {
    let ended = run_over(rt, alloc, &[script], log)?;
    Ok(ends_so(&ended, 0, "", lines))
}
