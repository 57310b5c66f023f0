//! The play, with the worker held at one of its points.
use crate::play::{Play, SPEAKERS, play_in};
use crate::runs::{CLOCK, EndedRun, Terms, ended_of, run_words, source_of};
use crate::stage::{Stage, StageHost, TurnSink};
use anyhow::{Result, bail};
use mem_ports::MemHost;
use merge_worker::Point;
use std::alloc::Global;
use std::collections::BTreeMap;
use std::fs;
use std::rt::Files;
use std::sync::Wait;
use std::thread::Threads;

const POINTS: &[Point] = &[Point::BeforeMerge, Point::AfterMerge, Point::BeforeAdopt];

/// The t of the last entry.
const LAST_T: u32 = 8;

pub(crate) fn perform_at_each_point<R: Files + Alloc + Print + Threads + Wait + Sync>(
    rt: &R,
    alloc: Global,
) -> Result<()> {
    let text = fs::read_to_string(rt, "play.txt")?;
    let play = play_in(alloc, text.as_str())?;
    for point in POINTS {
        perform(rt, alloc, &play, *point)?;
        println!(rt; "held at {point:?}: two sessions go on, and all is merged at the end")?;
    }
    Ok(())
}

/// The sessions and the worker have to go on beside each other, the lines have to be the play's, and all has to be merged at the end.
fn perform<R: Threads + Wait + Sync>(
    rt: &R,
    alloc: Global,
    play: &Play<'_>,
    point: Point,
) -> Result<()> {
    let stage = Stage::new(point, play);
    let mut host = host_of(alloc, play, &stage)?;
    perform_on(rt, alloc, play, &mut host)
}

fn perform_on<R: Threads + Wait + Sync>(
    rt: &R,
    alloc: Global,
    play: &Play<'_>,
    host: &mut StageHost<'_>,
) -> Result<()> {
    let words = words_of_play(alloc)?;
    let stage = host.stage;
    let ended = ended_of(run_words(rt, alloc, &words, CLOCK, host, stage)?);
    judge(alloc, play, host, &ended)
}

fn words_of_play(alloc: Global) -> Result<Vec<String>> {
    let mut words = Terms::in_memory("1").words(alloc)?;
    for speaker in SPEAKERS {
        words.push(String::from_str(alloc, speaker)?)?;
    }
    Ok(words)
}

/// A host with the speakers' scripts and turns.
fn host_of<'a>(alloc: Global, play: &Play<'_>, stage: &'a Stage) -> Result<StageHost<'a>> {
    let turns = turns_of(alloc, play)?;
    let host = host_with_scripts(alloc, play)?;
    Ok(StageHost { host, turns, stage })
}

fn host_with_scripts(alloc: Global, play: &Play<'_>) -> Result<MemHost> {
    let mut host = MemHost::new(alloc);
    for speaker in SPEAKERS {
        add_script(alloc, play, speaker, &mut host)?;
    }
    Ok(host)
}

fn add_script(alloc: Global, play: &Play<'_>, speaker: &str, host: &mut MemHost) -> Result<()> {
    let script = play.script(alloc, speaker)?;
    host.add_source(speaker, source_of(alloc, script.as_str())?)?;
    Ok(())
}

fn turns_of(alloc: Global, play: &Play<'_>) -> Result<BTreeMap<String, Vec<u64>>> {
    let mut turns = BTreeMap::new(alloc);
    for speaker in SPEAKERS {
        let sink = format!(in alloc; "{speaker}.out")?;
        turns.insert(sink, play.turns(alloc, speaker)?)?;
    }
    Ok(turns)
}

fn judge(
    alloc: Global,
    play: &Play<'_>,
    host: &StageHost<'_>,
    ended: &EndedRun<TurnSink<'_>>,
) -> Result<()> {
    ended.succeeds()?;
    if !host.stage.went_well() || !host.turns.is_empty() {
        bail!("the sessions and the worker do not go on beside each other");
    }
    if ended.covered != LAST_T {
        bail!("something is left that was not merged");
    }
    compare(alloc, play, ended)
}

fn compare(alloc: Global, play: &Play<'_>, ended: &EndedRun<TurnSink<'_>>) -> Result<()> {
    for (speaker, session) in SPEAKERS.iter().zip(ended.sessions.iter()) {
        let answers = play.answers(alloc, speaker)?;
        if session.sink.sink.bytes() != answers.as_str().as_bytes() {
            bail!("a session is answered otherwise than the play says");
        }
    }
    Ok(())
}
