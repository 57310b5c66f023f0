//! Each call of the log's disk fails in turn. The run has to say so. A crash then has to leave what the sessions were answered, at most
//! with the transaction that met the fault, and the script goes on from there.
use crate::directories::disk;
use crate::logs::gates::is_open;
use crate::logs::left::{Case, Left, left_by};
use crate::runs::{Ended, is_answered, run_over};
use anyhow::{Result, bail};
use mem_ports::MemDisk;
use std::alloc::Global;
use std::sync::Wait;
use std::thread::Threads;

/// More than any run here needs.
const MOST_CALLS: u64 = 1_000;

const MOST_CUTS: u64 = 10_000;

/// Adding a record takes so many calls of the disk, where no next record is laid beside it. Laying that one takes a call more, and two
/// fewer then to add it, if it is the one that was laid.
const CALLS_A_RECORD: u32 = 4;

/// From so many sessions on, those in line may have their records laid.
const LAYING: usize = 3;

/// Where two writes came since the last sync, what a crash may leave of the first one, beside what it leaves of the other: nothing,
/// and all of it.
const FIRST_WRITES: &[&[u64]] = &[&[0], &[u64::MAX]];

/// How many calls failed while the log was opened and while records were added, and how many images the latter left: one in front of each
/// write of a record, after its first one for each byte up to the last that is not 0 and one more, and two after that of its gate.
#[derive(Clone, Copy)]
pub(crate) struct Tally {
    pub(crate) opening: u32,
    pub(crate) adding: u32,
    pub(crate) images: u64,
}

/// Runs the scripts again and again, until no call fails any longer.
pub(crate) fn fail_each_call<R: Threads + Wait + Sync>(
    rt: &R,
    alloc: Global,
    case: Case<'_>,
) -> Result<Tally> {
    let mut tally = Tally {
        opening: 0,
        adding: 0,
        images: 0,
    };
    for call in 1..MOST_CALLS {
        if !fail_call(rt, alloc, case, call, &mut tally)? {
            return Ok(tally);
        }
    }
    bail!("the calls do not end")
}

/// It says whether there is such a call.
fn fail_call<R: Threads + Wait + Sync>(
    rt: &R,
    alloc: Global,
    case: Case<'_>,
    call: u64,
    tally: &mut Tally,
) -> Result<bool> {
    let ended = run_over(rt, alloc, case.scripts, disk(alloc, case.log, Some(call))?)?;
    judge(rt, alloc, case, &ended, tally)
}

/// A run has to end as the call that failed says, and to leave what its sessions were answered. It says whether a call failed.
fn judge<R: Threads + Wait + Sync>(
    rt: &R,
    alloc: Global,
    case: Case<'_>,
    ended: &Ended,
    tally: &mut Tally,
) -> Result<bool> {
    let log = &ended.parts()?.log;
    let left = left_over(alloc, case, ended, tally)?;
    let images = reopened(rt, alloc, log, &left, ended.basis())?;
    if ended.status == 7 {
        tally.images = tally.images.saturating_add(images);
    }
    Ok(ended.status != 0)
}

/// What a crash may leave of a run, which has to end as the call that failed says.
fn left_over(alloc: Global, case: Case<'_>, ended: &Ended, tally: &mut Tally) -> Result<Left> {
    match ended.status {
        3 if tally.adding == 0 && ended.sessions.is_empty() => {
            left_at_opening(alloc, case, ended, tally)
        }
        7 => left_at_stop(alloc, case, ended, tally),
        0 => left_at_end(alloc, case, ended, *tally),
        status => bail!("a run ended with status {status}"),
    }
}

fn left_at_opening(
    alloc: Global,
    case: Case<'_>,
    ended: &Ended,
    tally: &mut Tally,
) -> Result<Left> {
    tells(ended, "factbase: disk fault on log")?;
    tally.opening = tally.opening.saturating_add(1);
    let script = case.scripts.first().copied().unwrap_or("");
    Left::alone(alloc, case.plain, script)
}

fn left_at_stop(alloc: Global, case: Case<'_>, ended: &Ended, tally: &mut Tally) -> Result<Left> {
    let records = tally.adding / CALLS_A_RECORD;
    tally.adding = tally.adding.saturating_add(1);
    let added = ended.basis().saturating_sub(ended.recovered);
    if !may_lay(case) && added != records {
        bail!("{added} records are added before call {}", tally.adding);
    }
    let t = ended.basis().saturating_add(1);
    let line = format!(in alloc; "factbase: log stopped at t {t}")?;
    tells(ended, line.as_str())?;
    left_by(alloc, case, ended, Some(t))
}

/// Whether records may be laid, which is up to the threads.
fn may_lay(case: Case<'_>) -> bool {
    case.scripts.len() >= LAYING
}

/// All calls of all records have failed before.
fn left_at_end(alloc: Global, case: Case<'_>, ended: &Ended, tally: Tally) -> Result<Left> {
    tells(ended, "")?;
    let records = ended.basis().saturating_sub(ended.recovered);
    if !may_lay(case) && tally.adding != records.saturating_mul(CALLS_A_RECORD) {
        bail!("{} calls failed of {records} records", tally.adding);
    }
    left_by(alloc, case, ended, None)
}

fn tells(ended: &Ended, line: &str) -> Result<()> {
    if ended.line.as_str() != line {
        bail!("a run tells {} in place of {line}", ended.line.as_str());
    }
    Ok(())
}

/// Opens each image that a crash may leave, with the first write since the last sync cut in front of each of its bytes, and whole. It
/// says how many there are. Where there is another write, that one is cut so too.
fn reopened<R: Threads + Wait + Sync>(
    rt: &R,
    alloc: Global,
    log: &MemDisk,
    left: &Left,
    records: u32,
) -> Result<u64> {
    for first in FIRST_WRITES {
        reopened_behind(rt, alloc, log, left, records, first)?;
    }
    reopened_behind(rt, alloc, log, left, records, &[])
}

/// The same of the write behind those that are cut so.
fn reopened_behind<R: Threads + Wait + Sync>(
    rt: &R,
    alloc: Global,
    log: &MemDisk,
    left: &Left,
    records: u32,
    first: &[u64],
) -> Result<u64> {
    let whole = cut_at(alloc, log, first, u64::MAX)?;
    for cut in 0..MOST_CUTS {
        let image = cut_at(alloc, log, first, cut)?;
        let is_whole = image.bytes() == whole.bytes();
        reopened_at(rt, alloc, image, left, records)?;
        if is_whole {
            return Ok(cut.saturating_add(1));
        }
    }
    bail!("a write does not end")
}

/// The image that a crash leaves, with the next write behind the first ones cut in front of this byte.
fn cut_at(alloc: Global, log: &MemDisk, first: &[u64], cut: u64) -> Result<MemDisk> {
    let mut cuts = Vec::new(alloc);
    cuts.extend_from_slice(first)?;
    cuts.push(cut)?;
    Ok(log.image(alloc, cuts.as_slice())?)
}

/// The image has so many records, and one more where the gate behind them is open.
fn reopened_at<R: Threads + Wait + Sync>(
    rt: &R,
    alloc: Global,
    image: MemDisk,
    left: &Left,
    records: u32,
) -> Result<()> {
    let sequel = left.where_open(is_open(image.bytes(), records));
    if !is_answered(rt, alloc, image, sequel.script.as_str(), &sequel.lines)? {
        bail!("a crash leaves something else than {records} records, or one more");
    }
    Ok(())
}
