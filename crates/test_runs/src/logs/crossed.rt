//! Calls of both disks fail. What a crash may leave of the two is opened together.
use crate::directories::{Contents, Parts, disk};
use crate::logs::failing::{MOST_CALLS, SEGMENTS_CUTS};
use crate::logs::kept::{BOTH, merge_over, read_over};
use crate::runs::{Ended, ends_so};
use anyhow::{Result, bail};
use fb_disk::Disk;
use mem_ports::MemDisk;
use std::alloc::Global;
use std::sync::Wait;
use std::thread::Threads;

/// How many bytes of the last write of the log a crash leaves.
const LOG_CUTS: &[u64] = &[0, 1, 40, u64::MAX];

/// The numbers of the calls that fail.
#[derive(Clone, Copy)]
struct Calls {
    log: u64,
    segments: u64,
}

/// Which of the disks failed.
#[derive(Clone, Copy)]
struct Failed {
    log: bool,
    segments: bool,
}

/// Fails each call of the log's disk, and with it each one of the segments'.
pub(crate) fn cross_images<R: Threads + Wait + Sync>(rt: &R, alloc: Global) -> Result<()> {
    for call in 1..MOST_CALLS {
        if !cross_images_at(rt, alloc, call)? {
            return Ok(());
        }
    }
    bail!("the calls do not end")
}

/// The same with one call of the log's disk. It says whether the log failed when the segments no longer did.
fn cross_images_at<R: Threads + Wait + Sync>(rt: &R, alloc: Global, log: u64) -> Result<bool> {
    for segments in 1..MOST_CALLS {
        let failed = fail_both(rt, alloc, Calls { log, segments })?;
        if !failed.segments {
            return Ok(failed.log);
        }
    }
    bail!("the calls do not end")
}

fn fail_both<R: Threads + Wait + Sync>(rt: &R, alloc: Global, calls: Calls) -> Result<Failed> {
    let left = left_by_both(rt, alloc, calls)?;
    open_all(rt, alloc, &left)
}

fn left_by_both<R: Threads + Wait + Sync>(rt: &R, alloc: Global, calls: Calls) -> Result<Parts> {
    let parts = Parts {
        log: disk(alloc, &[], Some(calls.log))?,
        segments: disk(alloc, &[], Some(calls.segments))?,
    };
    merge_over(rt, alloc, BOTH, parts)?.into_parts()
}

/// Opens each log that a crash may leave beside each file of segments that it may leave.
fn open_all<R: Threads + Wait + Sync>(rt: &R, alloc: Global, left: &Parts) -> Result<Failed> {
    for cut in LOG_CUTS {
        let log = left.log.image(alloc, &[*cut])?;
        open_log(rt, alloc, log.bytes(), &left.segments)?;
    }
    Ok(Failed {
        log: left.log.faults() > 0,
        segments: left.segments.faults() > 0,
    })
}

fn open_log<R: Threads + Wait + Sync>(
    rt: &R,
    alloc: Global,
    log: &[u8],
    segments: &MemDisk,
) -> Result<()> {
    let replies = replies_alone(rt, alloc, log)?;
    for cut in SEGMENTS_CUTS {
        let image = segments.image(alloc, &[*cut])?;
        let contents = Contents {
            log,
            segments: image.bytes(),
        };
        open_crossed(rt, alloc, contents, &replies)?;
    }
    Ok(())
}

/// What the reads are answered by a log alone.
fn replies_alone<R: Threads + Wait + Sync>(rt: &R, alloc: Global, log: &[u8]) -> Result<Vec<u8>> {
    let alone = Contents { log, segments: &[] };
    let ended = read_over(rt, alloc, alone)?;
    replies_of(alloc, &ended)
}

fn replies_of(alloc: Global, ended: &Ended) -> Result<Vec<u8>> {
    let [session] = ended.sessions.as_slice() else {
        bail!("a log does not open");
    };
    Ok(session.sink.bytes().to_vec(alloc)?)
}

/// The reads are answered as they are by the log alone.
fn open_crossed<R: Threads + Wait + Sync>(
    rt: &R,
    alloc: Global,
    contents: Contents<'_>,
    replies: &[u8],
) -> Result<()> {
    let beside = read_over(rt, alloc, contents)?;
    judge(&beside, replies)
}

fn judge(beside: &Ended, replies: &[u8]) -> Result<()> {
    if !ends_so(beside, 0, "", replies) {
        bail!("segments change an answer");
    }
    Ok(())
}
