//! Calls of the segments' disk fail in turn. The run has to say so, and the log is as if there had been no fault.
use crate::directories::{Parts, disk};
use crate::logs::kept::{Kept, merge_over};
use crate::runs::{Ended, ends_so};
use anyhow::{Result, bail};
use mem_ports::MemDisk;
use std::alloc::Global;
use std::sync::Wait;
use std::thread::Threads;

/// How many bytes of the last write of the segments a crash leaves: none, one, about half of those of a record, or all.
pub(crate) const SEGMENTS_CUTS: &[u64] = &[0, 1, 2_000, u64::MAX];

/// More than any run here needs.
pub(crate) const MOST_CALLS: u64 = 1_000;

/// A run whose segments fail.
#[derive(Clone, Copy)]
pub(crate) struct Failing<'a> {
    /// Whose log and whose segments the directory has.
    pub(crate) log: &'a Kept,
    pub(crate) segments: &'a Kept,
    pub(crate) script: &'a str,
    /// What it leaves where the segments do not keep it from running.
    pub(crate) after: &'a Kept,
    /// How far the trees go at least, whatever a crash leaves.
    pub(crate) least: u32,
}

impl<'a> Failing<'a> {
    /// Runs the script again and again, until no call fails any longer, and opens what a crash may leave each time.
    pub(crate) fn fail_each_call<R: Threads + Wait + Sync>(
        &self,
        rt: &R,
        alloc: Global,
    ) -> Result<()> {
        for call in 1..MOST_CALLS {
            if !self.fail_call(rt, alloc, call)? {
                return Ok(());
            }
        }
        bail!("the calls do not end")
    }

    /// It says whether there is such a call.
    fn fail_call<R: Threads + Wait + Sync>(
        &self,
        rt: &R,
        alloc: Global,
        call: u64,
    ) -> Result<bool> {
        let parts = self.parts(alloc, call)?;
        let ended = merge_over(rt, alloc, self.script, parts)?;
        self.judge(rt, alloc, &ended)
    }

    fn parts(&self, alloc: Global, call: u64) -> Result<Parts> {
        Ok(Parts {
            log: disk(alloc, self.log.log(), None)?,
            segments: disk(alloc, self.segments.segments(), Some(call))?,
        })
    }

    /// Opens what a crash may leave of the run. It says whether a call failed.
    fn judge<R: Threads + Wait + Sync>(
        &self,
        rt: &R,
        alloc: Global,
        ended: &Ended,
    ) -> Result<bool> {
        let history = self.left_by(ended)?;
        let least = if ended.status == 0 {
            history.t()
        } else {
            self.least
        };
        open_again(rt, alloc, ended.parts()?, history, least)?;
        Ok(ended.status != 0)
    }

    /// The history that the run leaves. It has to say whether the segments failed, and which time.
    fn left_by(&self, ended: &Ended) -> Result<&'a Kept> {
        let (is_said, history) = match ended.status {
            3 => (
                ends_so(ended, 3, "factbase: disk fault on segments", &[]),
                self.log,
            ),
            8 => (
                ends_so(ended, 8, "factbase: segment fault", self.after.replies()),
                self.after,
            ),
            _ => (ends_so(ended, 0, "", self.after.replies()), self.after),
        };
        if !is_said {
            bail!("a run ends otherwise, with status {}", ended.status);
        }
        Ok(history)
    }
}

/// Opens what a crash may leave of a run whose segments failed. The log has to be that of the history.
fn open_again<R: Threads + Wait + Sync>(
    rt: &R,
    alloc: Global,
    left: &Parts,
    history: &Kept,
    least: u32,
) -> Result<()> {
    if left.log.bytes() != history.log() {
        bail!("a fault of the segments changes the log");
    }
    for cut in SEGMENTS_CUTS {
        if covered_at(rt, alloc, &left.segments, history, *cut)? < least {
            bail!("a crash leaves no trees up to t {least}");
        }
    }
    Ok(())
}

/// How far the trees go where a crash leaves so many bytes of the last write of the segments.
fn covered_at<R: Threads + Wait + Sync>(
    rt: &R,
    alloc: Global,
    segments: &MemDisk,
    history: &Kept,
    cut: u64,
) -> Result<u32> {
    let image = segments.image(alloc, &[cut])?;
    history.covered_by(rt, alloc, image.bytes())
}
