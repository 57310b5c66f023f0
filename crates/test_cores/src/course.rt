//! One way through the table.
use crate::indexes::Indexes;
use crate::onto::{over_newer, over_older};
use crate::rows::Row;
use crate::run::{Run, reopened};
use anyhow::Result;
use fb_view::Snapshot;
use std::alloc::Global;
use std::thread::Threads;

/// How many transactions come before a merge begins, and how many before its trees are adopted.
#[derive(Clone, Copy)]
pub(crate) struct Course {
    pub(crate) begin: usize,
    pub(crate) adopt: usize,
}

impl Course {
    /// Drives a core through all transactions. The list has the indexes that are wanted after so many of them.
    pub(crate) fn follow<R: Threads + Sync>(
        self,
        rt: &R,
        alloc: Global,
        rows: &[Row],
        wanted: &[Indexes],
    ) -> Result<()> {
        let mut run = Run::new(alloc)?;
        self.drive(rt, alloc, &mut run, rows, wanted)
    }

    fn drive<R: Threads + Sync>(
        self,
        rt: &R,
        alloc: Global,
        run: &mut Run,
        rows: &[Row],
        wanted: &[Indexes],
    ) -> Result<()> {
        for (place, indexes) in wanted.iter().enumerate() {
            self.merge_at(rt, alloc, run, place, indexes)?;
            if let Some(row) = rows.get(place) {
                run.transact(row)?;
            }
        }
        match wanted.last() {
            Some(indexes) => end(rt, alloc, run, indexes),
            None => Ok(()),
        }
    }

    /// The merge begins or ends, where this is the place for it.
    fn merge_at<R: Threads + Sync>(
        self,
        rt: &R,
        alloc: Global,
        run: &mut Run,
        place: usize,
        indexes: &Indexes,
    ) -> Result<()> {
        if place == self.begin {
            run.begin_merge()?;
        }
        if place == self.adopt {
            run.end_merge(rt, alloc)?;
            indexes.check(alloc, run.core().snapshot())?;
        }
        Ok(())
    }
}

/// The database is opened anew over the trees that it has, and over ones that were made of newer and of older trees. Then it merges
/// a last time.
fn end<R: Threads + Sync>(rt: &R, alloc: Global, run: &mut Run, wanted: &Indexes) -> Result<()> {
    let snapshot = run.core().snapshot();
    wanted.check(alloc, snapshot)?;
    check_over_newer(rt, alloc, snapshot, wanted)?;
    check_over_older(rt, alloc, snapshot, wanted)?;
    check_reopened(alloc, snapshot, wanted)?;
    run.begin_merge()?;
    run.end_merge(rt, alloc)?;
    wanted.check(alloc, run.core().snapshot())
}

fn check_over_newer<R: Threads + Sync>(
    rt: &R,
    alloc: Global,
    snapshot: &Snapshot,
    wanted: &Indexes,
) -> Result<()> {
    let newer = over_newer(rt, alloc, snapshot)?;
    wanted.check(alloc, &newer)
}

fn check_over_older<R: Threads + Sync>(
    rt: &R,
    alloc: Global,
    snapshot: &Snapshot,
    wanted: &Indexes,
) -> Result<()> {
    let older = over_older(rt, alloc, snapshot)?;
    wanted.check(alloc, &older)
}

fn check_reopened(alloc: Global, snapshot: &Snapshot, wanted: &Indexes) -> Result<()> {
    let core = reopened(alloc, snapshot)?;
    wanted.check(alloc, core.snapshot())
}
