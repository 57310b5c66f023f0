//! Copying a database to another pair of disks.
ghost use Rattle.std.specs.Prelude.{◌≡◌};
ghost use Rattle.fb_run.specs.Outside.{disks_of};
ghost use Rattle.fb_run.specs.Copying.{EndsCopy, HasTrees, LeavesBeginnings, LeavesRecords};

use crate::database::Disks;
use fb_backup::{Backed, BackupFault, BackupStop, CopyFault, CopyStop, backup, copy_roots_if_new};
use fb_disk::Disk;
use fb_view::Snapshot;
use std::alloc::Global;

/// Why not all was copied.
#[derive(Clone, Copy)]
pub(crate) enum NotCopied {
    /// The log did not get what it lacked.
    Log(BackupFault),
    /// The segments did not get the trees. The log got what it lacked.
    Segments(CopyFault),
}

/// What became of the disks of a target, and how many entries its log got, where it got all.
#[derive(Drop)]
pub(crate) struct Copied<D> {
    pub(crate) target: Disks<D>,
    pub(crate) end: Result<u32, NotCopied>,
}

/// Copies a history to the log of a target, and then its trees to the segments, where these have no record yet.
pub(crate) fn copy<D: Disk>(alloc: Global, snapshot: &Snapshot, target: Disks<D>) -> Copied<D>
    ensures ended { EndsCopy (disks_of D.bytes D.faults D.images D.moment D.images_since)
        snapshot.now target result.target result.end }
    ensures beginnings { LeavesBeginnings
        (disks_of D.bytes D.faults D.images D.moment D.images_since) snapshot.now.entries
        target.log result.target.log }
    ensures records { LeavesRecords
        (disks_of D.bytes D.faults D.images D.moment D.images_since) target.segments
        result.target.segments }
{
    let Disks { log, segments } = target;
    match backup(alloc, snapshot, log) {
        Ok(Backed { log, copied }) => copy_trees(alloc, snapshot, Disks { log, segments }, copied),
        Err(BackupStop { fault, log }) => Copied {
            target: Disks { log, segments },
            end: Err(NotCopied::Log(fault)),
        },
    }
}

/// Copies the trees to the segments of a target whose log got so many entries.
fn copy_trees<D: Disk>(
    alloc: Global,
    snapshot: &Snapshot,
    target: Disks<D>,
    copied: u32,
) -> Copied<D>
    ensures log { result.target.log ≡ target.log }
    ensures ended { HasTrees (disks_of D.bytes D.faults D.images D.moment D.images_since)
        snapshot.now target.segments result.target.segments copied result.end }
    ensures records { LeavesRecords
        (disks_of D.bytes D.faults D.images D.moment D.images_since) target.segments
        result.target.segments }
{
    let Disks { log, segments } = target;
    match copy_roots_if_new(alloc, snapshot, segments) {
        Ok(segments) => Copied {
            target: Disks { log, segments },
            end: Ok(copied),
        },
        Err(CopyStop { fault, segments }) => Copied {
            target: Disks { log, segments },
            end: Err(NotCopied::Segments(fault)),
        },
    }
}
