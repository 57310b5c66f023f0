//! Appending what a log lacks.
ghost use Rattle.std.specs.Prelude.{◌<◌, ◌++◌, [], ◌∷◌, List, length, OnOk, IfErr};
ghost use Rattle.fb_values.specs.declared.facts.Entry.{Entry};
ghost use Rattle.fb_model.specs.History.{upto};
ghost use Rattle.fb_model.specs.Lawful.{IsLawful, IsLawfulAfter};
ghost use Rattle.disk_log.specs.Logs.{KeepsHistory};
ghost use Rattle.fb_backup.specs.Targets.{HasStopped, HasLeft};

use crate::BackupFault;
use disk_log::DiskLog;
use fb_disk::Disk;
use fb_history::EntryList;
use fb_log::Log;
use fb_values::Entry;
use io_faults::Failed;
use std::alloc::Global;

/// Appends the entries of the history that come after this t.
pub(crate) fn append_behind<D: Disk>(
    alloc: Global,
    entries: &EntryList,
    t: u32,
    log: &mut DiskLog<D>,
) -> Result<(), BackupFault>
    requires lawful { IsLawful entries.now }
    requires within { t < length entries.now }
    ensures kept { OnOk result ((begun : _)
        → KeepsHistory D.bytes D.images D.faults D.moment D.images_since begun
        (upto entries.now t) log.old
        → KeepsHistory D.bytes D.images D.faults D.moment D.images_since begun
        entries.now log.new) }
    ensures stopped { IfErr result (λ fault. (begun : _)
        → KeepsHistory D.bytes D.images D.faults D.moment D.images_since begun
        (upto entries.now t) log.old
        → HasLeft D.bytes D.faults D.moment D.images_since begun entries.now fault log.new) }
{
    let len = entries.len();
    let from = t + 1;
    for next in from..len {
        append(alloc, entries.at(next), log)?;
    }
    Ok(())
}

/// Appends an entry. At Ok it is on the disk.
fn append<D: Disk>(alloc: Global, entry: &Entry, log: &mut DiskLog<D>) -> Result<(), BackupFault>
    requires { (h : List Entry) × IsLawful h × IsLawfulAfter h entry.now }
    ensures kept { OnOk result ((begun : _) (h : List Entry) → IsLawfulAfter h entry.now
        → KeepsHistory D.bytes D.images D.faults D.moment D.images_since begun h log.old
        → KeepsHistory D.bytes D.images D.faults D.moment D.images_since begun
        (h ++ entry.now ∷ []) log.new) }
    ensures stopped { IfErr result (λ fault. (begun : _) (h : List Entry)
        → IsLawfulAfter h entry.now
        → KeepsHistory D.bytes D.images D.faults D.moment D.images_since begun h log.old
        → HasStopped D.bytes D.images D.faults D.moment D.images_since begun h entry.now fault
        log.new) }
{
    let record = DiskLog::<D>::record(alloc, entry)?;
    match log.add(&record) {
        Ok(()) => Ok(()),
        Err(Failed) => Err(BackupFault::Disk),
    }
}
