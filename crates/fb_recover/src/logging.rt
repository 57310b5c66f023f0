//! What the log of a database holds, and the log that goes on after it.
ghost use Rattle.std.specs.Prelude.{◌≡◌, ◌⊎◌, ◌≤◌, length, IfOk, IfErr, MatchResult};
ghost use Rattle.fb_model.specs.History.{basis};
ghost use Rattle.fb_model.specs.Lawful.{IsLawful};
ghost use Rattle.disk_model.specs.Disk.{IfKnown, LeavesOnly};
ghost use Rattle.log_model.specs.Log.{IsLogOf};
ghost use Rattle.fb_journal.specs.Journals.{StaysKnown};
ghost use Rattle.disk_log.specs.Logs.{disk_in, count_in, KeepsHistory};
ghost use Rattle.fb_recover.specs.Faults.{IsCause, CountsLog};
ghost use Rattle.fb_recover.specs.Logging.{log_disk_after};

use crate::OpenFault;
use crate::records::history_of;
use disk_log::DiskLog;
use fb_disk::Disk;
use fb_history::EntryList;
use fb_journal::{Journal, Mark, StartStop};
use std::alloc::Global;

/// The history that a log holds, and the log that goes on after it.
#[derive(Drop)]
pub(crate) struct Logged<D: Disk> {
    pub(crate) entries: EntryList,
    pub(crate) log: DiskLog<D>,
}

/// A log that was not opened: why, and its disk.
#[derive(Drop)]
pub(crate) struct LogStop<D: Disk> {
    pub(crate) fault: OpenFault,
    pub(crate) disk: D,
}

/// Opens a log. After the first sync its file is only read, unless it is a new one.
pub(crate) fn open_log<D: Disk>(alloc: Global, disk: D) -> Result<Logged<D>, LogStop<D>>
    ensures history { IfOk result
        (λ l. IfKnown (D.bytes disk) (λ file. IsLogOf file l.entries)) }
    ensures lawful { IfOk result (λ l. IsLawful l.entries) }

    // The log keeps that history, as it was opened.
    ensures keeps { IfOk result (λ l. KeepsHistory D.bytes D.images D.faults D.moment
        D.images_since l.log l.entries l.log) }
    ensures count { IfOk result (λ l. count_in l.log ≡ basis l.entries) }
    ensures known { IfOk result (λ l. StaysKnown (D.bytes disk) (D.bytes (disk_in l.log))) }

    // A fault is what the file says, and the disk's is counted.
    ensures why_not { IfErr result (λ s. IfKnown (D.bytes disk) (IsCause s.fault)) }
    ensures counted { MatchResult result (λ l. D.faults (disk_in l.log) ≡ D.faults disk)
        (λ s. CountsLog s.fault (D.faults disk) (D.faults s.disk)) }

    // A crash at any moment leaves an image from before, or at most 16 bytes where there were no more: a new log.
    ensures any_moment { IfKnown (D.bytes disk) (λ file. LeavesOnly D.moment D.images_since
        disk (log_disk_after result)
        (λ image. D.images disk image ⊎ ((length file ≤ 16) × (length image ≤ 16)))) }

    // So it leaves an image from before, or the log of the same history.
    ensures any_moment_stands { IfOk result (λ l. IfKnown (D.bytes disk) (λ _. LeavesOnly
        D.moment D.images_since disk (disk_in l.log)
        (λ image. D.images disk image ⊎ IsLogOf image l.entries))) }
{
    let mut reading = match Journal::open(alloc, disk, Mark::Log) {
        Ok(reading) => reading,
        Err(StartStop { fault, disk }) => {
            let fault = OpenFault::from(fault);
            return Err(LogStop { fault, disk });
        }
    };
    match history_of(alloc, &mut reading) {
        Ok(entries) => {
            let log = DiskLog::of(reading.finish());
            Ok(Logged { entries, log })
        }
        Err(fault) => Err(LogStop {
            fault,
            disk: reading.give_back(),
        }),
    }
}
