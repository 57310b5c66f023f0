//! Reading a target's log, and the log that goes on after it.
ghost use Rattle.std.specs.Prelude.{◌≡◌, ◌≤◌, [], ℕ, List, IfOk, IfErr, MatchResult};
ghost use Rattle.fb_model.specs.History.{basis, upto};
ghost use Rattle.fb_model.specs.Lawful.{IsLawful};
ghost use Rattle.disk_model.specs.Disk.{IfKnown, LeavesOnly};
ghost use Rattle.disk_model.specs.Journal.{log_mark};
ghost use Rattle.log_model.specs.Log.{LogStands, IsLogOf};
ghost use Rattle.fb_journal.specs.Journals.{StaysKnown};
ghost use Rattle.fb_journal.specs.Readings.{disk_from, HasRead, HasReadAll, LeavesBegun};
ghost use Rattle.disk_log.specs.Disks.{IsLogFrom};
ghost use Rattle.disk_log.specs.Logs.{disk_in, count_in, KeepsHistory};
ghost use Rattle.fb_backup.specs.Backups.{IsBackupCause, CountsBackup};
ghost use Rattle.fb_backup.specs.Targets.{target_left};

use crate::comparing::Compared;
use crate::{BackupFault, BackupStop};
use disk_log::{DiskLog, next_record};
use fb_disk::Disk;
use fb_history::EntryList;
use fb_journal::{Journal, Mark, Reading, StartStop};
use std::alloc::Global;

/// A log that has the entries up to t of a history.
#[derive(Drop)]
pub(crate) struct Target<D: Disk> {
    pub(crate) log: DiskLog<D>,
    pub(crate) t: u32,
}

/// Opens a log that has a beginning of the history. After the first sync its file is only read, unless it is a new one.
pub(crate) fn open_target<D: Disk>(
    alloc: Global,
    entries: &EntryList,
    disk: D,
) -> Result<Target<D>, BackupStop<D>>
    requires { IsLawful entries.now }
    ensures within { IfOk result (λ l. l.t ≤ basis entries.now) }
    ensures beginning { IfOk result
        (λ l. IfKnown (D.bytes disk) (λ file. IsLogOf file (upto entries.now l.t))) }
    ensures keeps { IfOk result (λ l. KeepsHistory D.bytes D.images D.faults D.moment
        D.images_since l.log (upto entries.now l.t) l.log) }
    ensures count { IfOk result (λ l. count_in l.log ≡ l.t) }
    ensures known { IfOk result (λ l. StaysKnown (D.bytes disk) (D.bytes (disk_in l.log))) }

    // A fault is what the file says beside the history, and the disk's is counted.
    ensures why_not { IfErr result
        (λ s. IfKnown (D.bytes disk) (IsBackupCause entries.now s.fault)) }
    ensures counted { MatchResult result (λ l. D.faults (disk_in l.log) ≡ D.faults disk)
        (λ s. CountsBackup s.fault (D.faults disk) (D.faults s.log)) }

    // A crash at any moment leaves as long a beginning as before.
    ensures any_moment { (n : ℕ) → IfKnown (D.bytes disk) (λ _.
        ((image : List ℕ) → D.images disk image → IsLogFrom n entries.now image)
        → LeavesOnly D.moment D.images_since disk (target_left result)
        (IsLogFrom n entries.now)) }
    ensures untouched { IfErr result
        (λ s. LeavesBegun D.bytes D.images D.moment D.images_since disk s.log) }
{
    let mut reading = match Journal::open(alloc, disk, Mark::Log) {
        Ok(reading) => reading,
        Err(StartStop { fault, disk }) => {
            let fault = BackupFault::from(fault);
            return Err(BackupStop { fault, log: disk });
        }
    };
    match beginning_of(alloc, entries, &mut reading) {
        Ok(t) => {
            let log = DiskLog::of(reading.finish());
            Ok(Target { log, t })
        }
        Err(fault) => Err(BackupStop {
            fault,
            log: reading.give_back(),
        }),
    }
}

/// The t up to which a log has the history's entries, or what it has else. A record that holds no entry, or another one, is
/// reported once all records were found, since a fault of the journal after it comes before it.
fn beginning_of<D: Disk>(
    alloc: Global,
    entries: &EntryList,
    log: &mut Reading<D>,
) -> Result<u32, BackupFault>
    requires lawful { IsLawful entries.now }
    requires begun { (disk : D)
        × HasRead D.bytes D.images D.moment D.images_since log_mark disk [] log.old }
    ensures read { IfOk result (λ t. (disk : D)
        → HasRead D.bytes D.images D.moment D.images_since log_mark disk [] log.old
        → (records : List (List ℕ))
        × HasReadAll D.bytes D.images D.moment D.images_since log_mark disk records log.new
        × (t ≤ basis entries.now) × LogStands records (upto entries.now t)) }
    ensures why_not { IfErr result (λ fault. (disk : D)
        → HasRead D.bytes D.images D.moment D.images_since log_mark disk [] log.old
        → IfKnown (D.bytes disk) (IsBackupCause entries.now fault)) }
    ensures counted { MatchResult result
        (λ _. D.faults (disk_from log.new) ≡ D.faults (disk_from log.old))
        (λ fault. CountsBackup fault (D.faults (disk_from log.old)) (D.faults (disk_from log.new))) }
    ensures any_moment { (disk : D)
        → HasRead D.bytes D.images D.moment D.images_since log_mark disk [] log.old
        → LeavesBegun D.bytes D.images D.moment D.images_since disk (disk_from log.new) }
{
    let mut compared = Compared::none();
    let mut payload = Vec::new(alloc);
    while let Some(next) = next_record(alloc, log, &mut payload)? {
        compared = compared.with(alloc, entries, next, &payload)?;
    }
    compared.into_basis()
}
