//! Backups of a log.
ghost use Rattle.std.specs.Prelude.{◌≡◌, ◌<◌, ◌+◌, ℕ, List, length, drop, IfOk, IfErr, MatchResult};
ghost use Rattle.fb_values.specs.declared.facts.Entry.{Entry};
ghost use Rattle.fb_model.specs.History.{upto};
ghost use Rattle.fb_model.specs.Lawful.{IsLawful};
ghost use Rattle.disk_model.specs.Disk.{IfKnown, LeavesOnly};
ghost use Rattle.log_model.specs.Log.{IsLogOf};
ghost use Rattle.fb_journal.specs.Journals.{StaysKnown};
ghost use Rattle.fb_journal.specs.Readings.{LeavesBegun};
ghost use Rattle.disk_log.specs.Disks.{IsLogFrom};
ghost use Rattle.disk_log.specs.Logs.{disk_in, count_in, KeepsHistory};
ghost use Rattle.backup_model.specs.Backup.{appends, copied_of, BackupSays};
ghost use Rattle.fb_backup.specs.Backups.{IsBackupCause, IsOutside, IsRefusal, CountsBackup, log_left};

use crate::appending::append_behind;
use crate::reading::{Target, open_target};
use crate::{Backed, BackupStop};
use fb_disk::Disk;
use fb_history::EntryList;
use fb_view::Snapshot;
use std::alloc::Global;

/// Brings a log to the history of a snapshot: what it has has to be a beginning of the history, and it gets the entries that
/// it lacks, each by an append of its own. A file of at most 16 bytes is the log of the first entry. All records of the target
/// are judged before anything is appended: first the journal, then the payloads, and last what they hold.
pub fn backup<D: Disk>(
    alloc: Global,
    snapshot: &Snapshot,
    log: D,
) -> Result<Backed<D>, BackupStop<D>>
    // What the target lacked was appended.
    ensures copied { IfOk result (λ b. IfKnown (D.bytes log) (λ file. (lacking : List Entry)
        × BackupSays file snapshot.now.entries (appends lacking)
        × (b.copied ≡ copied_of (appends lacking)))) }

    // From then on each crash leaves the log of the whole history.
    ensures stands { IfOk result (λ b. IfKnown (D.bytes log) (λ _. (image : List ℕ)
        → D.images b.log image → IsLogOf image snapshot.now.entries)) }
    ensures known { IfOk result (λ b. StaysKnown (D.bytes log) (D.bytes b.log)) }

    // A crash at any moment of the call leaves as long a beginning of the history as before, or a longer one.
    ensures any_moment { (n : ℕ) → IfKnown (D.bytes log) (λ _.
        ((image : List ℕ) → D.images log image → IsLogFrom n snapshot.now.entries image)
        → LeavesOnly D.moment D.images_since log (log_left result)
        (IsLogFrom n snapshot.now.entries)) }

    // A target that is refused is left as it was.
    ensures untouched { IfErr result (λ s. IsRefusal s.fault
        → LeavesBegun D.bytes D.images D.moment D.images_since log s.log) }

    // A fault is what the target says beside the history, and the disk's is counted.
    ensures why_not { IfErr result
        (λ s. IfKnown (D.bytes log) (IsBackupCause snapshot.now.entries s.fault)) }
    ensures counted { MatchResult result (λ b. D.faults b.log ≡ D.faults log)
        (λ s. CountsBackup s.fault (D.faults log) (D.faults s.log)) }
{
    let entries = snapshot.entries();
    let target = open_target(alloc, entries, log)?;
    brought(alloc, entries, target)
}

/// The target with what it lacks.
fn brought<D: Disk>(
    alloc: Global,
    entries: &EntryList,
    target: Target<D>,
) -> Result<Backed<D>, BackupStop<D>>
    requires lawful { IsLawful entries.now }
    requires within { target.t < length entries.now }
    requires keeps { KeepsHistory D.bytes D.images D.faults D.moment D.images_since target.log
        (upto entries.now target.t) target.log }
    ensures copied { IfOk result
        (λ b. b.copied ≡ length (drop (target.t + 1) entries.now)) }
    ensures stands { IfOk result (λ b. IfKnown (D.bytes (disk_in target.log)) (λ _.
        (image : List ℕ) → D.images b.log image → IsLogOf image entries.now)) }
    ensures known { IfOk result
        (λ b. StaysKnown (D.bytes (disk_in target.log)) (D.bytes b.log)) }
    ensures any_moment { IfKnown (D.bytes (disk_in target.log)) (λ _. LeavesOnly D.moment
        D.images_since (disk_in target.log) (log_left result)
        (IsLogFrom (count_in target.log) entries.now)) }
    ensures why_not { IfErr result (λ s. IsOutside s.fault) }
    ensures counted { MatchResult result (λ b. D.faults b.log ≡ D.faults (disk_in target.log))
        (λ s. CountsBackup s.fault (D.faults (disk_in target.log)) (D.faults s.log)) }
{
    let Target { mut log, t } = target;
    match append_behind(alloc, entries, t, &mut log) {
        Ok(()) => {
            let copied = entries.len() - 1 - t;
            let log = log.into_disk();
            Ok(Backed { log, copied })
        }
        Err(fault) => Err(BackupStop {
            fault,
            log: log.into_disk(),
        }),
    }
}
