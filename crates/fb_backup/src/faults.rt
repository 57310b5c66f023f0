//! What a backup answers.
use fb_disk::Disk;
use fb_journal::StartFault;
use fb_memory::Memory;
use seg_store::LoadFault;
use thiserror::Error;

/// A log that has all entries of a history.
#[derive(Drop)]
pub struct Backed<D: Disk> {
    pub log: D,
    /// How many of them it got in this backup.
    pub copied: u32,
}

/// Why a log was not brought to a history.
#[derive(Clone, Copy, Debug, PartialEq, Eq, Error)]
pub enum BackupFault {
    /// A call of the target's disk failed.
    #[error("a call of the disk failed")]
    Disk,
    /// The target's first record that is none, or whose payload holds no entry, and the byte of the file at which its first
    /// misfit begins. Both are counted from 0.
    #[error("record {nth} at byte {at}")]
    BadLog { nth: u64, at: u64 },
    /// The target's first entry that is not the history's has this t, or its t is the first above the history's basis.
    #[error("the entry of t {t} is another one")]
    Other { t: u32 },
    #[error("out of memory")]
    Memory,
}

/// A backup that did not succeed: why, and the disk. It has what was appended until then.
#[derive(Drop)]
pub struct BackupStop<D: Disk> {
    pub fault: BackupFault,
    pub log: D,
}

/// Why trees were not copied.
#[derive(Clone, Copy, Debug, PartialEq, Eq, Error)]
pub enum CopyFault {
    /// A call of the target's disk failed.
    #[error("a call of the disk failed")]
    Disk,
    #[error("out of memory")]
    Memory,
}

/// A copy of trees that did not succeed: why, and the disk.
#[derive(Drop)]
pub struct CopyStop<D: Disk> {
    pub fault: CopyFault,
    pub segments: D,
}

impl From<Memory> for BackupFault {
    ghost use Rattle.std.specs.Prelude.{◌≡◌};
    ghost use Rattle.fb_backup.specs.declared.faults.BackupFault.TheVariants.{Memory};

    ghost from_gives = { λ _ fault. fault ≡ Memory };

    fn from(_: Memory) -> BackupFault {
        BackupFault::Memory
    }
}

impl From<StartFault> for BackupFault {
    ghost use Rattle.std.specs.Prelude.{◌≡◌};
    ghost use Rattle.fb_backup.specs.Backups.{fault_of};

    ghost from_gives = { λ start fault. fault ≡ fault_of start };

    fn from(start: StartFault) -> BackupFault {
        match start {
            StartFault::Disk => BackupFault::Disk,
            StartFault::BadLog { nth, at } => BackupFault::BadLog { nth, at },
            StartFault::Memory => BackupFault::Memory,
        }
    }
}

impl From<LoadFault> for CopyFault {
    ghost use Rattle.std.specs.Prelude.{◌≡◌};
    ghost use Rattle.fb_backup.specs.Copies.{fault_of_load};

    ghost from_gives = { λ load fault. fault ≡ fault_of_load load };

    fn from(load: LoadFault) -> CopyFault {
        match load {
            LoadFault::Disk => CopyFault::Disk,
            LoadFault::Memory => CopyFault::Memory,
        }
    }
}
