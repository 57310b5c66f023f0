//! Starting a journal: a new one, and why a file is not one.
ghost use Rattle.std.specs.Prelude.{◌≡◌, [], IfOk, IfErr, MatchResult};
ghost use Rattle.io_faults.specs.Faults.{Rose};
ghost use Rattle.fb_journal.specs.Marks.{mark_bytes};
ghost use Rattle.fb_journal.specs.Journals.{disk_of, mark_of, Keeps, StaysKnown};

use crate::marks::MARK;
use crate::stores::empty;
use crate::{Journal, Mark};
use fb_disk::{Disk, Failed};
use std::alloc::AllocError;
use thiserror::Error;

/// A file that is no longer is a new journal, whatever it holds: a crash while it was made may have left any of it.
pub(crate) const NEW: u64 = 16;

/// Why a journal did not start.
#[derive(Clone, Copy, Debug, PartialEq, Eq, Error)]
pub enum StartFault {
    /// A call of the disk failed in this call.
    #[error("a call of the disk failed")]
    Disk,
    /// The file's first fault: the record and the byte, counted from 0.
    #[error("record {nth} at byte {at}")]
    BadLog { nth: u64, at: u64 },
    #[error("out of memory")]
    Memory,
}

/// A start that did not succeed: why, and the disk.
#[derive(Drop)]
pub struct StartStop<D: Disk> {
    pub fault: StartFault,
    pub disk: D,
}

impl From<Failed> for StartFault {
    ghost use Rattle.std.specs.Prelude.{◌≡◌};
    ghost use Rattle.fb_journal.specs.declared.starts.StartFault.{StartFault};

    ghost from_gives = { λ _ e. e ≡ StartFault.Disk };

    fn from(_: Failed) -> StartFault {
        StartFault::Disk
    }
}

impl From<AllocError> for StartFault {
    ghost use Rattle.std.specs.Prelude.{◌≡◌};
    ghost use Rattle.fb_journal.specs.declared.starts.StartFault.{StartFault};

    ghost from_gives = { λ _ e. e ≡ StartFault.Memory };

    fn from(_: AllocError) -> StartFault {
        StartFault::Memory
    }
}

impl<D: Disk> Journal<D> {
    ghost use Rattle.fb_journal.specs.Journals.{disk_of, mark_of, Keeps, StaysKnown};
    ghost use Rattle.fb_journal.specs.declared.starts.StartFault.{StartFault};

    /// Starts the file anew, whatever it holds. A crash before this answers Ok may leave any bytes. It takes no memory.
    pub fn anew(disk: D, mark: Mark) -> Result<Journal<D>, StartStop<D>>
        ensures keeps { IfOk result (λ j. Keeps D.bytes D.images [] j) }
        ensures mark { IfOk result (λ j. mark_of j ≡ mark_bytes mark) }
        ensures known { IfOk result (λ j. StaysKnown (D.bytes disk) (D.bytes (disk_of j))) }
        ensures why_not { IfErr result (λ s. s.fault ≡ StartFault.Disk) }
        ensures counted { MatchResult result (λ j. D.faults (disk_of j) ≡ D.faults disk)
            (λ s. Rose (D.faults disk) (D.faults s.disk)) }
    {
        let mut disk = disk;
        match empty(&mut disk, mark) {
            Ok(()) => Ok(Journal {
                disk,
                mark,
                records: 0,
                gate: MARK as u64,
                stopped: None,
                laid: None,
                end: None,
            }),
            Err(_) => Err(StartStop {
                fault: StartFault::Disk,
                disk,
            }),
        }
    }
}
