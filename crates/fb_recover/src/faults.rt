//! Why a database is not opened.
use fb_disk::Disk;
use fb_journal::StartFault;
use fb_memory::Memory;
use fb_ports::Part;
use seg_store::LoadFault;
use thiserror::Error;

#[derive(Clone, Copy, Debug, PartialEq, Eq, Error)]
pub enum OpenFault {
    /// A call of this part's disk failed.
    #[error("a call of a disk failed")]
    Disk { which: Part },
    /// The first record of the log that is none, or whose payload holds no entry, and the byte of the file at which its first
    /// misfit begins. Both are counted from 0.
    #[error("record {nth} at byte {at}")]
    BadLog { nth: u64, at: u64 },
    /// Each record holds an entry; this one is the first that may not follow those before it, by the least law that it
    /// breaks, from 1 to 9.
    #[error("t {t} breaks law {law}")]
    Unlawful { t: u32, law: u8 },
    #[error("out of memory")]
    Memory,
}

/// An opening that did not succeed: why, and the two disks.
#[derive(Drop)]
pub struct OpenStop<D: Disk> {
    pub fault: OpenFault,
    pub log: D,
    pub segments: D,
}

impl From<Memory> for OpenFault {
    ghost use Rattle.std.specs.Prelude.{◌≡◌};
    ghost use Rattle.fb_recover.specs.declared.faults.OpenFault.TheVariants.{Memory};

    ghost from_gives = { λ _ fault. fault ≡ Memory };

    fn from(_: Memory) -> OpenFault {
        OpenFault::Memory
    }
}

impl From<StartFault> for OpenFault {
    ghost use Rattle.std.specs.Prelude.{◌≡◌};
    ghost use Rattle.fb_recover.specs.Faults.{fault_of};

    ghost from_gives = { λ start fault. fault ≡ fault_of start };

    fn from(start: StartFault) -> OpenFault {
        match start {
            StartFault::Disk => OpenFault::Disk { which: Part::Log },
            StartFault::BadLog { nth, at } => OpenFault::BadLog { nth, at },
            StartFault::Memory => OpenFault::Memory,
        }
    }
}

impl From<LoadFault> for OpenFault {
    ghost use Rattle.std.specs.Prelude.{◌≡◌};
    ghost use Rattle.fb_recover.specs.Faults.{fault_of_load};

    ghost from_gives = { λ load fault. fault ≡ fault_of_load load };

    fn from(load: LoadFault) -> OpenFault {
        match load {
            LoadFault::Disk => OpenFault::Disk {
                which: Part::Segments,
            },
            LoadFault::Memory => OpenFault::Memory,
        }
    }
}
