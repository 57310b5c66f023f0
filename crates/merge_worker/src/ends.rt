//! Why the worker ends.
use fb_memory::Memory;
use fb_merge::MergeStop;
use fb_roots::KeepFault;

/// Why the worker has ended.
#[derive(Clone, Copy, Debug, PartialEq, Eq)]
pub enum WorkEnd {
    /// No session is left, and no merge is due.
    Shut,
    /// The store failed at the trees of a merge, and they were not adopted.
    StoreFault,
    /// The turns of the worker's seat are used up, or the numbers of the trees' nodes.
    Spent,
    /// Out of memory.
    Memory,
}

impl From<Memory> for WorkEnd {
    ghost use Rattle.std.specs.Prelude.{◌≡◌};
    ghost use Rattle.merge_worker.specs.declared.ends.WorkEnd.{WorkEnd};

    ghost from_gives = { λ _ end. end ≡ WorkEnd.Memory };

    fn from(_: Memory) -> WorkEnd {
        WorkEnd::Memory
    }
}

impl From<MergeStop> for WorkEnd {
    ghost use Rattle.std.specs.Prelude.{◌≡◌};
    ghost use Rattle.merge_worker.specs.Ends.{end_at_merge};

    ghost from_gives = { λ stop end. end ≡ end_at_merge stop };

    fn from(stop: MergeStop) -> WorkEnd {
        match stop {
            MergeStop::Memory => WorkEnd::Memory,
            MergeStop::Spent => WorkEnd::Spent,
        }
    }
}

impl From<KeepFault> for WorkEnd {
    ghost use Rattle.std.specs.Prelude.{◌≡◌};
    ghost use Rattle.merge_worker.specs.Ends.{end_at_keep};

    ghost from_gives = { λ fault end. end ≡ end_at_keep fault };

    fn from(fault: KeepFault) -> WorkEnd {
        match fault {
            KeepFault::Memory => WorkEnd::Memory,
            KeepFault::Failed => WorkEnd::StoreFault,
        }
    }
}
