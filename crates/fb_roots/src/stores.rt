//! The store of trees as the worker sees it.
ghost use Rattle.std.specs.Prelude.{◌≡◌, ◌≤◌, ℕ, List, OnOk, IsErrOf};
ghost use Rattle.io_faults.specs.Faults.{Rose};
ghost use Rattle.fb_values.specs.declared.facts.Entry.{Entry};
ghost use Rattle.fb_model.specs.Lawful.{IsLawful};
ghost use Rattle.seg_tree.specs.declared.roots.Roots.{Roots};
ghost use Rattle.fb_roots.specs.declared.bases.Base.{Base};
ghost use Rattle.fb_roots.specs.declared.stores.KeepFault.{KeepFault};
ghost use Rattle.fb_roots.specs.Bases.{IsBaseOf, AreMadeOf};

use crate::bases::Base;
use fb_memory::Memory;
use std::alloc::Global;
use thiserror::Error;

/// Why trees were not kept.
#[derive(Clone, Copy, Debug, PartialEq, Eq, Error)]
pub enum KeepFault {
    #[error("out of memory")]
    Memory,
    /// A call of the outside failed. From then on nothing is kept.
    #[error("the trees could not be kept")]
    Failed,
}

impl From<Memory> for KeepFault {
    ghost from_gives = { λ _ fault. fault ≡ KeepFault.Memory };

    fn from(_: Memory) -> KeepFault {
        KeepFault::Memory
    }
}

/// A store of trees, which an opening of the database may find again.
pub trait RootStore: Drop {
    /// How many calls of the outside have failed in it.
    ghost faults: { Self → ℕ };

    /// By what the store was when the database was opened, and what it is now: none of its calls has failed since.
    ghost goes: { Self → Self → Type 0 };

    /// By what the store was when the database was opened, and what it is now: it has these trees.
    ghost keeps: { Self → Base → Self → Type 0 };

    /// A number that is above the ids of all nodes that it has.
    ghost next: { Self → ℕ };

    /// No call of it has failed, and each node of the trees whose id a node of it has is that node.
    ghost fits: { Self → Roots → Type 0 };

    /// The least number that a new node may have. Trees fit if they were made of ones that fit, with new nodes numbered from here on.
    fn next_id(&self) -> u64
        ensures next { result ≡ next self.now }
        ensures fit { (first : ℕ) (old new : Roots) → next self.now ≤ first
            → fits self.now old → AreMadeOf first old new → fits self.now new };

    /// Keeps trees that stand for the first entries of a history. What it has it goes on having, whatever the answer.
    fn keep(&mut self, alloc: Global, base: &Base) -> Result<(), KeepFault>
        requires stand { (h : List Entry) × IsLawful h × IsBaseOf base.now h base.now.c }
        requires fits { fits self.old base.now.roots }
        ensures kept { OnOk result ((begun : Self) → goes begun self.old
            → keeps begun base.now self.new) }
        ensures stays { (begun : Self) (older : Base) → goes begun self.old
            → keeps begun older self.old → keeps begun older self.new }
        ensures fit { OnOk result (fits self.new base.now.roots) }
        ensures still_fit { IsErrOf result KeepFault.Memory
            → (trees : Roots) → fits self.old trees → fits self.new trees }
        ensures fault { IsErrOf result KeepFault.Failed → Rose (faults self.old) (faults self.new) }
        ensures unfailed { (IsErrOf result KeepFault.Failed → ⊥)
            → ((begun : Self) → goes begun self.old → goes begun self.new)
            × (faults self.new ≡ faults self.old) };
}
