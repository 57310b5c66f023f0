//! The core, how it is made, and what it answers.
ghost use Rattle.std.specs.Prelude.{◌≡◌, [], IfOk, nat_le};
ghost use Rattle.fb_model.specs.History.{basis};
ghost use Rattle.fb_model.specs.Lawful.{IsLawful};
ghost use Rattle.view_model.specs.Stands.{RootStands};
ghost use Rattle.seg_tree.specs.Indexes.{trees_of};

use fb_history::{Authors, EntryList};
use fb_memory::Memory;
use fb_view::Snapshot;
use seg_tree::Roots;
use std::alloc::Global;
use std::marker::Model;

/// What a core is made of.
#[derive(Drop)]
pub struct CoreParts {
    /// The latest value of the database.
    pub snapshot: Snapshot,
    /// The sessions that wrote the entries since the opening: the last author is that of the last entry.
    pub authors: Authors,
}

/// What all sessions of a database share.
#[derive(Drop)]
pub struct Core {
    pub(crate) alloc: Global,
    pub(crate) parts: CoreParts,
}

impl Model for Core {
    ghost use Rattle.fb_core.specs.declared.shared.CoreParts.{CoreParts};
    ghost use Rattle.fb_core.specs.Cores.{CoreStands};

    ghost Value = { CoreParts };

    ghost view = { λ core. core.parts };

    ghost invariant = { λ core. CoreStands core.parts };
}

impl Core {
    ghost use Rattle.fb_core.specs.Cores.{CoreStands, live_datoms};

    /// The core of a database that has this value as it opens. Nobody has written since.
    pub fn of(alloc: Global, snapshot: Snapshot) -> Core
        ensures { result ≡ record { snapshot = snapshot; authors = [] } }
    {
        // This call brings into the proof that the snapshot represents its history.
        let _basis = snapshot.basis();
        let authors = Authors::new(alloc);
        Core {
            alloc,
            parts: CoreParts { snapshot, authors },
        }
    }

    /// The core of a history that was read, with trees of its entries up to `c`.
    pub fn opened(alloc: Global, entries: EntryList, roots: Roots, c: u32) -> Result<Core, Memory>
        requires lawful { IsLawful entries }
        requires roots { RootStands (trees_of roots) entries c }
        ensures entries { IfOk result (λ core. core.snapshot.entries ≡ entries) }
        ensures roots { IfOk result (λ core. core.snapshot.roots ≡ roots) }
        ensures covered { IfOk result (λ core. core.snapshot.covered ≡ c) }
        ensures authors { IfOk result (λ core. core.authors ≡ []) }
        ensures stands { IfOk result (λ core. CoreStands core) }
    {
        Ok(Core::of(alloc, Snapshot::opened(alloc, entries, roots, c)?))
    }

    /// The latest value of the database.
    pub fn snapshot(&self) -> &Snapshot
        ensures snapshot { result.now ≡ self.now.snapshot }
        ensures stands { CoreStands self.now }
    {
        &self.parts.snapshot
    }

    /// The t of the last entry.
    pub fn basis(&self) -> u32
        ensures basis { result ≡ basis self.now.snapshot.entries }
        ensures stands { CoreStands self.now }
    {
        self.snapshot().basis()
    }

    /// The t of the last entry that the trees are of.
    pub fn covered(&self) -> u32
        ensures covered { result ≡ self.now.snapshot.covered }
        ensures stands { CoreStands self.now }
    {
        self.snapshot().covered()
    }

    /// Whether so many datoms are live that they are to be merged into the trees.
    pub fn due(&self, merge_at: u64) -> bool
        ensures { result ≡ nat_le merge_at (live_datoms self.now.snapshot.live) }
    {
        self.snapshot().live_len() >= merge_at
    }

    /// Its parts, where it is not needed any longer.
    pub fn into_parts(self) -> CoreParts
        ensures { result ≡ self }
    {
        self.parts
    }
}
