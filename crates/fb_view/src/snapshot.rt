//! The snapshot and its parts.
ghost use Rattle.std.specs.Prelude.{◌≡◌, ◌+◌, length, min, IfOk};
ghost use Rattle.fb_values.specs.Lists.{list_in};
ghost use Rattle.fb_model.specs.History.{basis};
ghost use Rattle.fb_view.specs.SnapshotModel.{Stands};

use crate::growth::{Older, Recent};
use fb_chunks::Shared;
use fb_covers::Covers;
use fb_history::EntryList;
use fb_memory::Memory;
use fb_schema::Schema;
use fb_values::Order;
use live_index::Live;
use seg_tree::Roots;
use std::alloc::Global;
use std::marker::Model;
use std::sync::Arc;

/// What a snapshot keeps.
#[derive(Drop)]
pub struct Parts {
    pub entries: EntryList,
    pub recent: Recent,
    /// One count for all trees, since each entry makes a new value over the same ones.
    pub older: Shared<Older>,
}

impl Model for Parts {
    ghost use Rattle.fb_view.specs.SnapshotModel.{SnapshotModel, model_snapshot, Stands};

    ghost Value = { SnapshotModel };

    ghost view = { λ p. model_snapshot p.entries p.recent p.older };

    ghost invariant = { λ p. Stands (model_snapshot p.entries p.recent p.older) };
}

/// A database value at a point. All of it is shared: a copy is one reference count.
#[derive(Drop)]
pub struct Snapshot {
    alloc: Global,
    parts: Arc<Parts>,
}

impl Model for Snapshot {
    ghost use Rattle.std.specs.Arc.{arc_value};
    ghost use Rattle.fb_view.specs.SnapshotModel.{SnapshotModel};

    ghost Value = { SnapshotModel };

    ghost view = { λ s. arc_value s.parts };
}

impl Snapshot {
    pub(crate) fn of(alloc: Global, parts: Parts) -> Result<Snapshot, Memory>
        ensures parts { IfOk result (λ s. s ≡ parts) }
        ensures stands { IfOk result (λ s. Stands s) }
    {
        let _ = &parts.entries;
        let parts = Arc::new(alloc, parts)?;
        Ok(Snapshot { alloc, parts })
    }

    pub(crate) fn alloc(&self) -> Global {
        self.alloc
    }

    pub(crate) fn parts(&self) -> &Parts
        ensures parts { result.now ≡ self.now }
        ensures stands { Stands self.now }
    {
        let parts: &Parts = &self.parts;
        let _ = &parts.entries;
        parts
    }

    /// The same value, at the cost of a reference count.
    pub fn share(&self) -> Result<Snapshot, Memory>
        ensures { IfOk result (λ s. s ≡ self.now) }
    {
        let parts = self.parts.clone()?;
        Ok(Snapshot {
            alloc: self.alloc,
            parts,
        })
    }

    /// The t of its last entry.
    pub fn basis(&self) -> u32
        ensures basis { result ≡ basis self.now.entries }
        ensures stands { Stands self.now }
    {
        self.entries().len() - 1
    }

    /// The t of the last entry that the trees are of.
    pub fn covered(&self) -> u32
        ensures covered { result ≡ self.now.covered }
        ensures stands { Stands self.now }
    {
        self.parts().older.get().covered
    }

    pub fn entries(&self) -> &EntryList
        ensures entries { result.now ≡ self.now.entries }
        ensures stands { Stands self.now }
    {
        &self.parts().entries
    }

    pub fn schema(&self) -> &Schema
        ensures schema { result.now ≡ self.now.schema }
        ensures stands { Stands self.now }
    {
        &self.parts().recent.schema
    }

    pub fn live(&self) -> &Live
        ensures live { result.now ≡ self.now.live }
        ensures stands { Stands self.now }
    {
        &self.parts().recent.live
    }

    pub fn roots(&self) -> &Roots
        ensures roots { result.now ≡ self.now.roots }
        ensures stands { Stands self.now }
    {
        &self.parts().older.get().roots
    }

    /// Which attributes the trees hold.
    pub fn held(&self) -> &Covers
        ensures held { result.now ≡ self.now.held }
        ensures stands { Stands self.now }
    {
        &self.parts().older.get().held
    }

    /// How many datoms the four live lists have together, or the greatest number that there is.
    pub fn live_len(&self) -> u64
        ensures { result
            ≡ min
            (((length self.now.live.eavt + length self.now.live.aevt) + length self.now.live.avet)
            + length self.now.live.vaet)
            u64.MAX }
    {
        let live = self.live();
        let by_entity = len_in(live, Order::Eavt).saturating_add(len_in(live, Order::Aevt));
        let with_values = by_entity.saturating_add(len_in(live, Order::Avet));
        with_values.saturating_add(len_in(live, Order::Vaet))
    }
}

fn len_in(live: &Live, order: Order) -> u64
    ensures { result ≡ min (length (list_in live.now order)) u64.MAX }
{
    let holding = live.holding().len(order);
    holding.saturating_add(live.past().len(order))
}
