//! What grows with each entry, the schema and the live lists, beside trees that stay.
ghost use Rattle.std.specs.Prelude.{◌≡◌, ◌++◌, ◌∷◌, ◌<◌, ◌≤◌, [], List, IfOk, length, take};
ghost use Rattle.fb_values.specs.declared.facts.Entry.{Entry};
ghost use Rattle.fb_values.specs.declared.indexes.Order.{Order};
ghost use Rattle.fb_values.specs.declared.indexes.Order.TheVariants.{Aevt};
ghost use Rattle.fb_values.specs.Lists.{list_in};
ghost use Rattle.fb_values.specs.Rising.{IsRising};
ghost use Rattle.fb_model.specs.History.{upto};
ghost use Rattle.fb_model.specs.Lawful.{IsLawful};
ghost use Rattle.view_model.specs.Stands.{LiveStands};
ghost use Rattle.fb_schema.specs.Described.{SchemaStands};
ghost use Rattle.live_index.specs.Standing.{IsNext};
ghost use Rattle.seg_tree.specs.Indexes.{tree_in};
ghost use Rattle.seg_tree.specs.Nodes.{tree_datoms};

use crate::replaying::{Replay, refill_of};
use crate::sorting::in_avet;
use fact_trees::facts_of;
use fb_chunks::Shared;
use fb_covers::Covers;
use fb_history::EntryList;
use fb_index::{push_live, push_older};
use fb_memory::Memory;
use fb_schema::{Schema, changes_schema};
use fb_values::{Datom, Entry, Order, Probe};
use live_index::{
    Live, next_entries_bring_no_twins, next_entries_may_follow, next_entries_may_follow_a_refill,
};
use seg_tree::Roots;
use std::alloc::Global;

/// The indexes of the entries up to one of them.
#[derive(Drop)]
pub struct Older {
    pub roots: Roots,
    /// The trees of what holds by those.
    pub facts: Roots,
    /// Which attributes the trees hold.
    pub held: Covers,
    /// The t of the last entry that they are of.
    pub covered: u32,
}

/// The schema of a whole history, and what its indexes hold besides the trees.
#[derive(Drop)]
pub struct Recent {
    pub schema: Schema,
    pub live: Live,
}

impl Older {
    ghost use Rattle.fb_view.specs.SnapshotModel.{AreFacts};

    /// With the trees of what holds.
    pub fn of(
        alloc: Global,
        roots: Roots,
        held: Covers,
        covered: u32,
    ) -> Result<Shared<Older>, Memory>
        requires { (order : Order) → IsRising order (tree_datoms (tree_in roots order)) }
        ensures roots { IfOk result (λ older. older.roots ≡ roots) }
        ensures facts { IfOk result (λ older. AreFacts older.roots older.facts) }
        ensures held { IfOk result (λ older. older.held ≡ held) }
        ensures covered { IfOk result (λ older. older.covered ≡ covered) }
    {
        let facts = facts_of(alloc, &roots)?;
        let older = Older {
            roots,
            facts,
            held,
            covered,
        };
        Shared::new(alloc, older)
    }
}

impl Recent {
    ghost use Rattle.fb_covers.specs.Coverage.{Coverage};
    ghost use Rattle.fb_schema.specs.Tables.{HasCoverage};
    ghost use Rattle.fb_view.specs.declared.growth.Older.{Older};
    ghost use Rattle.fb_view.specs.SnapshotModel.{model_snapshot, Stands, AreWhole, Follows};
    ghost use Rattle.fb_view.specs.Refills.{missed, all_missed};

    /// Nothing is live where the trees hold the whole history.
    pub fn fresh(alloc: Global, schema: Schema) -> Recent
        ensures empty { (order : Order) → list_in result.live order ≡ [] }
        ensures stands { (h : List Entry) (older : Older) → SchemaStands schema h → AreWhole h older
            → Stands (model_snapshot h result older) }
    {
        Recent {
            schema,
            live: Live::empty(alloc),
        }
    }

    /// With the entry that comes next, where the trees stay.
    pub fn with(&self, alloc: Global, older: &Older, entry: &Entry) -> Result<Recent, Memory>
        requires { (h : List Entry) × Follows h self.now older.now entry.now }
        ensures { IfOk result (λ new. (h : List Entry) → Follows h self.now older.now entry.now
            → Stands (model_snapshot (h ++ entry.now ∷ []) new older.now)) }
    {
        let schema = self.schema.of_entry(entry)?;
        let live = self.grown(alloc, older, entry, &schema)?;
        Ok(Recent { schema, live })
    }

    /// With the entries from this one on, one after the other, where the trees stay.
    pub fn with_each(
        &self,
        alloc: Global,
        older: &Older,
        entries: &EntryList,
        from: u32,
    ) -> Result<Recent, Memory>
        requires lawful { IsLawful entries.now }
        requires from { (0 < from) × (from ≤ length entries.now) }
        requires stands { Stands (model_snapshot (take from entries.now) self.now older.now) }
        ensures { IfOk result (λ new. Stands (model_snapshot entries.now new older.now)) }
    {
        let mut recent = self.share()?;
        for t in from..entries.len() {
            recent = recent.with(alloc, older, entries.at(t))?;
        }
        Ok(recent)
    }

    fn share(&self) -> Result<Recent, Memory>
        ensures { IfOk result (λ new. new ≡ self.now) }
    {
        let schema = self.schema.share()?;
        let live = self.live.share()?;
        Ok(Recent { schema, live })
    }

    /// With those of the entries that come after the ones of the trees. What these say is sorted, once for each order: of n
    /// datoms that takes n log n comparisons.
    pub fn replayed(
        self,
        alloc: Global,
        older: &Older,
        entries: &EntryList,
    ) -> Result<Recent, Memory>
        requires lawful { IsLawful entries.now }
        requires within { older.now.covered < length entries.now }
        requires stands { Stands (model_snapshot (upto entries.now older.now.covered) self older.now) }
        ensures { IfOk result (λ new. Stands (model_snapshot entries.now new older.now)) }
    {
        let replay = Replay::behind(alloc, &self.schema, entries, older.covered)?;
        let (before, after) = (self.schema.covers(), replay.schema.covers());
        let refill = refill_of(alloc, older, after, &replay.gained)?;
        let live = self.live.made_anew(&replay.said, before, after, &refill)?;
        let schema = replay.schema;
        Ok(Recent { schema, live })
    }

    /// The live lists with the entry.
    fn grown(
        &self,
        alloc: Global,
        older: &Older,
        entry: &Entry,
        after: &Schema,
    ) -> Result<Live, Memory>
        requires follows { (h : List Entry) × Follows h self.now older.now entry.now }
        requires schema { (h : List Entry) → SchemaStands self.now.schema h
            → SchemaStands after.now (h ++ entry.now ∷ []) }
        ensures { IfOk result (λ live. (h : List Entry) → Follows h self.now older.now entry.now
            → LiveStands live (h ++ entry.now ∷ []) older.now.covered) }
    {
        next_entries_may_follow();
        if !changes_schema(entry) {
            return self.live.with_entry(entry, after.covers());
        }
        next_entries_bring_no_twins();
        next_entries_may_follow_a_refill();
        let refill = self.refill(alloc, older, entry, after)?;
        let before = self.schema.covers();
        self.live
            .with_schema_entry(entry, before, after.covers(), &refill)
    }

    /// The older datoms that AVET is to have with the entry and has not had before.
    fn refill(
        &self,
        alloc: Global,
        older: &Older,
        entry: &Entry,
        after: &Schema,
    ) -> Result<Vec<Datom>, Memory>
        requires follows { (h : List Entry) × Follows h self.now older.now entry.now }
        requires schema { (h : List Entry) → SchemaStands self.now.schema h
            → SchemaStands after.now (h ++ entry.now ∷ []) }
        ensures { IfOk result (λ refill. (h : List Entry) (coverage : Coverage)
            → Follows h self.now older.now entry.now → HasCoverage coverage after.now
            → IsNext h older.now.covered entry.now coverage refill.items) }
    {
        let gained = self.schema.gained(after, entry)?;
        let missed = self.missed(alloc, older, &gained)?;
        in_avet(alloc, &missed, after.covers())
    }

    /// The attributes' datoms that no tree of AVET has.
    fn missed(&self, alloc: Global, older: &Older, attributes: &[u64]) -> Result<Vec<Datom>, Memory>
        requires { IsRising Aevt (tree_datoms older.now.roots.aevt) }
        ensures { IfOk result
            (λ found. found.items ≡ all_missed self.now older.now attributes.now) }
    {
        let mut found = Vec::new(alloc);
        for a in attributes {
            self.push_missed(&mut found, older, *a)?;
        }
        Ok(found)
    }

    fn push_missed(&self, found: &mut Vec<Datom>, older: &Older, a: u64) -> Result<(), Memory>
        requires { IsRising Aevt (tree_datoms older.now.roots.aevt) }
        ensures { IfOk result
            (λ _. found.new.items ≡ found.old.items ++ missed self.now older.now a) }
    {
        let probe = Probe {
            order: Order::Aevt,
            e: None,
            a: Some(a),
            v: None,
            t: None,
        };
        push_live(found, &self.live, &probe)?;
        if older.held.holds(Order::Avet, a) {
            return Ok(());
        }
        push_older(found, &older.roots.aevt, &probe)
    }
}
