//! How snapshots come about: the first one, one with an entry more, one over newer trees, and one of a history that was read.
ghost use Rattle.std.specs.Prelude.{◌≡◌, [], ◌∷◌, ◌++◌, ◌<◌, IfOk, length};
ghost use Rattle.std.specs.List.{range_with_len};
ghost use Rattle.fb_values.specs.Lists.{list_in};
ghost use Rattle.fb_values.specs.declared.indexes.Order.{Order};
ghost use Rattle.fb_model.specs.FirstEntry.{first_entry};
ghost use Rattle.fb_model.specs.History.{basis, upto};
ghost use Rattle.fb_model.specs.Lawful.{IsLawful, IsLawfulAfter};
ghost use Rattle.view_model.specs.Stands.{RootStands};
ghost use Rattle.fb_schema.specs.Described.{SchemaStands};
ghost use Rattle.seg_tree.specs.Indexes.{root_ids, trees_of};
ghost use Rattle.fb_view.specs.SnapshotModel.{Stands};

use crate::growth::{Older, Recent};
use crate::snapshot::{Parts, Snapshot};
use crate::sorting::trees;
use fb_chunks::Share;
use fb_history::EntryList;
use fb_memory::Memory;
use fb_schema::Schema;
use fb_values::Entry;
use seg_tree::Roots;
use std::alloc::Global;

impl Snapshot {
    /// The database value that has the built-in schema alone. Its trees hold all of it.
    pub fn first(alloc: Global) -> Result<Snapshot, Memory>
        ensures entries { IfOk result (λ s. s.entries ≡ first_entry ∷ []) }
        ensures covered { IfOk result (λ s. s.covered ≡ 0) }
        ensures ids { IfOk result
            (λ s. root_ids s.roots ≡ range_with_len 1 (length (root_ids s.roots))) }
        ensures live { IfOk result (λ s. (order : Order) → list_in s.live order ≡ []) }
        ensures stands { IfOk result (λ s. Stands s) }
    {
        let entries = EntryList::first(alloc)?;
        let first = entries.at(0);
        let schema = Schema::first(alloc, first)?;
        let covers = schema.covers();
        let roots = trees(alloc, first.datoms.as_slice(), covers)?;
        let held = covers.share()?;
        let older = Older::of(alloc, roots, held, 0)?;
        let recent = Recent::fresh(alloc, schema);
        Snapshot::of(
            alloc,
            Parts {
                entries,
                recent,
                older,
            },
        )
    }

    /// With the entry that comes next, over the same trees.
    pub fn with_entry(&self, entry: Entry) -> Result<Snapshot, Memory>
        requires { IsLawfulAfter self.now.entries entry }
        ensures entries { IfOk result (λ s. s.entries ≡ self.now.entries ++ entry ∷ []) }
        ensures roots { IfOk result (λ s. s.roots ≡ self.now.roots) }
        ensures covered { IfOk result (λ s. s.covered ≡ self.now.covered) }
        ensures stands { IfOk result (λ s. Stands s) }
    {
        let alloc = self.alloc();
        let parts = self.parts();
        let older = parts.older.share()?;
        let recent = parts.recent.with(alloc, older.get(), &entry)?;
        let entries = parts.entries.with(entry)?;
        Snapshot::of(
            alloc,
            Parts {
                entries,
                recent,
                older,
            },
        )
    }

    /// The entries of a later one over the same trees. Only what came since is added.
    pub fn caught_up(&self, latest: &Snapshot) -> Result<Snapshot, Memory>
        requires begins { upto latest.now.entries (basis self.now.entries) ≡ self.now.entries }
        ensures entries { IfOk result (λ s. s.entries ≡ latest.now.entries) }
        ensures roots { IfOk result (λ s. s.roots ≡ self.now.roots) }
        ensures covered { IfOk result (λ s. s.covered ≡ self.now.covered) }
        ensures stands { IfOk result (λ s. Stands s) }
    {
        let alloc = self.alloc();
        let parts = self.parts();
        let older = parts.older.share()?;
        let entries = latest.entries().share()?;
        let from = parts.entries.len();
        let recent = parts.recent.with_each(alloc, older.get(), &entries, from)?;
        Snapshot::of(
            alloc,
            Parts {
                entries,
                recent,
                older,
            },
        )
    }

    /// The same entries over trees that were made of those of an older snapshot. What came since is live, of the older
    /// one's schema on.
    pub fn rebased(&self, begin: &Snapshot, roots: Roots) -> Result<Snapshot, Memory>
        requires begins { upto self.now.entries (basis begin.now.entries) ≡ begin.now.entries }
        requires roots { RootStands (trees_of roots) begin.now.entries (basis begin.now.entries) }
        ensures entries { IfOk result (λ s. s.entries ≡ self.now.entries) }
        ensures roots { IfOk result (λ s. s.roots ≡ roots) }
        ensures covered { IfOk result (λ s. s.covered ≡ basis begin.now.entries) }
        ensures stands { IfOk result (λ s. Stands s) }
    {
        let entries = self.entries().share()?;
        let schema = begin.schema().share()?;
        replayed(self.alloc(), entries, schema, roots, begin.basis())
    }

    /// The database value of a history that was read, with trees of its entries up to `c`.
    pub fn opened(
        alloc: Global,
        entries: EntryList,
        roots: Roots,
        c: u32,
    ) -> Result<Snapshot, Memory>
        requires lawful { IsLawful entries }
        requires roots { RootStands (trees_of roots) entries c }
        ensures entries { IfOk result (λ s. s.entries ≡ entries) }
        ensures roots { IfOk result (λ s. s.roots ≡ roots) }
        ensures covered { IfOk result (λ s. s.covered ≡ c) }
        ensures stands { IfOk result (λ s. Stands s) }
    {
        let schema = schema_at(alloc, &entries, c)?;
        replayed(alloc, entries, schema, roots, c)
    }
}

/// The entries over trees of those up to `c`, where the schema is that after entry `c`.
fn replayed(
    alloc: Global,
    entries: EntryList,
    schema: Schema,
    roots: Roots,
    c: u32,
) -> Result<Snapshot, Memory>
    requires lawful { IsLawful entries }
    requires roots { RootStands (trees_of roots) entries c }
    requires schema { SchemaStands schema (upto entries c) }
    ensures entries { IfOk result (λ s. s.entries ≡ entries) }
    ensures roots { IfOk result (λ s. s.roots ≡ roots) }
    ensures covered { IfOk result (λ s. s.covered ≡ c) }
    ensures stands { IfOk result (λ s. Stands s) }
{
    let held = schema.covers().share()?;
    let older = Older::of(alloc, roots, held, c)?;
    let recent = Recent::fresh(alloc, schema).replayed(alloc, older.get(), &entries)?;
    Snapshot::of(
        alloc,
        Parts {
            entries,
            recent,
            older,
        },
    )
}

/// The schema after entry `c`.
fn schema_at(alloc: Global, entries: &EntryList, c: u32) -> Result<Schema, Memory>
    requires { c < length entries.now }
    ensures { IfOk result (λ schema. SchemaStands schema (upto entries.now c)) }
{
    // So c + 1 is a t.
    let _len = entries.len();
    let mut schema = Schema::first(alloc, entries.at(0))?;
    for t in 1..c + 1 {
        schema = schema.of_entry(entries.at(t))?;
    }
    Ok(schema)
}
