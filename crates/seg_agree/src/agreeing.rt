//! Whether trees are the indexes of the first entries of a history.
ghost use Rattle.std.specs.Prelude.{◌≡◌, ◌↔◌, ◌<◌, length, IsTrue, IfOk};
ghost use Rattle.fb_values.specs.declared.indexes.Order.TheVariants.{Eavt, Aevt, Avet, Vaet};
ghost use Rattle.fb_model.specs.History.{said, upto};
ghost use Rattle.fb_model.specs.Lawful.{IsLawful};
ghost use Rattle.view_model.specs.Stands.{RootStands};
ghost use Rattle.fb_schema.specs.Described.{SchemaStands};
ghost use Rattle.seg_tree.specs.Indexes.{trees_of};
ghost use Rattle.seg_tree.specs.Nodes.{tree_datoms};
ghost use Rattle.seg_agree.specs.Indexes.{AreTotals, IsOfHistory, IsIndexOf, TreeStands, past};

use crate::index::Index;
use fb_covers::Covers;
use fb_history::EntryList;
use fb_memory::Memory;
use fb_schema::{Schema, schemas_tell_of_attributes};
use fb_values::Order;
use seg_tree::{Roots, Tree};
use std::alloc::Global;

/// Whether the trees are the indexes of the history's entries up to entry `c`. The totals are those of the history.
///
/// Most trees that are not are recognized by their number of datoms alone, and others at the first datom that the log says
/// otherwise. The schema after entry `c` is made only where the trees by entity agree: it costs less than their walk. A walk
/// compares each datom with the next one, and searches it in its entry. It takes no memory.
pub fn agrees(
    alloc: Global,
    entries: &EntryList,
    totals: &[u64],
    roots: &Roots,
    c: u32,
) -> Result<bool, Memory>
    requires lawful { IsLawful entries.now }
    requires totals { AreTotals totals.now entries.now }
    ensures { IfOk result (λ is. IsTrue is ↔ RootStands (trees_of roots.now) entries.now c) }
{
    if c >= entries.len() {
        return Ok(false);
    }
    let stands = by_entity(alloc, entries, roots, c, totals[c as usize])?;
    if !stands {
        return Ok(false);
    }
    by_value(alloc, entries, roots, c)
}

/// Whether EAVT and AEVT are. The entries up to `c` have so many datoms.
fn by_entity(
    alloc: Global,
    entries: &EntryList,
    roots: &Roots,
    c: u32,
    len: u64,
) -> Result<bool, Memory>
    requires lawful { IsLawful entries.now }
    requires within { c < length entries.now }
    requires len { len ≡ length (said (upto entries.now c)) }
    ensures { IfOk result (λ is. IsTrue is ↔ (TreeStands roots.now entries.now c Eavt
        × TreeStands roots.now entries.now c Aevt)) }
{
    // They hold every attribute, whatever the coverage is.
    let covers = Covers::of(alloc, Vec::new(alloc), Vec::new(alloc))?;
    let eavt = Index {
        entries,
        c,
        order: Order::Eavt,
        covers: &covers,
    };
    let aevt = Index {
        entries,
        c,
        order: Order::Aevt,
        covers: &covers,
    };
    Ok(eavt.is(&roots.eavt, len) && aevt.is(&roots.aevt, len))
}

/// Whether AVET and VAET are.
fn by_value(alloc: Global, entries: &EntryList, roots: &Roots, c: u32) -> Result<bool, Memory>
    requires lawful { IsLawful entries.now }
    requires within { c < length entries.now }
    ensures { IfOk result (λ is. IsTrue is ↔ (TreeStands roots.now entries.now c Avet
        × TreeStands roots.now entries.now c Vaet)) }
{
    schemas_tell_of_attributes();
    let schema = schema_at(alloc, entries, c)?;
    let avet = Index {
        entries,
        c,
        order: Order::Avet,
        covers: schema.covers(),
    };
    let vaet = Index {
        entries,
        c,
        order: Order::Vaet,
        covers: schema.covers(),
    };
    Ok(counted(&avet, &roots.avet)? && counted(&vaet, &roots.vaet)?)
}

/// Whether the index, whose datoms are counted first, is this tree.
fn counted(index: &Index<'_>, tree: &Tree) -> Result<bool, Memory>
    requires { IsOfHistory index.now }
    ensures { IfOk result
        (λ is. IsTrue is ↔ IsIndexOf (past index.now) index.now.order (tree_datoms tree.now)) }
{
    let len = index.len()?;
    Ok(index.is(tree, len))
}

/// The schema after entry `c`.
fn schema_at(alloc: Global, entries: &EntryList, c: u32) -> Result<Schema, Memory>
    requires { c < length entries.now }
    ensures { IfOk result (λ schema. SchemaStands schema (upto entries.now c)) }
{
    // So c + 1 is a t.
    let _len = entries.len();
    let mut schema = Schema::first(alloc, entries.at(0))?;
    for t in 1..c + 1 {
        schema = schema.of_entry(entries.at(t))?;
    }
    Ok(schema)
}
