//! The rows of an index after an entry: those of its entities anew, and the others shared.
ghost use Rattle.std.specs.Prelude.{◌≡◌, ◌↔◌, ◌++◌, ◌∷◌, [], ℕ, IfOk, OnOk, map, not, if◌then◌else◌, Contains, IsTrue, is_some};
ghost use Rattle.std.specs.List.{list_any};
ghost use Rattle.std.specs.List.Sorted.{IsStrictlyIncreasing, IsPermutation};
ghost use Rattle.fb_model.specs.Facts.{facts, values_of as model_values_of};
ghost use Rattle.fb_model.specs.Lawful.{IsLawfulAfter};
ghost use Rattle.tuple_model.specs.Tuples.{AreTuples, least_value, tuple_of as model_tuple_of};
ghost use Rattle.tx_after.specs.After.{AreChanges, after};
ghost use Rattle.fb_tuples.specs.Indexed.{is_named as model_is_named, rows_of_others, rows_anew};

use crate::kept::{Row, cmp_rows};
use crate::rows::keep_each_once;
use fb_chunks::Share;
use fb_memory::Memory;
use fb_values::{Datom, Entry, Value};
use fb_view::Snapshot;
use std::alloc::Global;
use tx_after::{datoms_in_order_are_changes, values_of};

/// The rows of the history with the entry. Most of them are in order already, so that sorting takes one comparison for
/// each of these.
pub fn renewed(
    alloc: Global,
    rows: &[Row],
    attrs: &[u64],
    before: &Snapshot,
    entry: &Entry,
) -> Result<Vec<Row>, Memory>
    requires stands { AreTuples (facts before.now.entries) attrs.now rows.now }
    requires lawful { IsLawfulAfter before.now.entries entry.now }
    ensures { IfOk result
        (λ new. AreTuples (facts (before.now.entries ++ entry.now ∷ [])) attrs.now new.items) }
{
    datoms_in_order_are_changes();
    let changes = entry.datoms.as_slice();
    let entities = entities_of(alloc, changes)?;
    let mut new = others(alloc, rows, &entities)?;
    push_anew(alloc, &mut new, before, changes, attrs, &entities)?;
    new.sort_by(cmp_rows)?;
    Ok(new)
}

/// The entities of the changes, each once.
fn entities_of(alloc: Global, changes: &[Datom]) -> Result<Vec<u64>, Memory>
    ensures rising { IfOk result (λ entities. IsStrictlyIncreasing entities.items) }
    ensures members { IfOk result (λ entities. (e : ℕ)
        → Contains (map (λ d. d.e) changes.now) e ↔ Contains entities.items e) }
{
    let mut entities = Vec::with_capacity(alloc, changes.len())?;
    for d in changes {
        entities.push(d.e)?;
    }
    keep_each_once(&mut entities);
    Ok(entities)
}

/// The rows of other entities, which are shared.
fn others(alloc: Global, rows: &[Row], entities: &[u64]) -> Result<Vec<Row>, Memory>
    requires { IsStrictlyIncreasing entities.now }
    ensures { IfOk result (λ others. others.items ≡ rows_of_others entities.now rows.now) }
{
    let mut others = Vec::with_capacity(alloc, rows.len())?;
    for row in rows {
        if !is_named(entities, row.e()) {
            others.push(row.share()?)?;
        }
    }
    Ok(others)
}

/// Whether the entity is one of them.
fn is_named(entities: &[u64], e: u64) -> bool
    requires { IsStrictlyIncreasing entities.now }
    ensures { result ≡ model_is_named entities.now e }
{
    entities.binary_search(&e).is_ok()
}

// ---- the rows of the entry's entities

/// The rows of those entities that have a value after the changes.
fn push_anew(
    alloc: Global,
    rows: &mut Vec<Row>,
    before: &Snapshot,
    changes: &[Datom],
    attrs: &[u64],
    entities: &[u64],
) -> Result<(), Memory>
    requires { AreChanges changes.now }
    ensures { OnOk result (rows.new.items
        ≡ rows.old.items ++ rows_anew (after before.now.entries changes.now) attrs.now entities.now) }
{
    for e in entities {
        let tuple = tuple_of(alloc, before, changes, attrs, *e)?;
        push_row(alloc, rows, tuple, *e)?;
    }
    Ok(())
}

/// Pushes the row of the entity if it has a value.
fn push_row(
    alloc: Global,
    rows: &mut Vec<Row>,
    tuple: Vec<Option<Value>>,
    e: u64,
) -> Result<(), Memory>
    ensures { OnOk result (rows.new.items
        ≡ rows.old.items
        ++ (if list_any is_some tuple.items then record { tuple = tuple.items; e = e } ∷ [] else [])) }
{
    if has_value(&tuple) {
        rows.push(Row::new(alloc, tuple, e)?)?;
    }
    Ok(())
}

fn has_value(tuple: &[Option<Value>]) -> bool
    ensures { result ≡ list_any is_some tuple.now }
{
    tuple.iter().any(|member| member.is_some())
}

fn tuple_of(
    alloc: Global,
    before: &Snapshot,
    changes: &[Datom],
    attrs: &[u64],
    e: u64,
) -> Result<Vec<Option<Value>>, Memory>
    requires { AreChanges changes.now }
    ensures { IfOk result (λ tuple. tuple.items
        ≡ model_tuple_of (after before.now.entries changes.now) attrs.now e) }
{
    let mut tuple = Vec::with_capacity(alloc, attrs.len())?;
    for a in attrs {
        tuple.push(member(alloc, before, changes, e, *a)?)?;
    }
    Ok(tuple)
}

/// The least value of the entity under the attribute after the changes.
fn member(
    alloc: Global,
    before: &Snapshot,
    changes: &[Datom],
    e: u64,
    a: u64,
) -> Result<Option<Value>, Memory>
    requires { AreChanges changes.now }
    ensures { IfOk result (λ member. member
        ≡ least_value (model_values_of (after before.now.entries changes.now) e a)) }
{
    let values = values_of(alloc, before, changes, e, a)?;
    match values.first() {
        Some(least) => Ok(Some(least.copy()?)),
        None => Ok(None),
    }
}
