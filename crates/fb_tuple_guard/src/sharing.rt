//! Whether an entity of the changes shares its tuple with another one.
ghost use Rattle.std.specs.Prelude.{◌≡◌, ◌<◌, length, IsTrue, IfOk};
ghost use Rattle.std.specs.List.{list_any};
ghost use Rattle.tx_after.specs.After.{AreChanges};
ghost use Rattle.tuple_model.specs.Tuples.{tuple_of};
ghost use Rattle.tuple_model.specs.UniqueTuples.{is_whole as model_is_whole, is_shared_by, are_shared as model_are_shared};
ghost use Rattle.fb_tuple_guard.specs.Sharing.{facts_after, has_value as model_has_value};
ghost use Rattle.fb_tuple_guard.specs.Sought.{is_shared_after, IsSought, is_met};

use crate::holders::{facts_with, place_held};
use crate::tuples::{Tuples, is_same, is_whole};
use fb_memory::Memory;
use fb_values::{Datom, Value};

/// An entity with its tuple, and the member by which others are looked for.
#[derive(Clone, Copy, Drop)]
pub struct Sought<'a> {
    pub e: u64,
    pub tuple: &'a [Option<Value>],
    pub a: u64,
    pub v: &'a Value,
}

/// Whether an entity of the changes shares its tuple. Entities rise in the changes, so each is asked once.
pub fn are_shared(tuples: &Tuples<'_>) -> Result<bool, Memory>
    requires changes { AreChanges tuples.now.changes.now }
    requires some { 0 < length tuples.now.attrs.now }
    ensures { IfOk result (λ b. b
        ≡ model_are_shared (facts_after tuples.now) tuples.now.changes.now tuples.now.attrs.now) }
{
    let mut last = None;
    for d in tuples.changes {
        if last != Some(d.e) {
            if is_shared(tuples, d.e)? {
                return Ok(true);
            }
            last = Some(d.e);
        }
    }
    Ok(false)
}

/// Whether the entity's tuple is whole, and another one's too.
fn is_shared(tuples: &Tuples<'_>, e: u64) -> Result<bool, Memory>
    requires changes { AreChanges tuples.now.changes.now }
    requires some { 0 < length tuples.now.attrs.now }
    ensures { IfOk result (λ b. b ≡ is_shared_after tuples.now e) }
{
    let tuple = tuples.of(e)?;
    if !is_whole(&tuple) {
        return Ok(false);
    }
    is_another_with(tuples, e, &tuple)
}

/// Whether another entity has the tuple.
fn is_another_with(tuples: &Tuples<'_>, e: u64, tuple: &[Option<Value>]) -> Result<bool, Memory>
    requires changes { AreChanges tuples.now.changes.now }
    requires some { 0 < length tuples.now.attrs.now }
    requires tuple { tuple.now ≡ tuple_of (facts_after tuples.now) tuples.now.attrs.now e }
    requires whole { IsTrue (model_is_whole tuple.now) }
    ensures { IfOk result (λ b. b ≡ is_shared_after tuples.now e) }
{
    let place = place_held(tuples.before.schema(), tuples.attrs);
    match &tuple[place] {
        Some(v) => is_found(
            tuples,
            &Sought {
                e,
                tuple,
                a: tuples.attrs[place],
                v,
            },
        ),
        // No member is nil.
        None => Ok(false),
    }
}

/// Whether another entity has the tuple: it had the member before, or is given it by the changes.
fn is_found(tuples: &Tuples<'_>, sought: &Sought<'_>) -> Result<bool, Memory>
    requires changes { AreChanges tuples.now.changes.now }
    requires sought { IsSought tuples.now sought.now }
    ensures { IfOk result (λ b. b ≡ is_shared_after tuples.now sought.now.e) }
{
    let held = facts_with(tuples.alloc, tuples.before, sought.a, sought.v)?;
    if is_among(tuples, sought, held.as_slice())? {
        return Ok(true);
    }
    is_among(tuples, sought, tuples.changes)
}

/// Whether one of the datoms has the member and is of another entity that has the tuple.
fn is_among(tuples: &Tuples<'_>, sought: &Sought<'_>, datoms: &[Datom]) -> Result<bool, Memory>
    requires changes { AreChanges tuples.now.changes.now }
    requires sought { IsSought tuples.now sought.now }
    ensures { IfOk result (λ b. b ≡ list_any (is_met tuples.now sought.now) datoms.now) }
{
    for d in datoms {
        if has_value(d, sought.a, sought.v) && is_shared_with(tuples, sought, d.e)? {
            return Ok(true);
        }
    }
    Ok(false)
}

fn has_value(d: &Datom, a: u64, v: &Value) -> bool
    ensures { result ≡ model_has_value a v.now d.now }
{
    d.a == a && d.v == *v
}

/// Whether the entity is another one and has the tuple.
fn is_shared_with(tuples: &Tuples<'_>, sought: &Sought<'_>, other: u64) -> Result<bool, Memory>
    requires changes { AreChanges tuples.now.changes.now }
    requires sought { IsSought tuples.now sought.now }
    ensures { IfOk result (λ b. b
        ≡ is_shared_by (facts_after tuples.now) tuples.now.attrs.now sought.now.e other) }
{
    if sought.e == other {
        return Ok(false);
    }
    let tuple = tuples.of(other)?;
    Ok(is_same(sought.tuple, &tuple))
}
