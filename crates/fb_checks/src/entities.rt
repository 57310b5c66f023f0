//! Entities that lack what they are required to have.
ghost use Rattle.std.specs.Prelude.{◌≡◌, ◌&&◌, not, IfOk};
ghost use Rattle.std.specs.List.{list_any};
ghost use Rattle.fb_model.specs.Schema.{is_about};
ghost use Rattle.tx_after.specs.After.{AreChanges, after};
ghost use Rattle.fb_checks.specs.Checks.{has as model_has, lacks, need_of};

use crate::names::id_of;
use crate::tests::Need;
use fb_memory::Memory;
use fb_values::Datom;
use fb_view::Snapshot;
use std::alloc::Global;
use tx_after::{values_are_as_many, values_of};

/// The attributes of a need: of one that is not there nobody has a value.
#[derive(Clone, Copy)]
pub struct Asked {
    pub marker: Option<u64>,
    pub needed: Option<u64>,
}

/// Whether an entity of the changes lacks what one of the needs asks of it.
pub fn lacks_any(
    alloc: Global,
    needs: &[Need],
    before: &Snapshot,
    changes: &[Datom],
) -> Result<bool, Memory>
    requires { AreChanges changes.now }
    ensures { IfOk result (λ b. b ≡ list_any (λ need. list_any
        (λ d. lacks before.now.schema (after before.now.entries changes.now) d.e (need_of need))
        changes.now) needs.now) }
{
    for need in needs {
        if lacks_one(alloc, need, before, changes)? {
            return Ok(true);
        }
    }
    Ok(false)
}

fn lacks_one(
    alloc: Global,
    need: &Need,
    before: &Snapshot,
    changes: &[Datom],
) -> Result<bool, Memory>
    requires { AreChanges changes.now }
    ensures { IfOk result (λ b. b ≡ list_any
        (λ d. lacks before.now.schema (after before.now.entries changes.now) d.e (need_of need.now))
        changes.now) }
{
    let asked = Asked {
        marker: id_of(before.schema(), &need.marker),
        needed: id_of(before.schema(), &need.needed),
    };
    lacks_asked(alloc, before, changes, asked)
}

/// Whether an entity of the changes has the marker and not what it needs. Entities rise in the changes, so each is asked once.
fn lacks_asked(
    alloc: Global,
    before: &Snapshot,
    changes: &[Datom],
    asked: Asked,
) -> Result<bool, Memory>
    requires { AreChanges changes.now }
    ensures { IfOk result (λ b. b ≡ list_any
        (λ d. model_has (after before.now.entries changes.now) d.e asked.marker
        && not (model_has (after before.now.entries changes.now) d.e asked.needed)) changes.now) }
{
    let mut last = None;
    for d in changes {
        if last != Some(d.e) {
            if is_lacking(alloc, before, changes, d.e, asked)? {
                return Ok(true);
            }
            last = Some(d.e);
        }
    }
    Ok(false)
}

fn is_lacking(
    alloc: Global,
    before: &Snapshot,
    changes: &[Datom],
    e: u64,
    asked: Asked,
) -> Result<bool, Memory>
    requires { AreChanges changes.now }
    ensures { IfOk result (λ b. b
        ≡ (model_has (after before.now.entries changes.now) e asked.marker
        && not (model_has (after before.now.entries changes.now) e asked.needed))) }
{
    if !has(alloc, before, changes, e, asked.marker)? {
        return Ok(false);
    }
    Ok(!has(alloc, before, changes, e, asked.needed)?)
}

/// Whether the entity has a value of the attribute after the changes.
fn has(
    alloc: Global,
    before: &Snapshot,
    changes: &[Datom],
    e: u64,
    a: Option<u64>,
) -> Result<bool, Memory>
    requires { AreChanges changes.now }
    ensures { IfOk result (λ b. b ≡ model_has (after before.now.entries changes.now) e a) }
{
    match a {
        Some(a) => has_some(alloc, before, changes, e, a),
        None => Ok(false),
    }
}

fn has_some(
    alloc: Global,
    before: &Snapshot,
    changes: &[Datom],
    e: u64,
    a: u64,
) -> Result<bool, Memory>
    requires { AreChanges changes.now }
    ensures { IfOk result
        (λ b. b ≡ list_any (is_about e a) (after before.now.entries changes.now)) }
{
    values_are_as_many();
    let values = values_of(alloc, before, changes, e, a)?;
    Ok(!values.is_empty())
}
