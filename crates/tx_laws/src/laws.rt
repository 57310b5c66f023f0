//! The nine laws in their order. Each is judged where none before it is broken.
ghost use Rattle.std.specs.Prelude.{◌≡◌, ◌&&◌, ◌∷◌, [], List, IfOk};
ghost use Rattle.fb_values.specs.declared.facts.Entry.{Entry};
ghost use Rattle.fb_model.specs.Laws as model;
ghost use Rattle.fb_model.specs.Lawful.{IsLawful, least_law, first_broken};
ghost use Rattle.fb_schema.specs.Described.{SchemaStands};
ghost use Rattle.tx_after.specs.After.{AreChanges};
ghost use Rattle.tx_laws.specs.Own.{IsLatestOf, is_fit as model_is_fit, keeps_own_laws as model_keeps_own_laws};

use crate::altered::altered_by;
use crate::attributes::{are_allowed, keeps_attributes, keeps_names_and_instants};
use crate::datoms::{
    are_installed, are_typed, has_changes_alone, has_datoms_in_order, has_later_instant, has_next_t,
};
use crate::latest::Latest;
use crate::numbers::has_known_numbers;
use crate::values::{has_one_holder_each, has_one_value_each};
use fb_facts::Facts;
use fb_memory::Memory;
use fb_schema::Schema;
use fb_values::Entry;
use std::alloc::Global;

/// The least law that the entry breaks where it follows the history, from 1 to 9, or none. The datoms may be any.
pub fn lawful<F: Facts>(
    alloc: Global,
    entry: &Entry,
    facts: &F,
    schema: &Schema,
) -> Result<Option<u8>, Memory>
    requires stands { SchemaStands schema.now (F.history facts.now) }
    requires lawful { IsLawful (F.history facts.now) }
    ensures { IfOk result (λ law. law ≡ least_law (F.history facts.now) entry.now) }
{
    let latest = Latest::of(facts);
    if !has_next_t(entry, &latest) {
        return Ok(Some(1));
    }
    if !has_later_instant(entry, &latest) {
        return Ok(Some(2));
    }
    let are_known = are_known(alloc, entry, &latest, schema)?;
    if !are_known {
        return Ok(Some(3));
    }
    if !are_typed(schema, entry.datoms.as_slice()) {
        return Ok(Some(4));
    }
    if !has_datoms_in_order(entry) {
        return Ok(Some(5));
    }
    lawful_in_order(alloc, entry, facts, schema)
}

/// Whether the entry keeps what the laws ask of it without the facts of its history: the first five laws, and of the ninth
/// what changes, names and instants it may record.
pub fn keeps_own_laws(
    alloc: Global,
    entry: &Entry,
    latest: &Latest,
    schema: &Schema,
) -> Result<bool, Memory>
    ensures { IfOk result (λ keeps. (h : List Entry) → IsLatestOf latest.now h
        → SchemaStands schema.now h → keeps ≡ model_keeps_own_laws h entry.now) }
{
    if !is_fit(entry, latest, schema) {
        return Ok(false);
    }
    are_known(alloc, entry, latest, schema)
}

/// The same but for law 3.
fn is_fit(entry: &Entry, latest: &Latest, schema: &Schema) -> bool
    ensures { (h : List Entry) → IsLatestOf latest.now h → SchemaStands schema.now h
        → result ≡ model_is_fit h entry.now }
{
    let datoms = entry.datoms.as_slice();
    has_next_t(entry, latest)
        && has_later_instant(entry, latest)
        && has_datoms_in_order(entry)
        && are_typed(schema, datoms)
        && are_allowed(schema, datoms)
        && keeps_names_and_instants(entry, datoms)
}

/// Law 3: whether each number is that of an entity, and each attribute is installed.
fn are_known(alloc: Global, entry: &Entry, latest: &Latest, schema: &Schema) -> Result<bool, Memory>
    ensures { IfOk result (λ are. (h : List Entry) → IsLatestOf latest.now h
        → SchemaStands schema.now h
        → are ≡ (model.has_known_numbers h entry.now && model.has_installed_attributes h entry.now)) }
{
    let are_known = has_known_numbers(alloc, entry, latest)?;
    Ok(are_known && are_installed(schema, entry.datoms.as_slice()))
}

/// The least law that it breaks from the sixth on, where its datoms are in order.
fn lawful_in_order<F: Facts>(
    alloc: Global,
    entry: &Entry,
    facts: &F,
    schema: &Schema,
) -> Result<Option<u8>, Memory>
    requires stands { SchemaStands schema.now (F.history facts.now) }
    requires lawful { IsLawful (F.history facts.now) }
    requires changes { AreChanges entry.now.datoms }
    ensures { IfOk result (λ law. law
        ≡ first_broken 6 (model.has_changes_alone (F.history facts.now) entry.now
        ∷ model.has_one_value_each (F.history facts.now) entry.now
        ∷ model.has_one_holder_each (F.history facts.now) entry.now
        ∷ (model.has_whole_attributes (F.history facts.now) entry.now
        && model.has_allowed_changes (F.history facts.now) entry.now
        && model.has_no_reserved_names (F.history facts.now) entry.now
        && model.has_own_instant_alone (F.history facts.now) entry.now)
        ∷ [])) }
{
    let datoms = entry.datoms.as_slice();
    if !has_changes_alone(facts, datoms) {
        return Ok(Some(6));
    }
    let altered = altered_by(alloc, facts, schema, datoms)?;
    let has_one_value = has_one_value_each(alloc, facts, schema, &altered, datoms)?;
    if !has_one_value {
        return Ok(Some(7));
    }
    let has_one_holder = has_one_holder_each(alloc, facts, schema, &altered, datoms)?;
    if !has_one_holder {
        return Ok(Some(8));
    }
    if !keeps_attributes(entry, schema, &altered) {
        return Ok(Some(9));
    }
    Ok(None)
}
