//! What is wrong with lookup refs: each is judged once, and all names take what was found.
ghost use Rattle.std.specs.Prelude.{◌≡◌, ◌≤◌, ◌++◌, List, length, drop, map, slice_index_or, Some, IfOk};
ghost use Rattle.edn_model.specs.Form as edn;
ghost use Rattle.edn_form.specs.View.{form_of, forms_of, members};
ghost use Rattle.fb_numbers.specs.Numbers.{type_ref};
ghost use Rattle.fb_model.specs.Schema.{attribute_named};
ghost use Rattle.fb_schema.specs.Parts.{model_attribute};
ghost use Rattle.tx_model.specs.Asks as asks;
ghost use Rattle.tx_model.specs.NameRules as model;
ghost use Rattle.tx_model.specs.Values.{value_in};
ghost use Rattle.tx_asks.specs.declared.asks.LookupRef.{LookupRef as model_LookupRef};
ghost use Rattle.fb_values.specs.declared.facts.Datom.{Datom};
ghost use Rattle.tx_expand.specs.View.{model_name};
ghost use Rattle.tx_expand.specs.Faults.{no_name_faults, lookup_faults, lookups_faults, lookups_inside, ref_faults};

use crate::faults::NameFaults;
use edn_form::{Edn, Items};
use edn_values::{as_value, forms_of_other_types};
use fb_memory::Memory;
use fb_schema::{Attribute, Schema};
use fb_text::Text;
use fb_values::Value;
use tx_asks::{LookupRef, Name};
use tx_forms::lookup_in;

/// The plain value that the form is under the attribute, if it is one: an entity is none.
#[tactic(auto, using(crate::proofs::LookupRefs::no_plain_entity))]
pub fn plain_value(attribute: &Attribute, f: &Edn) -> Result<Option<Value>, Memory>
    ensures { IfOk result (λ v. v ≡ value_in attribute.now.kind (form_of f.now)) }
{
    if attribute.is_ref() {
        return Ok(None);
    }
    forms_of_other_types();
    as_value(attribute.kind, f)
}

/// Whether the form is no number, no ident and no lookup ref.
#[tactic(auto, using(crate::proofs::LookupRefs::wrong_vector))]
fn is_no_old_entity(attribute: &Attribute, value: &Edn) -> bool
    requires { attribute.now.kind ≡ type_ref }
    ensures { result ≡ model.is_wrong_lookup (form_of value.now) (model_attribute attribute.now) }
{
    match value {
        Edn::Int(n) => *n < 0,
        Edn::Key(_) => false,
        Edn::Vector(items) => lookup_in(items).is_none(),
        _ => true,
    }
}

/// Whether the value is none that the attribute may have already.
fn is_wrong_lookup(attribute: &Attribute, value: &Edn) -> Result<bool, Memory>
    ensures { IfOk result
        (λ b. b ≡ model.is_wrong_lookup (form_of value.now) (model_attribute attribute.now)) }
{
    if attribute.is_ref() {
        return Ok(is_no_old_entity(attribute, value));
    }
    Ok(plain_value(attribute, value)?.is_none())
}

/// What is wrong with the lookup ref alone.
fn lookup_faults(
    _schema: &Schema,
    _k: &Text,
    attribute: &Attribute,
    value: &Edn,
) -> Result<NameFaults, Memory>
    requires { attribute_named _schema.now _k.now ≡ Some (model_attribute attribute.now) }
    ensures { IfOk result
        (λ faults. faults ≡ lookup_faults _schema.now (_k.now, form_of value.now)) }
{
    Ok(NameFaults {
        unknown: false,
        wrong: is_wrong_lookup(attribute, value)?,
        not_unique: !attribute.is_unique(),
    })
}

/// What is wrong with the lookup ref, or with one that is its value.
#[cycle(inside)]
fn faults_from(schema: &Schema, k: &Text, value: &Edn) -> Result<NameFaults, Memory>
    ensures { IfOk result (λ faults. faults
        ≡ lookups_faults schema.now (model.lookups_from schema.now k.now (form_of value.now))) }
{
    let Some(attribute) = schema.named(k) else {
        return Ok(NameFaults {
            unknown: true,
            wrong: false,
            not_unique: false,
        });
    };
    let here = lookup_faults(schema, k, attribute, value)?;
    if !attribute.is_ref() {
        return Ok(here);
    }
    match value {
        Edn::Vector(items) => Ok(here.or(faults_of_pair(schema, items)?)),
        _ => Ok(here),
    }
}

/// What is wrong with the lookup ref with these members, if it is one, or with one in it.
#[cycle(inside)]
#[tactic(auto, using(crate::proofs::LookupRefs::lookup_of_others))]
fn faults_of_pair(schema: &Schema, items: &Items) -> Result<NameFaults, Memory>
    ensures { IfOk result (λ faults. faults
        ≡ lookups_faults schema.now
        (lookups_inside schema.now (asks.lookup_in (edn.forms (forms_of (members items.now)))))) }
{
    let [first, value] = items.as_slice() else {
        return Ok(NameFaults::NONE);
    };
    match first {
        Edn::Key(k) => faults_from(schema, k, value),
        _ => Ok(NameFaults::NONE),
    }
}

/// Judges the lookup refs after those that are judged.
pub fn judge_lookups(
    schema: &Schema,
    lookups: &[LookupRef<'_>],
    judged: &mut Vec<NameFaults>,
) -> Result<(), Memory>
    requires { length judged.old.items ≤ length lookups.now }
    ensures { IfOk result (λ _. judged.new.items
        ≡ judged.old.items
        ++ map (ref_faults schema.now) (drop (length judged.old.items) lookups.now)) }
{
    let behind = &lookups[judged.len()..];
    for lookup in behind {
        judged.push(faults_from(schema, lookup.attribute, lookup.value)?)?;
    }
    Ok(())
}

fn faults_at(judged: &[NameFaults], n: usize) -> NameFaults
    ensures { result ≡ slice_index_or judged.now n no_name_faults }
{
    match judged.get(n) {
        Some(found) => *found,
        None => NameFaults::NONE,
    }
}

/// What is wrong with the lookup refs in the name, where these are the faults of the transaction's lookup refs.
#[tactic(auto, using(crate::proofs::LookupLists::found_at))]
pub fn name_faults(judged: &[NameFaults], name: Name<'_>) -> NameFaults
    ensures { (facts : List Datom) (all : List model_LookupRef)
        → judged.now ≡ map (ref_faults facts) all
        → result ≡ lookups_faults facts (model.lookups_in facts (model_name all name.entry)) }
{
    match name {
        Name::Lookup(n) => faults_at(judged, n),
        _ => NameFaults::NONE,
    }
}
