//! What a list form asks.
ghost use Rattle.std.specs.Prelude.{◌≡◌, ◌∷◌, [], List, true, Some, IfOk};
ghost use Rattle.fb_values.specs.declared.facts.Datom.{Datom};
ghost use Rattle.edn_model.specs.Form as edn;
ghost use Rattle.edn_form.specs.View.{form_of};
ghost use Rattle.tx_model.specs.Shapes as shapes;
ghost use Rattle.tx_model.specs.Walk as model;
ghost use Rattle.tx_forms.specs.Parts.{entity_form, verb_of, arguments_of};
ghost use Rattle.tx_asks.specs.declared.asks.LookupRef.{LookupRef as model_LookupRef};
ghost use Rattle.tx_expand.specs.View.{BeginWith, model_part, model_ask};
ghost use Rattle.tx_expand.specs.Known.{HaveOwnNames, IsAskLookedUp};

use crate::attrs::{attribute, has_ref};
use crate::names::{looked_up, named};
use crate::raw::{RawAsk, RawPart};
use edn_form::Edn;
use fb_memory::Memory;
use fb_schema::Schema;
use fb_text::Text;
use tx_asks::{LookupRef, Name};
use tx_forms::{EntityForm, ListForm, lookup_in};

// ---- values

/// An entity that a number, an ident or a tempid names, or a plain value.
fn entity_or_plain<'a>(f: &'a Edn) -> RawPart<'a>
    ensures { (all : List model_LookupRef) → model_part all result ≡ model.scalar true (form_of f.now) }
{
    match f {
        Edn::Int(n) if *n >= 0 => RawPart::Entity(Name::Number(*n)),
        Edn::Key(k) => RawPart::Entity(Name::Ident(k)),
        Edn::Str(s) => RawPart::Entity(Name::Tempid(s)),
        _ => RawPart::Plain(f),
    }
}

/// A number, an ident or a tempid under an attribute whose values are entities, and else a plain value.
pub fn scalar<'a>(is_ref: bool, f: &'a Edn) -> RawPart<'a>
    ensures { (all : List model_LookupRef) → model_part all result ≡ model.scalar is_ref (form_of f.now) }
{
    if is_ref {
        entity_or_plain(f)
    } else {
        RawPart::Plain(f)
    }
}

/// The value of a list form: a lookup ref too.
fn value_part<'a>(
    lookups: &mut Vec<LookupRef<'a>>,
    is_ref: bool,
    f: &'a Edn,
) -> Result<RawPart<'a>, Memory>
    ensures part { (all : List model_LookupRef) → BeginWith lookups.new.items all
        → IfOk result (λ part. model_part all part ≡ model.value_part is_ref (form_of f.now)) }
    ensures kept { (all : List model_LookupRef) → BeginWith lookups.new.items all
        → IfOk result (λ _. BeginWith lookups.old.items all) }
{
    if !is_ref {
        return Ok(scalar(is_ref, f));
    }
    match f {
        Edn::Vector(items) => match lookup_in(items) {
            Some((k, value)) => Ok(RawPart::Entity(looked_up(lookups, k, value)?)),
            None => Ok(RawPart::Plain(f)),
        },
        _ => Ok(scalar(is_ref, f)),
    }
}

/// A value that the entity may have already: no tempid.
fn old_value_part<'a>(
    lookups: &mut Vec<LookupRef<'a>>,
    is_ref: bool,
    f: &'a Edn,
) -> Result<RawPart<'a>, Memory>
    ensures part { (all : List model_LookupRef) → BeginWith lookups.new.items all
        → IfOk result (λ part. model_part all part ≡ model.old_value_part is_ref (form_of f.now)) }
    ensures kept { (all : List model_LookupRef) → BeginWith lookups.new.items all
        → IfOk result (λ _. BeginWith lookups.old.items all) }
{
    match f {
        Edn::Str(_) => Ok(RawPart::Plain(f)),
        _ => value_part(lookups, is_ref, f),
    }
}

// ---- list forms

fn add<'a>(
    schema: &'a Schema,
    lookups: &mut Vec<LookupRef<'a>>,
    entity: EntityForm<'a>,
    k: &Text,
    value: &'a Edn,
) -> Result<RawAsk<'a>, Memory>
    requires { HaveOwnNames schema.now }
    ensures ask { (all : List model_LookupRef) → BeginWith lookups.new.items all
        → IfOk result (λ raw. model_ask all raw ∷ []
        ≡ model.list_asks schema.now (Some shapes.add)
        (entity_form entity.entry ∷ edn.keyword k.now ∷ form_of value.now ∷ [])) }
    ensures kept { (all : List model_LookupRef) → BeginWith lookups.new.items all
        → IfOk result (λ _. BeginWith lookups.old.items all) }
    ensures known { IfOk result (λ raw. IsAskLookedUp schema.now raw) }
{
    let attr = attribute(schema, k)?;
    let on = named(lookups, entity)?;
    let part = value_part(lookups, has_ref(schema, &attr), value)?;
    Ok(RawAsk::Adds(on, attr, part))
}

fn retract<'a>(
    schema: &'a Schema,
    lookups: &mut Vec<LookupRef<'a>>,
    entity: EntityForm<'a>,
    k: &Text,
    value: &'a Edn,
) -> Result<RawAsk<'a>, Memory>
    requires { HaveOwnNames schema.now }
    ensures ask { (all : List model_LookupRef) → BeginWith lookups.new.items all
        → IfOk result (λ raw. model_ask all raw ∷ []
        ≡ model.list_asks schema.now (Some shapes.retract)
        (entity_form entity.entry ∷ edn.keyword k.now ∷ form_of value.now ∷ [])) }
    ensures kept { (all : List model_LookupRef) → BeginWith lookups.new.items all
        → IfOk result (λ _. BeginWith lookups.old.items all) }
    ensures known { IfOk result (λ raw. IsAskLookedUp schema.now raw) }
{
    let attr = attribute(schema, k)?;
    let on = named(lookups, entity)?;
    let part = old_value_part(lookups, has_ref(schema, &attr), value)?;
    Ok(RawAsk::Retracts(on, attr, part))
}

fn retract_all<'a>(
    schema: &'a Schema,
    lookups: &mut Vec<LookupRef<'a>>,
    entity: EntityForm<'a>,
    k: &Text,
) -> Result<RawAsk<'a>, Memory>
    requires { HaveOwnNames schema.now }
    ensures ask { (all : List model_LookupRef) → BeginWith lookups.new.items all
        → IfOk result (λ raw. model_ask all raw ∷ []
        ≡ model.list_asks schema.now (Some shapes.retract)
        (entity_form entity.entry ∷ edn.keyword k.now ∷ [])) }
    ensures kept { (all : List model_LookupRef) → BeginWith lookups.new.items all
        → IfOk result (λ _. BeginWith lookups.old.items all) }
    ensures known { IfOk result (λ raw. IsAskLookedUp schema.now raw) }
{
    let attr = attribute(schema, k)?;
    Ok(RawAsk::RetractsAll(named(lookups, entity)?, attr))
}

fn compare<'a>(
    schema: &'a Schema,
    lookups: &mut Vec<LookupRef<'a>>,
    entity: EntityForm<'a>,
    k: &Text,
    old: &'a Edn,
    new: &'a Edn,
) -> Result<RawAsk<'a>, Memory>
    requires { HaveOwnNames schema.now }
    ensures ask { (all : List model_LookupRef) → BeginWith lookups.new.items all
        → IfOk result (λ raw. model_ask all raw ∷ []
        ≡ model.list_asks schema.now (Some shapes.cas)
        (entity_form entity.entry ∷ edn.keyword k.now ∷ form_of old.now ∷ form_of new.now ∷ [])) }
    ensures kept { (all : List model_LookupRef) → BeginWith lookups.new.items all
        → IfOk result (λ _. BeginWith lookups.old.items all) }
    ensures known { IfOk result (λ raw. IsAskLookedUp schema.now raw) }
{
    let attr = attribute(schema, k)?;
    let is_ref = has_ref(schema, &attr);
    let on = named(lookups, entity)?;
    let old = old_value_part(lookups, is_ref, old)?;
    let new = old_value_part(lookups, is_ref, new)?;
    Ok(RawAsk::Compares(on, attr, old, new))
}

fn retract_entity<'a>(
    lookups: &mut Vec<LookupRef<'a>>,
    entity: EntityForm<'a>,
) -> Result<RawAsk<'a>, Memory>
    ensures ask { (all : List model_LookupRef) → BeginWith lookups.new.items all
        → IfOk result (λ raw. model_ask all raw ∷ []
        ≡ model.list_asks [] (Some shapes.retract_entity) (entity_form entity.entry ∷ [])) }
    ensures kept { (all : List model_LookupRef) → BeginWith lookups.new.items all
        → IfOk result (λ _. BeginWith lookups.old.items all) }
    ensures known { IfOk result (λ raw. (facts : List Datom) → IsAskLookedUp facts raw) }
{
    Ok(RawAsk::RetractsEntity(named(lookups, entity)?))
}

/// What the list form asks: one thing.
pub fn list_ask<'a>(
    schema: &'a Schema,
    lookups: &mut Vec<LookupRef<'a>>,
    form: ListForm<'a>,
) -> Result<RawAsk<'a>, Memory>
    requires { HaveOwnNames schema.now }
    ensures ask { (all : List model_LookupRef) → BeginWith lookups.new.items all
        → IfOk result (λ raw. model_ask all raw ∷ []
        ≡ model.list_asks schema.now (Some (verb_of form.entry)) (arguments_of form.entry)) }
    ensures kept { (all : List model_LookupRef) → BeginWith lookups.new.items all
        → IfOk result (λ _. BeginWith lookups.old.items all) }
    ensures known { IfOk result (λ raw. IsAskLookedUp schema.now raw) }
{
    match form {
        ListForm::Add {
            entity,
            attribute,
            value,
        } => add(schema, lookups, entity, attribute, value),
        ListForm::Retract {
            entity,
            attribute,
            value,
        } => retract(schema, lookups, entity, attribute, value),
        ListForm::RetractAll { entity, attribute } => {
            retract_all(schema, lookups, entity, attribute)
        }
        ListForm::Cas {
            entity,
            attribute,
            old,
            new,
        } => compare(schema, lookups, entity, attribute, old, new),
        ListForm::RetractEntity { entity } => retract_entity(lookups, entity),
    }
}
