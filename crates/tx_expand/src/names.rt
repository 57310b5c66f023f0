//! What a form names: an entity, an attribute, or the key of a map.
ghost use Rattle.std.specs.Prelude.{◌≡◌, ◌∷◌, [], ℕ, List, true, drop, unwrap_or, IfOk};
ghost use Rattle.std.specs.Option.{option_map};
ghost use Rattle.edn_model.specs.Form as edn;
ghost use Rattle.edn_form.specs.View.{form_of, pairs_of, entries};
ghost use Rattle.fb_model.specs.Words as words;
ghost use Rattle.tx_model.specs.Asks as asks;
ghost use Rattle.tx_model.specs.Walk as walk;
ghost use Rattle.tx_forms.specs.Parts.{entity_form};
ghost use Rattle.tx_asks.specs.declared.asks.LookupRef.{LookupRef as model_LookupRef};
ghost use Rattle.tx_expand.specs.View.{BeginWith, model_name, model_link, model_key};
ghost use Rattle.tx_expand.specs.Known.{HaveOwnNames, IsLinkLookedUp, IsKeyLookedUp};
ghost use Rattle.tx_expand.specs.Numbered.{name_at};
ghost use Rattle.tx_expand.specs.Texts.{cut_at_slash, other_key};

use crate::attrs::attribute;
use crate::raw::Link;
use edn_form::{Edn, Pairs};
use edn_values::{begins_with_one_of, local_name};
use fb_memory::Memory;
use fb_schema::Schema;
use fb_text::Text;
use std::alloc::Global;
use tx_asks::{LookupRef, Name};
use tx_forms::{EntityForm, entity_in, is_id};

/// The entity that the lookup ref names, which is kept as one more.
pub fn looked_up<'a>(
    lookups: &mut Vec<LookupRef<'a>>,
    attribute: &'a Text,
    value: &'a Edn,
) -> Result<Name<'a>, Memory>
    ensures name { (all : List model_LookupRef) → BeginWith lookups.new.items all
        → IfOk result (λ name. model_name all name ≡ asks.lookup attribute.now (form_of value.now)) }
    ensures kept { (all : List model_LookupRef) → BeginWith lookups.new.items all
        → IfOk result (λ _. BeginWith lookups.old.items all) }
{
    let name = Name::Lookup(lookups.len());
    lookups.push(LookupRef { attribute, value })?;
    Ok(name)
}

/// The entity that is named so.
pub fn named<'a>(
    lookups: &mut Vec<LookupRef<'a>>,
    entity: EntityForm<'a>,
) -> Result<Name<'a>, Memory>
    ensures name { (all : List model_LookupRef) → BeginWith lookups.new.items all
        → IfOk result (λ name. model_name all name ≡ walk.entity_in (entity_form entity.entry)) }
    ensures kept { (all : List model_LookupRef) → BeginWith lookups.new.items all
        → IfOk result (λ _. BeginWith lookups.old.items all) }
{
    match entity {
        EntityForm::Number(number) => Ok(Name::Number(number)),
        EntityForm::Ident(keyword) => Ok(Name::Ident(keyword)),
        EntityForm::Tempid(tempid) => Ok(Name::Tempid(tempid)),
        EntityForm::Lookup(attribute, value) => looked_up(lookups, attribute, value),
    }
}

/// The entity that a form names, in a place where a tempid may be.
#[tactic(auto, using(crate::proofs::EntityNames::named_is))]
fn name_in<'a>(lookups: &mut Vec<LookupRef<'a>>, f: &'a Edn) -> Result<Option<Name<'a>>, Memory>
    ensures name { (all : List model_LookupRef) → BeginWith lookups.new.items all
        → IfOk result
        (λ name. option_map (model_name all) name ≡ asks.name_in (form_of f.now)) }
    ensures kept { (all : List model_LookupRef) → BeginWith lookups.new.items all
        → IfOk result (λ _. BeginWith lookups.old.items all) }
{
    match entity_in(f) {
        Some(entity) => Ok(Some(named(lookups, entity)?)),
        None => Ok(None),
    }
}

// ---- the entity of a map

/// The name that a pair of `:db/id` gives.
fn named_by<'a>(
    lookups: &mut Vec<LookupRef<'a>>,
    key: &Edn,
    value: &'a Edn,
) -> Result<Option<Name<'a>>, Memory>
    ensures name { (all : List model_LookupRef) → BeginWith lookups.new.items all
        → IfOk result (λ name. (other : asks.Name)
        → unwrap_or (option_map (model_name all) name) other
        ≡ walk.named_by (asks.key_in (form_of key.now)) (form_of value.now) other) }
    ensures kept { (all : List model_LookupRef) → BeginWith lookups.new.items all
        → IfOk result (λ _. BeginWith lookups.old.items all) }
{
    if is_id(key) {
        name_in(lookups, value)
    } else {
        Ok(None)
    }
}

/// The entity that the map names by `:db/id`, or the next one without it.
pub fn name_of_map<'a>(
    lookups: &mut Vec<LookupRef<'a>>,
    pairs: &'a Pairs,
    next: usize,
) -> Result<Name<'a>, Memory>
    ensures name { (all : List model_LookupRef) → BeginWith lookups.new.items all
        → IfOk result
        (λ name. model_name all name ≡ name_at next (edn.pairs (pairs_of (entries pairs.now)))) }
    ensures kept { (all : List model_LookupRef) → BeginWith lookups.new.items all
        → IfOk result (λ _. BeginWith lookups.old.items all) }
{
    for (key, value) in pairs.as_slice() {
        if let Some(name) = named_by(lookups, key, value)? {
            return Ok(name);
        }
    }
    Ok(Name::Nameless(next))
}

// ---- the keys of maps

/// The parts before and after the first slash, where there is one.
fn split(text: &str) -> Option<(&str, &str)>
    ensures { option_map {U = List ℕ × List ℕ} (λ parts. (parts.0.now, parts.1.now)) result
        ≡ cut_at_slash text.now }
{
    text.split_once('/')
}

fn behind_underscore(text: &str) -> &str
    requires { words.begins_with_one_of (95 ∷ []) text.now ≡ true }
    ensures { result.now ≡ drop 1 text.now }
{
    match text.strip_prefix('_') {
        Some(rest) => rest,
        None => text,
    }
}

/// A name that begins with `_`, without it.
fn without_underscore(alloc: Global, k: &str) -> Result<Text, Memory>
    requires { words.begins_with_one_of (95 ∷ []) (words.local_name k.now) ≡ true }
    ensures { IfOk result (λ name. name ≡ asks.without_underscore k.now) }
{
    match split(k) {
        Some((namespace, local)) => {
            let rest = behind_underscore(local);
            let name = format!(in alloc; "{namespace}/{rest}")?;
            Ok(Text::of(alloc, name.as_str())?)
        }
        None => Ok(Text::of(alloc, behind_underscore(k))?),
    }
}

fn link_named<'a>(alloc: Global, schema: &'a Schema, k: &Text) -> Result<Link<'a>, Memory>
    requires own { HaveOwnNames schema.now }
    ensures key { IfOk result (λ link. model_link link ≡ other_key k.now) }
    ensures known { IfOk result (λ link. IsLinkLookedUp schema.now link) }
{
    if begins_with_one_of(b"_", local_name(k.as_str()).as_bytes()) {
        let name = without_underscore(alloc, k.as_str())?;
        return Ok(Link::Backward(attribute(schema, &name)?));
    }
    Ok(Link::Forward(attribute(schema, k)?))
}

/// The attribute that the key names, and the way in which it leads. `None` is `:db/id`.
pub fn link_in<'a>(alloc: Global, schema: &'a Schema, key: &Edn) -> Result<Option<Link<'a>>, Memory>
    requires own { HaveOwnNames schema.now }
    ensures key { IfOk result (λ link. model_key link ≡ asks.key_in (form_of key.now)) }
    ensures known { IfOk result (λ link. IsKeyLookedUp schema.now link) }
{
    if is_id(key) {
        return Ok(None);
    }
    match key {
        Edn::Key(k) => Ok(Some(link_named(alloc, schema, k)?)),
        _ => Ok(Some(Link::Forward(attribute(schema, &Text::of(alloc, "")?)?))),
    }
}
