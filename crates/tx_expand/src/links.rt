//! What one value under a key asks: the map's entity has it, or the entity that is the value has the map's.
ghost use Rattle.std.specs.Prelude.{◌≡◌, [], ◌∷◌, ◌++◌, List, false, None, IfOk};
ghost use Rattle.edn_model.specs.Form as edn;
ghost use Rattle.edn_form.specs.View.{form_of, forms_of, pairs_of, members, entries};
ghost use Rattle.fb_values.specs.declared.facts.Datom.{Datom};
ghost use Rattle.tx_model.specs.Asks as asks;
ghost use Rattle.tx_model.specs.Walk as model;
ghost use Rattle.tx_asks.specs.declared.asks.LookupRef.{LookupRef as model_LookupRef};
ghost use Rattle.tx_expand.specs.View.{BeginWith, model_name, model_link, model_part, model_ask, model_asks};
ghost use Rattle.tx_expand.specs.Known.{HaveOwnNames, IsLinkLookedUp, IsAskLookedUp, AreLookedUp};
ghost use Rattle.tx_expand.specs.Walks.{Walks};
ghost use Rattle.tx_expand.specs.Numbered.{visited, name_at, behind, is_collection as is_model_collection, takes_maps as takes_model_maps, lacks, entry_asks};

use crate::attrs::{has_many, has_parts, has_ref, has_uniqueness, is_unique, push};
use crate::lists::scalar;
use crate::names::{link_in, looked_up, name_of_map};
use crate::raw::{Link, Out, RawAsk, RawPart};
use edn_form::{Edn, Items, Pairs};
use fb_memory::Memory;
use fb_schema::Schema;
use std::alloc::Global;
use tx_asks::{LookupRef, Name};
use tx_forms::lookup_in;

/// What one value under a key asks.
fn linked<'a>(this: Name<'a>, link: &Link<'a>, part: RawPart<'a>) -> Result<RawAsk<'a>, Memory>
    ensures ask { (all : List model_LookupRef) → IfOk result (λ raw. model_ask all raw ∷ []
        ≡ model.links (model_name all this.entry) (model_link link.now) (model_part all part.entry)) }
    ensures known { (facts : List Datom) → IsLinkLookedUp facts link.now
        → IfOk result (λ raw. IsAskLookedUp facts raw) }
{
    match link {
        Link::Forward(attr) => Ok(RawAsk::Adds(this, attr.copy()?, part)),
        Link::Backward(attr) => match part {
            RawPart::Entity(other) => Ok(RawAsk::Adds(other, attr.copy()?, RawPart::Entity(this))),
            RawPart::Plain(_) => Ok(RawAsk::Adds(this, attr.copy()?, part)),
        },
    }
}

/// One value under a key.
pub fn link<'a>(
    schema: &Schema,
    out: &mut Out<'a>,
    this: Name<'a>,
    link: &Link<'a>,
    part: RawPart<'a>,
) -> Result<(), Memory>
    requires link_known { IsLinkLookedUp schema.now link.now }
    requires known { AreLookedUp schema.now out.old }
    ensures asks { (all : List model_LookupRef) → IfOk result (λ _. model_asks all out.new
        ≡ model_asks all out.old
        ++ model.links (model_name all this.entry) (model_link link.now) (model_part all part.entry)) }
    ensures lookups { IfOk result (λ _. out.new.lookups ≡ out.old.lookups) }
    ensures next { IfOk result (λ _. out.new.next ≡ out.old.next) }
    ensures known { IfOk result (λ _. AreLookedUp schema.now out.new) }
{
    let raw = linked(this, link, part)?;
    push(schema, out, raw)
}

/// What a value under a key is that is no vector, list, set or map.
fn scalar_part<'a>(schema: &Schema, key: &Link<'a>, f: &'a Edn) -> RawPart<'a>
    requires { IsLinkLookedUp schema.now key.now }
    ensures { (all : List model_LookupRef) (name : asks.Name)
        → model.links name (model_link key.now) (model_part all result)
        ≡ model.scalar_asks schema.now name (model_link key.now) (form_of f.now) }
{
    match key {
        Link::Forward(attr) => scalar(has_ref(schema, attr), f),
        Link::Backward(_) => match f {
            Edn::Int(n) => RawPart::Entity(Name::Number(*n)),
            _ => scalar(true, f),
        },
    }
}

/// A number, an ident, a tempid or a plain value under a key.
pub fn scalar_link<'a>(
    schema: &Schema,
    out: &mut Out<'a>,
    this: Name<'a>,
    key: &Link<'a>,
    f: &'a Edn,
) -> Result<(), Memory>
    requires link_known { IsLinkLookedUp schema.now key.now }
    requires known { AreLookedUp schema.now out.old }
    ensures asks { (all : List model_LookupRef) → IfOk result (λ _. model_asks all out.new
        ≡ model_asks all out.old
        ++ model.scalar_asks schema.now (model_name all this.entry) (model_link key.now)
        (form_of f.now)) }
    ensures lookups { IfOk result (λ _. out.new.lookups ≡ out.old.lookups) }
    ensures next { IfOk result (λ _. out.new.next ≡ out.old.next) }
    ensures known { IfOk result (λ _. AreLookedUp schema.now out.new) }
{
    link(schema, out, this, key, scalar_part(schema, key, f))
}

// ---- vectors and lists

/// Whether the vector under the key is a collection: under a name, where there may be several values and it is no lookup
/// ref of a unique attribute.
pub fn is_collection<'a>(schema: &Schema, key: &Link<'a>, items: &Items) -> bool
    requires { IsLinkLookedUp schema.now key.now }
    ensures { result
        ≡ is_model_collection schema.now (model_link key.now)
        (asks.lookup_in (edn.forms (forms_of (members items.now)))) }
{
    match lookup_in(items) {
        Some((k, _)) => match key {
            Link::Forward(attr) => {
                has_many(schema, attr) && !(has_ref(schema, attr) && has_uniqueness(schema, k))
            }
            Link::Backward(_) => !has_uniqueness(schema, k),
        },
        None => takes_several(schema, key),
    }
}

/// Whether a list under the key is a collection.
pub fn takes_several<'a>(schema: &Schema, key: &Link<'a>) -> bool
    requires { IsLinkLookedUp schema.now key.now }
    ensures { result ≡ is_model_collection schema.now (model_link key.now) None }
{
    match key {
        Link::Forward(attr) => has_many(schema, attr),
        Link::Backward(_) => true,
    }
}

/// What a vector under a key is that is no collection: a lookup ref, or no value.
fn vector_part<'a>(
    schema: &Schema,
    lookups: &mut Vec<LookupRef<'a>>,
    key: &Link<'a>,
    f: &'a Edn,
    items: &'a Items,
) -> Result<RawPart<'a>, Memory>
    requires vector { form_of f.now ≡ edn.vector (edn.forms (forms_of (members items.now))) }
    requires alone { is_model_collection schema.now (model_link key.now)
        (asks.lookup_in (edn.forms (forms_of (members items.now))))
        ≡ false }
    requires link_known { IsLinkLookedUp schema.now key.now }
    ensures part { (all : List model_LookupRef) → BeginWith lookups.new.items all
        → IfOk result (λ part. (name : asks.Name)
        → model.links name (model_link key.now) (model_part all part)
        ≡ model.vector_asks schema.now name (model_link key.now)
        (edn.forms (forms_of (members items.now)))
        (asks.lookup_in (edn.forms (forms_of (members items.now)))) []) }
    ensures kept { (all : List model_LookupRef) → BeginWith lookups.new.items all
        → IfOk result (λ _. BeginWith lookups.old.items all) }
{
    match lookup_in(items) {
        Some((k, value)) => match key {
            Link::Forward(attr) if !has_ref(schema, attr) => Ok(RawPart::Plain(f)),
            _ => Ok(RawPart::Entity(looked_up(lookups, k, value)?)),
        },
        None => Ok(RawPart::Plain(f)),
    }
}

/// What a vector asks that is no collection.
pub fn vector_link<'a>(
    schema: &Schema,
    out: &mut Out<'a>,
    this: Name<'a>,
    key: &Link<'a>,
    f: &'a Edn,
    items: &'a Items,
) -> Result<(), Memory>
    requires vector { form_of f.now ≡ edn.vector (edn.forms (forms_of (members items.now))) }
    requires alone { is_model_collection schema.now (model_link key.now)
        (asks.lookup_in (edn.forms (forms_of (members items.now))))
        ≡ false }
    requires link_known { IsLinkLookedUp schema.now key.now }
    requires known { AreLookedUp schema.now out.old }
    ensures walks { IfOk result (λ _. Walks out.old out.new (λ all.
        visited (model.vector_asks schema.now (model_name all this.entry) (model_link key.now)
        (edn.forms (forms_of (members items.now)))
        (asks.lookup_in (edn.forms (forms_of (members items.now)))) []) out.old.next)) }
    ensures known { IfOk result (λ _. AreLookedUp schema.now out.new) }
{
    let part = vector_part(schema, &mut out.lookups, key, f, items)?;
    link(schema, out, this, key, part)
}

/// What a vector asks that is a member of a collection: a lookup ref, or no value.
pub fn member_link<'a>(
    schema: &Schema,
    out: &mut Out<'a>,
    this: Name<'a>,
    key: &Link<'a>,
    f: &'a Edn,
    items: &'a Items,
) -> Result<(), Memory>
    requires vector { form_of f.now ≡ edn.vector (edn.forms (forms_of (members items.now))) }
    requires link_known { IsLinkLookedUp schema.now key.now }
    requires known { AreLookedUp schema.now out.old }
    ensures walks { IfOk result (λ _. Walks out.old out.new (λ all.
        visited (model.vector_asks schema.now (model_name all this.entry) (model_link key.now)
        (edn.forms (forms_of (members items.now)))
        (asks.lookup_in (edn.forms (forms_of (members items.now))))
        (model.links (model_name all this.entry) (model_link key.now)
        (asks.plain (edn.vector (edn.forms (forms_of (members items.now))))))) out.old.next)) }
    ensures known { IfOk result (λ _. AreLookedUp schema.now out.new) }
{
    if is_collection(schema, key, items) {
        link(schema, out, this, key, RawPart::Plain(f))
    } else {
        vector_link(schema, out, this, key, f, items)
    }
}

// ---- maps inside maps

fn identifies<'a>(alloc: Global, schema: &'a Schema, key: &Edn) -> Result<bool, Memory>
    requires { HaveOwnNames schema.now }
    ensures { IfOk result (λ b. b ≡ model.identifies schema.now (asks.key_in (form_of key.now))) }
{
    match link_in(alloc, schema, key)? {
        None => Ok(true),
        Some(Link::Forward(attr)) => Ok(is_unique(schema, &attr)),
        Some(Link::Backward(_)) => Ok(false),
    }
}

/// Whether the map has `:db/id` or a unique attribute among its keys.
fn has_identity<'a>(alloc: Global, schema: &'a Schema, pairs: &Pairs) -> Result<bool, Memory>
    requires { HaveOwnNames schema.now }
    ensures { IfOk result
        (λ b. b ≡ model.has_identity schema.now (edn.pairs (pairs_of (entries pairs.now)))) }
{
    for (key, _) in pairs.as_slice() {
        if identifies(alloc, schema, key)? {
            return Ok(true);
        }
    }
    Ok(false)
}

/// Whether a map under the key lacks what it needs: an identity, or a key whose values are parts.
pub fn lacks_id<'a>(
    alloc: Global,
    schema: &'a Schema,
    key: &Link<'a>,
    pairs: &Pairs,
) -> Result<bool, Memory>
    requires own { HaveOwnNames schema.now }
    requires link_known { IsLinkLookedUp schema.now key.now }
    ensures { IfOk result
        (λ b. b ≡ lacks schema.now (model_link key.now) (edn.pairs (pairs_of (entries pairs.now)))) }
{
    if let Link::Forward(attr) = key {
        if has_parts(schema, attr) {
            return Ok(false);
        }
    }
    Ok(!has_identity(alloc, schema, pairs)?)
}

/// The number of the next map without `:db/id`, after one whose entity has this name.
#[tactic(auto, using(crate::proofs::LookupLists::behind_lookup))]
fn number_behind(name: Name<'_>, next: usize) -> Result<usize, Memory>
    ensures { (all : List model_LookupRef)
        → IfOk result (λ n. n ≡ behind (model_name all name.entry) next) }
{
    match name {
        // No memory has room for as many maps as there are numbers.
        Name::Nameless(_) => next.checked_add(1).ok_or(Memory),
        Name::Number(_) | Name::Ident(_) | Name::Lookup(_) | Name::Tempid(_) => Ok(next),
    }
}

/// The map's entity: the one that it names by `:db/id`, or the next of those that have none.
pub fn enter<'a>(out: &mut Out<'a>, pairs: &'a Pairs) -> Result<Name<'a>, Memory>
    ensures name { (all : List model_LookupRef) → BeginWith out.new.lookups.items all
        → IfOk result
        (λ name. model_name all name ≡ name_at out.old.next (edn.pairs (pairs_of (entries pairs.now)))) }
    ensures kept { (all : List model_LookupRef) → BeginWith out.new.lookups.items all
        → IfOk result (λ _. BeginWith out.old.lookups.items all) }
    ensures next { IfOk result (λ _. out.new.next
        ≡ behind (name_at out.old.next (edn.pairs (pairs_of (entries pairs.now)))) out.old.next) }
    ensures raws { IfOk result (λ _. out.new.raws ≡ out.old.raws) }
{
    let name = name_of_map(&mut out.lookups, pairs, out.next)?;
    out.next = number_behind(name, out.next)?;
    Ok(name)
}

/// Whether a map under the key is asked about: one under an attribute whose values are no entities is no value.
pub fn takes_maps<'a>(schema: &Schema, key: &Link<'a>) -> bool
    requires { IsLinkLookedUp schema.now key.now }
    ensures { result ≡ takes_model_maps schema.now (model_link key.now) }
{
    match key {
        Link::Forward(attr) => has_ref(schema, attr),
        Link::Backward(_) => true,
    }
}

/// Says that a map lacks what it needs, if it does.
fn push_lack(schema: &Schema, out: &mut Out<'_>, lacks: bool) -> Result<(), Memory>
    requires known { AreLookedUp schema.now out.old }
    ensures asks { (all : List model_LookupRef) → IfOk result
        (λ _. model_asks all out.new ≡ model_asks all out.old ++ model.need lacks) }
    ensures lookups { IfOk result (λ _. out.new.lookups ≡ out.old.lookups) }
    ensures next { IfOk result (λ _. out.new.next ≡ out.old.next) }
    ensures known { IfOk result (λ _. AreLookedUp schema.now out.new) }
{
    if lacks {
        return push(schema, out, RawAsk::LacksId);
    }
    Ok(())
}

/// Enters a map under a key: the link to it, and what it lacks.
pub fn enter_nested<'a>(
    alloc: Global,
    schema: &'a Schema,
    out: &mut Out<'a>,
    this: Name<'a>,
    key: &Link<'a>,
    pairs: &'a Pairs,
) -> Result<Name<'a>, Memory>
    requires own { HaveOwnNames schema.now }
    requires link_known { IsLinkLookedUp schema.now key.now }
    requires known { AreLookedUp schema.now out.old }
    ensures name { (all : List model_LookupRef) → BeginWith out.new.lookups.items all
        → IfOk result
        (λ name. model_name all name ≡ name_at out.old.next (edn.pairs (pairs_of (entries pairs.now)))) }
    ensures walks { IfOk result (λ _. Walks out.old out.new (λ all.
        visited (entry_asks schema.now (model_name all this.entry) (model_link key.now) out.old.next
        (edn.pairs (pairs_of (entries pairs.now))))
        (behind (name_at out.old.next (edn.pairs (pairs_of (entries pairs.now)))) out.old.next))) }
    ensures known { IfOk result (λ _. AreLookedUp schema.now out.new) }
{
    let lacks = lacks_id(alloc, schema, key, pairs)?;
    let name = enter(out, pairs)?;
    link(schema, out, this, key, RawPart::Entity(name))?;
    push_lack(schema, out, lacks)?;
    Ok(name)
}
