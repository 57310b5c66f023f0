//! The walk over a form: what it asks, in the order in which a reader meets it.
ghost use Rattle.std.specs.Prelude.{◌≡◌, IfOk};
ghost use Rattle.edn_model.specs.Form as edn;
ghost use Rattle.edn_form.specs.View.{form_of, forms_of, pairs_of, members, entries};
ghost use Rattle.tx_forms.specs.Parts.{parts_of};
ghost use Rattle.tx_expand.specs.View.{model_name, model_link};
ghost use Rattle.tx_expand.specs.Known.{HaveOwnNames, IsLinkLookedUp, AreLookedUp};
ghost use Rattle.tx_expand.specs.Numbered.{walk_map, walk_pair, walk_value, walk_members, walk_member, walk_form};
ghost use Rattle.tx_expand.specs.Walks.{Walks};

use crate::attrs::{has_ref, push};
use crate::links::{
    enter, enter_nested, is_collection, link, member_link, scalar_link, takes_maps, takes_several,
    vector_link,
};
use crate::lists::list_ask;
use crate::names::link_in;
use crate::raw::{Link, Out, RawAsk, RawPart};
use edn_form::{Edn, Items, Pairs};
use fb_memory::Memory;
use fb_schema::Schema;
use std::alloc::Global;
use tx_asks::Name;
use tx_forms::TxForm;

/// What the pairs of a map ask, one after another.
#[cycle(walk)]
fn map_asks<'a>(
    alloc: Global,
    schema: &'a Schema,
    out: &mut Out<'a>,
    this: Name<'a>,
    pairs: &'a Pairs,
) -> Result<(), Memory>
    requires own { HaveOwnNames schema.now }
    requires known { AreLookedUp schema.now out.old }
    ensures walks { IfOk result (λ _. Walks out.old out.new (λ all.
        walk_map schema.now (model_name all this.entry) out.old.next
        (edn.pairs (pairs_of (entries pairs.now))))) }
    ensures known { IfOk result (λ _. AreLookedUp schema.now out.new) }
{
    for (key, value) in pairs.as_slice() {
        let link = link_in(alloc, schema, key)?;
        if let Some(link) = &link {
            pair_asks(alloc, schema, out, this, link, value)?;
        }
    }
    Ok(())
}

/// What a pair asks: it mentions its attribute, and under a reversed name the attribute's values have to be entities.
#[cycle(walk)]
fn pair_asks<'a>(
    alloc: Global,
    schema: &'a Schema,
    out: &mut Out<'a>,
    this: Name<'a>,
    key: &Link<'a>,
    value: &'a Edn,
) -> Result<(), Memory>
    requires own { HaveOwnNames schema.now }
    requires link_known { IsLinkLookedUp schema.now key.now }
    requires known { AreLookedUp schema.now out.old }
    ensures walks { IfOk result (λ _. Walks out.old out.new (λ all.
        walk_pair schema.now (model_name all this.entry) (model_link key.now) out.old.next
        (walk_value schema.now (model_name all this.entry) (model_link key.now) out.old.next
        (form_of value.now)))) }
    ensures known { IfOk result (λ _. AreLookedUp schema.now out.new) }
{
    match key {
        Link::Forward(attr) => {
            push(schema, out, RawAsk::Mentions(attr.copy()?))?;
            value_asks(alloc, schema, out, this, key, value)
        }
        Link::Backward(attr) => {
            push(schema, out, RawAsk::Mentions(attr.copy()?))?;
            if has_ref(schema, attr) {
                return value_asks(alloc, schema, out, this, key, value);
            }
            let fault = RawAsk::Adds(this, attr.copy()?, RawPart::Entity(this));
            push(schema, out, fault)
        }
    }
}

/// What a value under a key asks.
#[cycle(walk)]
fn value_asks<'a>(
    alloc: Global,
    schema: &'a Schema,
    out: &mut Out<'a>,
    this: Name<'a>,
    key: &Link<'a>,
    f: &'a Edn,
) -> Result<(), Memory>
    requires own { HaveOwnNames schema.now }
    requires link_known { IsLinkLookedUp schema.now key.now }
    requires known { AreLookedUp schema.now out.old }
    ensures walks { IfOk result (λ _. Walks out.old out.new (λ all.
        walk_value schema.now (model_name all this.entry) (model_link key.now) out.old.next
        (form_of f.now))) }
    ensures known { IfOk result (λ _. AreLookedUp schema.now out.new) }
{
    match f {
        Edn::Map(pairs) => {
            if !takes_maps(schema, key) {
                return link(schema, out, this, key, RawPart::Plain(f));
            }
            let name = enter_nested(alloc, schema, out, this, key, pairs)?;
            map_asks(alloc, schema, out, name, pairs)
        }
        Edn::Set(items) => members_asks(alloc, schema, out, this, key, items),
        Edn::Vector(items) => {
            if is_collection(schema, key, items) {
                return members_asks(alloc, schema, out, this, key, items);
            }
            vector_link(schema, out, this, key, f, items)
        }
        Edn::List(items) => {
            if takes_several(schema, key) {
                return members_asks(alloc, schema, out, this, key, items);
            }
            link(schema, out, this, key, RawPart::Plain(f))
        }
        _ => scalar_link(schema, out, this, key, f),
    }
}

/// What the members of a collection ask, one after another.
#[cycle(walk)]
fn members_asks<'a>(
    alloc: Global,
    schema: &'a Schema,
    out: &mut Out<'a>,
    this: Name<'a>,
    key: &Link<'a>,
    items: &'a Items,
) -> Result<(), Memory>
    requires own { HaveOwnNames schema.now }
    requires link_known { IsLinkLookedUp schema.now key.now }
    requires known { AreLookedUp schema.now out.old }
    ensures walks { IfOk result (λ _. Walks out.old out.new (λ all.
        walk_members schema.now (model_name all this.entry) (model_link key.now) out.old.next
        (edn.forms (forms_of (members items.now))))) }
    ensures known { IfOk result (λ _. AreLookedUp schema.now out.new) }
{
    for f in items.as_slice() {
        member_asks(alloc, schema, out, this, key, f)?;
    }
    Ok(())
}

/// What a member of a collection asks: a collection inside it is no value.
#[cycle(walk)]
fn member_asks<'a>(
    alloc: Global,
    schema: &'a Schema,
    out: &mut Out<'a>,
    this: Name<'a>,
    key: &Link<'a>,
    f: &'a Edn,
) -> Result<(), Memory>
    requires own { HaveOwnNames schema.now }
    requires link_known { IsLinkLookedUp schema.now key.now }
    requires known { AreLookedUp schema.now out.old }
    ensures walks { IfOk result (λ _. Walks out.old out.new (λ all.
        walk_member schema.now (model_name all this.entry) (model_link key.now) out.old.next
        (form_of f.now))) }
    ensures known { IfOk result (λ _. AreLookedUp schema.now out.new) }
{
    match f {
        Edn::Map(pairs) => {
            if !takes_maps(schema, key) {
                return link(schema, out, this, key, RawPart::Plain(f));
            }
            let name = enter_nested(alloc, schema, out, this, key, pairs)?;
            map_asks(alloc, schema, out, name, pairs)
        }
        Edn::Vector(items) => member_link(schema, out, this, key, f, items),
        _ => scalar_link(schema, out, this, key, f),
    }
}

/// What the form asks.
pub fn form_asks<'a>(
    alloc: Global,
    schema: &'a Schema,
    out: &mut Out<'a>,
    form: TxForm<'a>,
) -> Result<(), Memory>
    requires own { HaveOwnNames schema.now }
    requires known { AreLookedUp schema.now out.old }
    ensures walks { IfOk result (λ _. Walks out.old out.new (λ _.
        walk_form schema.now out.old.next (parts_of form.entry))) }
    ensures known { IfOk result (λ _. AreLookedUp schema.now out.new) }
{
    match form {
        TxForm::List(form) => {
            let raw = list_ask(schema, &mut out.lookups, form)?;
            push(schema, out, raw)
        }
        TxForm::Map(pairs) => {
            let name = enter(out, pairs)?;
            push(schema, out, RawAsk::Meets(name))?;
            map_asks(alloc, schema, out, name, pairs)
        }
    }
}
