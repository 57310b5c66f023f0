//! The shape of map forms, and of the maps inside them.
ghost use Rattle.std.specs.Prelude.{◌≡◌};
ghost use Rattle.edn_model.specs.Form as edn;
ghost use Rattle.edn_form.specs.View.{form_of, forms_of, pairs_of, members, entries};
ghost use Rattle.tx_model.specs.Shapes as model;

use crate::names::{entity_in, is_id, keyword_in};
use edn_form::{Edn, Items, Pairs};

/// Whether the key is a keyword, and the value of `:db/id` names an entity.
fn has_pair_shape(key: &Edn, value: &Edn) -> bool
    ensures { result ≡ model.has_pair_shape (form_of key.now) (form_of value.now) }
{
    keyword_in(key).is_some() && (!is_id(key) || entity_in(value).is_some())
}

#[cycle(shape)]
#[tactic(auto, using(crate::proofs::ShapeRules::empty_map_shape))]
pub fn has_map_shape(pairs: &Pairs) -> bool
    ensures { result ≡ model.has_map_shape (edn.pairs (pairs_of (entries pairs.now))) }
{
    if pairs.is_empty() {
        return false;
    }
    for (key, value) in pairs.as_slice() {
        if !has_pair_shape(key, value) {
            return false;
        }
        if !has_value_shape(value) {
            return false;
        }
    }
    true
}

/// Whether each map that the value is, or that is a member of it, has the shape of a map form.
#[cycle(shape)]
fn has_value_shape(f: &Edn) -> bool
    ensures { result ≡ model.has_value_shape (form_of f.now) }
{
    match f {
        Edn::Map(pairs) => has_map_shape(pairs),
        Edn::Vector(items) => have_member_shape(items),
        Edn::List(items) => have_member_shape(items),
        Edn::Set(items) => have_member_shape(items),
        _ => true,
    }
}

#[cycle(shape)]
fn have_member_shape(items: &Items) -> bool
    ensures { result ≡ model.have_member_shape (edn.forms (forms_of (members items.now))) }
{
    for f in items.as_slice() {
        if !has_member_shape(f) {
            return false;
        }
    }
    true
}

#[cycle(shape)]
fn has_member_shape(f: &Edn) -> bool
    ensures { result ≡ model.has_member_shape (form_of f.now) }
{
    match f {
        Edn::Map(pairs) => has_map_shape(pairs),
        _ => true,
    }
}
