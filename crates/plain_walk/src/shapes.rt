//! Which forms a transaction may be made of, before anything is looked up.
use crate::forms::{Verb, lookup_in, verb_in};
use edn_form::{Edn, Pairs};

/// The forms of a transaction: the members of a vector or a list.
pub fn forms_in(f: &Edn) -> Option<&[Edn]> {
    match f {
        Edn::Vector(items) | Edn::List(items) => Some(items.as_slice()),
        _ => None,
    }
}

/// The place of the first form without a shape.
pub fn first_without_shape(forms: &[Edn]) -> Option<usize> {
    for (place, f) in forms.iter().enumerate() {
        if !has_shape(f) {
            return Some(place);
        }
    }
    None
}

fn has_shape(f: &Edn) -> bool {
    match f {
        Edn::Vector(items) | Edn::List(items) => is_list_form(items.as_slice()),
        Edn::Map(pairs) => is_map_form(pairs),
        _ => false,
    }
}

// ---- list forms

/// A verb, an entity, and as many more as the verb needs. The first of these is an attribute, and only what is added may be said
/// of a new entity.
fn is_list_form(members: &[Edn]) -> bool {
    let [first, e, more @ ..] = members else {
        return false;
    };
    let Some(verb) = verb_in(first) else {
        return false;
    };
    let (is_as_long, may_be_new) = match verb {
        Verb::Add => (more.len() == 2, true),
        Verb::Retract => (more.len() == 1 || more.len() == 2, false),
        Verb::Cas => (more.len() == 3, false),
        Verb::RetractEntity => (more.len() == 0, false),
    };
    is_as_long && names_an_entity(e, may_be_new) && more.first().is_none_or(|a| is_keyword(a))
}

fn names_an_entity(f: &Edn, may_be_new: bool) -> bool {
    match f {
        Edn::Int(_) | Edn::Key(_) => true,
        Edn::Str(_) => may_be_new,
        Edn::Vector(items) => lookup_in(items).is_some(),
        _ => false,
    }
}

fn is_keyword(f: &Edn) -> bool {
    matches!(f, Edn::Key(_))
}

// ---- map forms

/// One pair or more, each with a keyword before its value; `:db/id` comes before what names an entity.
#[cycle(shape)]
fn is_map_form(pairs: &Pairs) -> bool {
    for (key, value) in pairs.as_slice() {
        let Edn::Key(k) = key else {
            return false;
        };
        if k.as_str() == "db/id" && !names_an_entity(value, true) {
            return false;
        }
        if !are_map_forms_inside(value) {
            return false;
        }
    }
    !pairs.is_empty()
}

/// Whether the value, where it is a map, and each map among its members has the shape of a map form.
#[cycle(shape)]
fn are_map_forms_inside(value: &Edn) -> bool {
    match value {
        Edn::Map(pairs) => is_map_form(pairs),
        Edn::Vector(members) | Edn::List(members) | Edn::Set(members) => {
            for f in members.as_slice() {
                if let Edn::Map(pairs) = f {
                    if !is_map_form(pairs) {
                        return false;
                    }
                }
            }
            true
        }
        _ => true,
    }
}
