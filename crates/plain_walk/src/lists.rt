//! What list forms ask.
use crate::forms::{Verb, name_in, verb_in};
use crate::links::has_ref;
use crate::operands::{old_value_part, value_part};
use edn_form::Edn;
use fb_values::Datom;
use plain_asks::{Ask, Name};
use plain_reads::{Attribute, attribute_named};

/// What the list form asks.
pub fn list_ask<'a>(facts: &'a [Datom], members: &'a [Edn]) -> Option<Ask<'a>> {
    let [first, e, more @ ..] = members else {
        return None;
    };
    let verb = verb_in(first)?;
    let name = name_in(e)?;
    match more {
        [Edn::Key(k), values @ ..] => {
            attribute_ask(verb, name, attribute_named(facts, k.as_str()), values)
        }
        _ => entity_ask(verb, name),
    }
}

fn entity_ask<'a>(verb: Verb, name: Name<'a>) -> Option<Ask<'a>> {
    match verb {
        Verb::RetractEntity => Some(Ask::RetractsEntity(name)),
        _ => None,
    }
}

fn attribute_ask<'a>(
    verb: Verb,
    name: Name<'a>,
    attribute: Option<Attribute<'a>>,
    values: &'a [Edn],
) -> Option<Ask<'a>> {
    let is_ref = has_ref(&attribute);
    match (verb, values) {
        (Verb::Add, [v]) => Some(Ask::Adds(name, attribute, value_part(is_ref, v))),
        (Verb::Retract, [v]) => Some(Ask::Retracts(name, attribute, old_value_part(is_ref, v))),
        (Verb::Retract, []) => Some(Ask::RetractsAll(name, attribute)),
        (Verb::Cas, [old, new]) => Some(Ask::Compares(
            name,
            attribute,
            old_value_part(is_ref, old),
            old_value_part(is_ref, new),
        )),
        _ => None,
    }
}
