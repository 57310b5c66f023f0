//! What stands in the place of a value.
use crate::forms::lookup_in;
use crate::links::{Link, has_uniqueness};
use edn_form::{Edn, Items};
use fb_values::Datom;
use plain_asks::{Name, Operand};
use plain_reads::attribute_named;

/// A number, an ident or a tempid under an attribute whose values are entities, and else a plain value.
fn scalar(is_ref: bool, f: &Edn) -> Operand<'_> {
    match f {
        Edn::Int(n) if is_ref && *n >= 0 => Operand::Entity(Name::Number(*n)),
        Edn::Key(k) if is_ref => Operand::Entity(Name::Ident(k)),
        Edn::Str(s) if is_ref => Operand::Entity(Name::Tempid(s)),
        _ => Operand::Plain(f),
    }
}

// ---- list forms

/// The value of a list form: a lookup ref too.
pub fn value_part(is_ref: bool, f: &Edn) -> Operand<'_> {
    match lookup_of(f) {
        Some(lookup) if is_ref => Operand::Entity(lookup),
        _ => scalar(is_ref, f),
    }
}

fn lookup_of(f: &Edn) -> Option<Name<'_>> {
    match f {
        Edn::Vector(items) => lookup_in(items).map(|(k, value)| Name::Lookup(k, value)),
        _ => None,
    }
}

/// A value that is there before: a string names no entity.
pub fn old_value_part(is_ref: bool, f: &Edn) -> Operand<'_> {
    match f {
        Edn::Str(_) => Operand::Plain(f),
        _ => value_part(is_ref, f),
    }
}

// ---- map forms

/// One value under the key of a map.
pub fn linked_part<'a>(facts: &[Datom], link: &Link<'_>, f: &'a Edn) -> Operand<'a> {
    match f {
        Edn::Int(n) if link.is_reversed => Operand::Entity(Name::Number(*n)),
        Edn::Vector(items) => match linked_lookup(facts, link, items) {
            Some(lookup) => Operand::Entity(lookup),
            None => Operand::Plain(f),
        },
        _ => scalar(link.is_ref(), f),
    }
}

/// The entity that a vector names under a key: its first member is a unique attribute, or there is one value alone.
pub fn linked_lookup<'a>(facts: &[Datom], link: &Link<'_>, items: &'a Items) -> Option<Name<'a>> {
    let (k, value) = lookup_in(items)?;
    let is_unique = has_uniqueness(&attribute_named(facts, k.as_str()));
    if link.is_ref() && (is_unique || !link.is_many()) {
        Some(Name::Lookup(k, value))
    } else {
        None
    }
}
