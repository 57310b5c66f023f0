//! Attributes, from a list of facts.
use crate::names::value_of;
use fb_numbers::{
    CARDINALITY, CARDINALITY_MANY, IDENT, INDEX, IS_COMPONENT, TYPE_REF, UNIQUE, VALUE_TYPE,
};
use fb_text::Text;
use fb_values::{Datom, Order, Value};

/// An installed attribute.
#[derive(Clone, Copy)]
pub struct Attribute<'a> {
    pub id: u64,
    pub name: &'a Text,
    /// The entity of its type.
    pub kind: u64,
    pub many: bool,
    /// The entity of the kind of its uniqueness, or 0.
    pub uniqueness: u64,
    pub component: bool,
    pub indexed: bool,
}

fn keyword_of(facts: &[Datom], e: u64, a: u64) -> Option<&Text> {
    match value_of(facts, e, a)? {
        Value::Keyword(name) => Some(name),
        _ => None,
    }
}

/// The entity that is the value of an entity's attribute.
pub fn entity_under(facts: &[Datom], e: u64, a: u64) -> Option<u64> {
    match value_of(facts, e, a)? {
        Value::Ref(entity) => Some(*entity),
        _ => None,
    }
}

fn truth_of(facts: &[Datom], e: u64, a: u64) -> bool {
    match value_of(facts, e, a) {
        Some(Value::Bool(b)) => *b,
        _ => false,
    }
}

/// The entity as an attribute, if it has an ident, a type and a cardinality.
pub fn attribute_of(facts: &[Datom], e: u64) -> Option<Attribute<'_>> {
    let name = keyword_of(facts, e, IDENT)?;
    let kind = entity_under(facts, e, VALUE_TYPE)?;
    let count = entity_under(facts, e, CARDINALITY)?;
    Some(Attribute {
        id: e,
        name,
        kind,
        many: count == CARDINALITY_MANY,
        uniqueness: entity_under(facts, e, UNIQUE).unwrap_or(0),
        component: truth_of(facts, e, IS_COMPONENT),
        indexed: truth_of(facts, e, INDEX),
    })
}

fn is_keyword(v: &Value, name: &str) -> bool {
    match v {
        Value::Keyword(text) => text.as_str() == name,
        _ => false,
    }
}

/// The least entity that the keyword names.
pub fn named(facts: &[Datom], name: &str) -> Option<u64> {
    let mut least = None;
    for d in facts {
        if d.a == IDENT && is_keyword(&d.v, name) {
            least = Some(d.e.min(least.unwrap_or(d.e)));
        }
    }
    least
}

/// The attribute that the keyword names.
pub fn attribute_named<'a>(facts: &'a [Datom], name: &str) -> Option<Attribute<'a>> {
    attribute_of(facts, named(facts, name)?)
}

fn is_held(order: Order, attribute: &Attribute<'_>) -> bool {
    match order {
        Order::Eavt | Order::Aevt => true,
        Order::Avet => attribute.uniqueness != 0 || attribute.indexed,
        Order::Vaet => attribute.kind == TYPE_REF,
    }
}

/// Whether the index holds the datoms of the attribute.
pub fn covers(facts: &[Datom], order: Order, a: u64) -> bool {
    match order {
        Order::Eavt | Order::Aevt => true,
        _ => attribute_of(facts, a).is_some_and(|attribute| is_held(order, &attribute)),
    }
}
