//! Values and names, from a list of facts.
use crate::schema::named;
use fb_text::Text;
use fb_values::{Datom, Value};

/// A name of an entity in a read.
#[derive(Drop)]
pub enum Id {
    Number(u64),
    Ident(Text),
    /// The entity that has the value of the attribute.
    Lookup(u64, Value),
}

/// The first value of the entity under the attribute.
pub fn value_of(facts: &[Datom], e: u64, a: u64) -> Option<&Value> {
    for d in facts {
        if d.e == e && d.a == a {
            return Some(&d.v);
        }
    }
    None
}

/// The least entity that has the value of the attribute.
pub fn holder(facts: &[Datom], a: u64, v: &Value) -> Option<u64> {
    let mut least = None;
    for d in facts {
        if d.a == a && d.v == *v {
            least = Some(d.e.min(least.unwrap_or(d.e)));
        }
    }
    least
}

/// The entity, by the facts of a view without history.
pub fn entity_named(facts: &[Datom], id: &Id) -> Option<u64> {
    match id {
        Id::Number(n) => Some(*n),
        Id::Ident(name) => named(facts, name.as_str()),
        Id::Lookup(a, v) => holder(facts, *a, v),
    }
}
