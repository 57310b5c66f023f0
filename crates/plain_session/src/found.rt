//! What a view has of an entity: the values of its attributes, the entities that refer to it, and its attributes' names.
use fb_memory::Memory;
use fb_numbers::TYPE_REF;
use fb_text::Text;
use fb_values::{Datom, Value};
use plain_asks::{Key, key_in};
use plain_reads::{Attribute, attribute_of};
use std::alloc::Global;
use std::cmp::Ordering;

/// A database value, as a pull reads it.
#[derive(Clone, Copy)]
pub(crate) struct Facts<'a> {
    /// The facts of the whole history without any filter, which tell what an attribute is.
    pub(crate) schema: &'a [Datom],
    /// The facts of the view without history, in the order of the index by entity.
    pub(crate) seen: &'a [Datom],
}

/// What is found under a name.
#[derive(Drop)]
pub(crate) struct Found {
    /// There may be more than one value.
    pub(crate) several: bool,
    /// The values are parts.
    pub(crate) parts: bool,
    pub(crate) values: Vec<Value>,
}

/// What is found of the entity under the name, forward or reversed. Under the name of no attribute nothing is.
pub(crate) fn look_up(
    alloc: Global,
    facts: &Facts<'_>,
    e: u64,
    name: &Text,
) -> Result<Found, Memory> {
    match key_in(alloc, facts.schema, name)? {
        Key::Forward(Some(attribute)) => found_forward(alloc, facts, e, &attribute),
        Key::Backward(Some(attribute)) => found_backward(alloc, facts, e, &attribute),
        _ => Ok(absent(alloc)),
    }
}

fn absent(alloc: Global) -> Found {
    Found {
        several: false,
        parts: false,
        values: Vec::new(alloc),
    }
}

fn found_forward(
    alloc: Global,
    facts: &Facts<'_>,
    e: u64,
    attribute: &Attribute<'_>,
) -> Result<Found, Memory> {
    let mut values = Vec::new(alloc);
    for d in facts.seen {
        if d.e == e && d.a == attribute.id {
            values.push(d.v.copy()?)?;
        }
    }
    Ok(Found {
        several: attribute.many,
        parts: attribute.component,
        values,
    })
}

/// The entities that refer to this one. A part has one whole.
fn found_backward(
    alloc: Global,
    facts: &Facts<'_>,
    e: u64,
    attribute: &Attribute<'_>,
) -> Result<Found, Memory> {
    let mut values = Vec::new(alloc);
    for d in facts.seen {
        if attribute.kind == TYPE_REF && d.a == attribute.id && refers_to(e, &d.v) {
            values.push(Value::Ref(d.e))?;
        }
    }
    Ok(Found {
        several: !attribute.component,
        parts: false,
        values,
    })
}

fn refers_to(e: u64, v: &Value) -> bool {
    match v {
        Value::Ref(other) => *other == e,
        _ => false,
    }
}

/// The names of the attributes that the entity has, each once, in the order of their bytes.
pub(crate) fn names_of<'a>(
    alloc: Global,
    facts: &Facts<'a>,
    e: u64,
) -> Result<Vec<&'a Text>, Memory> {
    let mut list = Vec::new(alloc);
    for d in facts.seen {
        if d.e == e {
            if let Some(attribute) = attribute_of(facts.schema, d.a) {
                put_name(&mut list, attribute.name)?;
            }
        }
    }
    Ok(list)
}

fn put_name<'a>(list: &mut Vec<&'a Text>, name: &'a Text) -> Result<(), Memory> {
    for at in 0..list.len() {
        match name.as_str().cmp(list[at].as_str()) {
            Ordering::Less => {
                list.insert(at, name)?;
                return Ok(());
            }
            Ordering::Equal => return Ok(()),
            Ordering::Greater => {}
        }
    }
    list.push(name)?;
    Ok(())
}
