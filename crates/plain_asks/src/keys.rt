//! The keys of maps and of patterns, with the attributes that the facts have.
use fb_memory::Memory;
use fb_text::Text;
use fb_values::Datom;
use plain_reads::{Attribute, attribute_named};
use std::alloc::Global;

/// The key of a map.
#[derive(Clone, Copy)]
pub enum Key<'a> {
    /// `:db/id`.
    Own,
    /// An attribute of the map's entity.
    Forward(Option<Attribute<'a>>),
    /// An attribute whose value is the map's entity: a name that begins with `_`.
    Backward(Option<Attribute<'a>>),
}

/// The key that a keyword is.
pub fn key_in<'a>(alloc: Global, facts: &'a [Datom], k: &Text) -> Result<Key<'a>, Memory> {
    let name = k.as_str();
    if name == "db/id" {
        return Ok(Key::Own);
    }
    let (namespace, local) = match name.split_once('/') {
        Some((namespace, local)) => (Some(namespace), local),
        None => (None, name),
    };
    match (namespace, local.strip_prefix('_')) {
        (_, None) => Ok(Key::Forward(attribute_named(facts, name))),
        (None, Some(rest)) => Ok(Key::Backward(attribute_named(facts, rest))),
        (Some(namespace), Some(rest)) => {
            let forward = format!(in alloc; "{namespace}/{rest}")?;
            Ok(Key::Backward(attribute_named(facts, forward.as_str())))
        }
    }
}
