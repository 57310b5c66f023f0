//! The closed set of an entity: it, its parts, their parts and so on.
use crate::attributes::is_part;
use fb_memory::Memory;
use fb_values::{Datom, Value};
use std::alloc::Global;

pub fn closed_set(alloc: Global, facts: &[Datom], e: u64) -> Result<Vec<u64>, Memory> {
    let mut set = Vec::new(alloc);
    set.push(e)?;
    for _ in facts {
        add_parts(facts, &mut set)?;
    }
    Ok(set)
}

/// Adds the parts of the set's entities.
fn add_parts(facts: &[Datom], set: &mut Vec<u64>) -> Result<(), Memory> {
    for d in facts {
        if let Value::Ref(part) = &d.v {
            if set.contains(&d.e) && !set.contains(part) && is_part(facts, d.a) {
                set.push(*part)?;
            }
        }
    }
    Ok(())
}
