//! What was found so far.
ghost use Rattle.std.specs.Prelude.{◌≡◌, ◌++◌, map, filter_map, OnOk};
ghost use Rattle.fb_model.specs.Schema.{is_part};
ghost use Rattle.tx_sweep.specs.Sweep.{asking_at, part_to, value_at};

use fb_memory::Memory;
use fb_schema::Schema;
use fb_values::{Datom, Value};
use std::collections::BTreeSet;
use tx_asks::Asking;

/// What was found, and what need not be looked for again.
#[derive(Drop)]
pub struct Sweep {
    /// The entities to which a retraction of an entity has come.
    pub visited: BTreeSet<u64>,
    /// The entities and attributes of which every value was found.
    pub pairs: BTreeSet<(u64, u64)>,
    pub askings: Vec<Asking>,
}

/// Adds an asking for each fact.
pub fn push_facts(askings: &mut Vec<Asking>, place: usize, facts: &[Datom]) -> Result<(), Memory>
    ensures { OnOk result
        (askings.new.items ≡ askings.old.items ++ map (asking_at place) facts.now) }
{
    for d in facts {
        let v = d.v.copy()?;
        askings.push(Asking {
            e: d.e,
            a: d.a,
            v,
            place,
        })?;
    }
    Ok(())
}

/// Adds an asking for each value.
pub fn push_values(
    askings: &mut Vec<Asking>,
    place: usize,
    e: u64,
    a: u64,
    values: Vec<Value>,
) -> Result<(), Memory>
    ensures { OnOk result
        (askings.new.items ≡ askings.old.items ++ map (value_at place e a) values.items) }
{
    for v in values {
        askings.push(Asking { e, a, v, place })?;
    }
    Ok(())
}

/// Adds the parts that the facts name.
pub fn push_parts(stack: &mut Vec<u64>, schema: &Schema, facts: &[Datom]) -> Result<(), Memory>
    ensures { OnOk result
        (stack.new.items ≡ stack.old.items ++ filter_map (part_to schema.now) facts.now) }
{
    for d in facts {
        if let Some(part) = part_in(schema, d) {
            stack.push(part)?;
        }
    }
    Ok(())
}

/// The part that the fact names: a value under a component attribute.
fn part_in(schema: &Schema, d: &Datom) -> Option<u64>
    ensures { result ≡ part_to schema.now d.now }
{
    let Value::Ref(part) = &d.v else {
        return None;
    };
    if is_component(schema, d.a) {
        Some(*part)
    } else {
        None
    }
}

fn is_component(schema: &Schema, a: u64) -> bool
    ensures { result ≡ is_part schema.now a }
{
    match schema.attribute(a) {
        Some(attribute) => attribute.component,
        None => false,
    }
}
