//! The facts of an entity and its parts.
ghost use Rattle.std.specs.Prelude.{◌≡◌, ◌++◌, filter_map, OnOk};
ghost use Rattle.fb_model.specs.Facts.{facts as facts_in};
ghost use Rattle.fb_facts.specs.FactLists.{facts_of};
ghost use Rattle.fb_schema.specs.Described.{SchemaStands};
ghost use Rattle.tx_model.specs.Tempids.{db_of};
ghost use Rattle.tx_model.specs.Changes.{set_withdrawn};
ghost use Rattle.tx_sweep.specs.Sweep.{part_to, said_of, AreSwept, Sweeps, Visits};

use crate::found::{Sweep, push_facts, push_parts};
use fb_facts::{Facts, the_lists_are_the_rising_ones};
use fb_memory::Memory;
use fb_schema::{Schema, schemas_tell_of_attributes};
use std::alloc::Global;
use tx_asks::Asking;

/// Finds all facts of the entity, its parts, theirs and so on, and what refers to them. An entity that was visited before
/// was visited with all its parts, so the visit ends there.
pub fn sweep_entity<F: Facts>(
    alloc: Global,
    found: &mut Sweep,
    place: usize,
    e: u64,
    facts: &F,
    schema: &Schema,
) -> Result<(), Memory>
    requires { SchemaStands schema.now (F.history facts.now) }
    ensures { AreSwept (facts_in (F.history facts.now)) place found.old
        → OnOk result (Sweeps (facts_in (F.history facts.now)) place
        (set_withdrawn (db_of (F.history facts.now)) e) found.old found.new) }
{
    the_lists_are_the_rising_ones();
    schemas_tell_of_attributes();
    let mut stack = Vec::new(alloc);
    stack.push(e)?;
    while let Some(next) = stack.pop() {
        visit(found, &mut stack, place, next, facts, schema)?;
    }
    Ok(())
}

/// Finds the facts of the entity, unless it was visited before, and puts its parts on the stack.
fn visit<F: Facts>(
    found: &mut Sweep,
    stack: &mut Vec<u64>,
    place: usize,
    e: u64,
    facts: &F,
    schema: &Schema,
) -> Result<(), Memory>
    ensures { OnOk result (Visits (F.history facts.now) schema.now place e stack.old.items
        stack.new.items found.old found.new) }
{
    if !found.visited.insert(e)? {
        return Ok(());
    }
    push_said(&mut found.askings, stack, place, e, facts, schema)
}

fn push_said<F: Facts>(
    askings: &mut Vec<Asking>,
    stack: &mut Vec<u64>,
    place: usize,
    e: u64,
    facts: &F,
    schema: &Schema,
) -> Result<(), Memory>
    ensures askings { OnOk result
        (askings.new.items ≡ askings.old.items ++ said_of (F.history facts.now) place e) }
    ensures stack { OnOk result (stack.new.items
        ≡ stack.old.items ++ filter_map (part_to schema.now) (facts_of (F.history facts.now) e)) }
{
    let said = facts.facts_of(e)?;
    push_parts(stack, schema, said.as_slice())?;
    push_facts(askings, place, said.as_slice())?;
    let referring = facts.refs_to(e)?;
    push_facts(askings, place, referring.as_slice())
}
