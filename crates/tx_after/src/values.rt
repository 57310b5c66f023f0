//! The values of an entity under an attribute in the history with the changes.
ghost use Rattle.std.specs.Prelude.{◌≡◌, map, filter, IfOk};
ghost use Rattle.fb_facts.specs.FactLists.{is_under};
ghost use Rattle.tx_after.specs.After as model;
ghost use Rattle.tx_after.specs.Triples.{without_time};

use crate::merge::merged;
use crate::parts::part_of;
use fb_facts::Facts;
use fb_memory::Memory;
use fb_values::{Datom, Order, Value};
use std::alloc::Global;

/// The values of the entity under the attribute, in their order. Nothing else that is said of the entity is read.
pub fn values_of<F: Facts>(
    alloc: Global,
    facts: &F,
    changes: &[Datom],
    e: u64,
    a: u64,
) -> Result<Vec<Value>, Memory>
    requires { model.AreChanges changes.now }
    ensures { IfOk result
        (λ values. values.items ≡ model.values_of (F.history facts.now) changes.now e a) }
{
    let before = as_facts(alloc, &facts.values_of(e, a)?, e, a)?;
    let told = under(alloc, part_of(changes, e), a)?;
    let after = merged(alloc, Order::Eavt, &before, &told)?;
    values_in(alloc, &after)
}

/// Each value as a fact of the entity under the attribute, of no t.
fn as_facts(alloc: Global, values: &[Value], e: u64, a: u64) -> Result<Vec<Datom>, Memory>
    ensures { IfOk result (λ facts. facts.items ≡ map (without_time e a) values.now) }
{
    let mut facts = Vec::with_capacity(alloc, values.len())?;
    for v in values {
        facts.push(Datom {
            e,
            a,
            v: v.copy()?,
            t: 0,
            added: true,
        })?;
    }
    Ok(facts)
}

/// The changes that are under the attribute.
fn under(alloc: Global, changes: &[Datom], a: u64) -> Result<Vec<Datom>, Memory>
    ensures { IfOk result (λ told. told.items ≡ filter (is_under a) changes.now) }
{
    let mut told = Vec::new(alloc);
    for d in changes {
        if d.a == a {
            told.push(d.copy()?)?;
        }
    }
    Ok(told)
}

fn values_in(alloc: Global, facts: &[Datom]) -> Result<Vec<Value>, Memory>
    ensures { IfOk result (λ values. values.items ≡ map (λ d. d.v) facts.now) }
{
    let mut values = Vec::with_capacity(alloc, facts.len())?;
    for d in facts {
        values.push(d.v.copy()?)?;
    }
    Ok(values)
}
