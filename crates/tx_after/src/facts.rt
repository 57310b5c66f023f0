//! The facts of the history with the changes.
ghost use Rattle.std.specs.Prelude.{◌≡◌, IfOk};
ghost use Rattle.tx_after.specs.After as model;
ghost use Rattle.tx_after.specs.Parts.{AreByAttribute};

use crate::by_attribute::ByAttribute;
use crate::merge::merged;
use crate::parts::part_of;
use fb_facts::Facts;
use fb_memory::Memory;
use fb_values::{Datom, Order};
use std::alloc::Global;

/// The facts of the entity, by attribute and value.
pub fn facts_of<F: Facts>(
    alloc: Global,
    facts: &F,
    changes: &[Datom],
    e: u64,
) -> Result<Vec<Datom>, Memory>
    requires { model.AreChanges changes.now }
    ensures { IfOk result
        (λ list. list.items ≡ model.facts_of (F.history facts.now) changes.now e) }
{
    let before = facts.facts_of(e)?;
    merged(alloc, Order::Eavt, before.as_slice(), part_of(changes, e))
}

/// The facts of the attribute, by entity and value.
pub fn facts_under<F: Facts>(
    alloc: Global,
    facts: &F,
    changes: &[Datom],
    by_attribute: &ByAttribute,
    a: u64,
) -> Result<Vec<Datom>, Memory>
    requires changes { model.AreChanges changes.now }
    requires parts { AreByAttribute by_attribute.now.parts changes.now }
    ensures { IfOk result
        (λ list. list.items ≡ model.facts_under (F.history facts.now) changes.now a) }
{
    let before = facts.facts_under(a)?;
    merged(alloc, Order::Aevt, before.as_slice(), by_attribute.under(a))
}
