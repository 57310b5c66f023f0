//! Whether all facts of an attribute keep what it promises after the changes.
ghost use Rattle.std.specs.Prelude.{◌≡◌, not, IfOk, IsTrue, List, ◌∷◌};
ghost use Rattle.std.specs.List.{list_any};
ghost use Rattle.fb_values.specs.declared.facts.Datom.{Datom};
ghost use Rattle.fb_model.specs.Facts.{value_eq};
ghost use Rattle.tx_after.specs.After as model;
ghost use Rattle.tx_after.specs.Parts.{AreByAttribute};
ghost use Rattle.tx_after.specs.Places.{entities_rise};
ghost use Rattle.tx_after.specs.Promises as promises;

use crate::by_attribute::ByAttribute;
use crate::facts::facts_under;
use fb_facts::Facts;
use fb_memory::Memory;
use fb_values::{Datom, Value};
use std::alloc::Global;
use std::collections::BTreeSet;

/// Whether each entity has one value of the attribute at most.
pub fn gives_one_value<F: Facts>(
    alloc: Global,
    facts: &F,
    changes: &[Datom],
    by_attribute: &ByAttribute,
    a: u64,
) -> Result<bool, Memory>
    requires changes { model.AreChanges changes.now }
    requires parts { AreByAttribute by_attribute.now.parts changes.now }
    ensures { IfOk result
        (λ is. is ≡ promises.gives_one_value (model.after (F.history facts.now) changes.now) a) }
{
    let under = facts_under(alloc, facts, changes, by_attribute, a)?;
    Ok(are_of_other_entities(&under))
}

/// Whether each value of the attribute has one entity at most.
pub fn gives_one_holder<F: Facts>(
    alloc: Global,
    facts: &F,
    changes: &[Datom],
    by_attribute: &ByAttribute,
    a: u64,
) -> Result<bool, Memory>
    requires changes { model.AreChanges changes.now }
    requires parts { AreByAttribute by_attribute.now.parts changes.now }
    ensures { IfOk result
        (λ is. is ≡ promises.gives_one_holder (model.after (F.history facts.now) changes.now) a) }
{
    let under = facts_under(alloc, facts, changes, by_attribute, a)?;
    are_of_other_values(alloc, &under)
}

/// Whether no two of the facts are of one entity. Two that are lie side by side.
fn are_of_other_entities(facts: &[Datom]) -> bool
    requires { IsTrue (entities_rise facts.now) }
    ensures { result ≡ promises.are_of_other_entities facts.now }
{
    let mut i = facts.len();
    while i > 1 {
        i -= 1;
        if facts[i - 1].e == facts[i].e {
            return false;
        }
    }
    true
}

/// Whether no two of the facts have one value.
fn are_of_other_values(alloc: Global, facts: &[Datom]) -> Result<bool, Memory>
    ensures { IfOk result (λ are. are ≡ promises.are_of_other_values facts.now) }
{
    let mut met = BTreeSet::new(alloc);
    let mut i = facts.len();
    while i > 0 {
        i -= 1;
        let is_first = meet(&mut met, &facts[i])?;
        if !is_first {
            return Ok(false);
        }
    }
    Ok(true)
}

/// Whether the datom's value is met for the first time.
fn meet(met: &mut BTreeSet<Value>, d: &Datom) -> Result<bool, Memory>
    ensures first { (ds : List Datom) → promises.HasValues met.old ds
        → IfOk result (λ first. first ≡ not (list_any (λ other. value_eq other.v d.now.v) ds)) }
    ensures met { (ds : List Datom) → promises.HasValues met.old ds
        → IfOk result (λ _. promises.HasValues met.new (d.now ∷ ds)) }
{
    Ok(met.insert(d.v.copy()?)?)
}
