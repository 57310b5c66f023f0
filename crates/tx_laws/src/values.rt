//! Laws 7 and 8: an entity has one value of an attribute of cardinality one, and a value of a unique attribute has one
//! entity. The history keeps both, so only an addition can break them, and an attribute that comes to promise more.
ghost use Rattle.std.specs.Prelude.{◌≡◌, ◌&&◌, not, List, ◌∷◌, Bool, true, IfOk, nat_eq};
ghost use Rattle.std.specs.List.{list_all, list_any};
ghost use Rattle.std.specs.Option.{option_map_or};
ghost use Rattle.std.specs.Ordering.{nat_cmp};
ghost use Rattle.std.specs.BTreeMap.{get};
ghost use Rattle.fb_values.specs.declared.facts.Datom.{Datom};
ghost use Rattle.fb_values.specs.declared.facts.Value.{Value};
ghost use Rattle.fb_model.specs.Facts.{facts as facts_in, is_of, value_eq};
ghost use Rattle.fb_model.specs.Laws as model;
ghost use Rattle.fb_model.specs.Lawful.{IsLawful};
ghost use Rattle.fb_schema.specs.Described.{SchemaStands};
ghost use Rattle.tx_after.specs.After.{AreChanges, after};
ghost use Rattle.tx_laws.specs.Alterations.{HasAltered};
ghost use Rattle.tx_laws.specs.Additions as additions;

use crate::altered::Altered;
use fb_facts::Facts;
use fb_memory::Memory;
use fb_schema::Schema;
use fb_values::{Datom, Value};
use std::alloc::Global;
use std::collections::{BTreeMap, BTreeSet};
use tx_after::mentions;

/// Law 7: whether each entity has one value at most of each attribute of cardinality one.
pub fn has_one_value_each<F: Facts>(
    alloc: Global,
    facts: &F,
    schema: &Schema,
    altered: &BTreeMap<u64, Altered>,
    datoms: &[Datom],
) -> Result<bool, Memory>
    requires stands { SchemaStands schema.now (F.history facts.now) }
    requires lawful { IsLawful (F.history facts.now) }
    requires changes { AreChanges datoms.now }
    requires altered { HasAltered altered.now (facts_in (F.history facts.now))
        (after (F.history facts.now) datoms.now) datoms.now }
    ensures { IfOk result
        (λ has. has ≡ model.keeps_one_value (after (F.history facts.now) datoms.now)) }
{
    if !keep_values(altered, datoms) {
        return Ok(false);
    }
    let are_apart = singles_are_apart(alloc, schema, altered, datoms)?;
    if !are_apart {
        return Ok(false);
    }
    singles_meet_none(facts, schema, altered, datoms)
}

/// Law 8: whether each value of a unique attribute has one entity at most.
pub fn has_one_holder_each<F: Facts>(
    alloc: Global,
    facts: &F,
    schema: &Schema,
    altered: &BTreeMap<u64, Altered>,
    datoms: &[Datom],
) -> Result<bool, Memory>
    requires stands { SchemaStands schema.now (F.history facts.now) }
    requires lawful { IsLawful (F.history facts.now) }
    requires changes { AreChanges datoms.now }
    requires altered { HasAltered altered.now (facts_in (F.history facts.now))
        (after (F.history facts.now) datoms.now) datoms.now }
    ensures { IfOk result
        (λ has. has ≡ model.keeps_one_holder (after (F.history facts.now) datoms.now)) }
{
    if !keep_holders(altered, datoms) {
        return Ok(false);
    }
    let are_alone = soles_are_alone(alloc, schema, altered, datoms)?;
    if !are_alone {
        return Ok(false);
    }
    Ok(soles_meet_none(facts, schema, altered, datoms))
}

/// Whether each attribute that comes to have one value of each entity has so.
fn keep_values(altered: &BTreeMap<u64, Altered>, datoms: &[Datom]) -> bool
    ensures { result
        ≡ list_all (λ d. option_map_or (λ a. a.keeps_values) (get nat_cmp altered.now d.e) true)
        datoms.now }
{
    for d in datoms {
        if !keeps_values(altered, d.e) {
            return false;
        }
    }
    true
}

fn keeps_values(altered: &BTreeMap<u64, Altered>, e: u64) -> bool
    ensures { result ≡ option_map_or (λ a. a.keeps_values) (get nat_cmp altered.now e) true }
{
    match altered.get(&e) {
        Some(altered) => altered.keeps_values,
        None => true,
    }
}

/// Whether no two additions give an entity two values.
fn singles_are_apart(
    alloc: Global,
    schema: &Schema,
    altered: &BTreeMap<u64, Altered>,
    datoms: &[Datom],
) -> Result<bool, Memory>
    ensures { IfOk result
        (λ are. are ≡ additions.are_apart (additions.is_single schema.now altered.now) datoms.now) }
{
    let mut met = BTreeSet::new(alloc);
    let mut i = datoms.len();
    while i > 0 {
        i -= 1;
        let d = &datoms[i];
        let counts = is_single(schema, altered, d);
        let is_first = meet_place(&mut met, counts, d)?;
        if !is_first {
            return Ok(false);
        }
    }
    Ok(true)
}

/// Whether the entity and the attribute are met for the first time, if the datom counts.
fn meet_place(met: &mut BTreeSet<(u64, u64)>, counts: bool, d: &Datom) -> Result<bool, Memory>
    ensures first { (test : Datom → Bool) (ds : List Datom) → test d.now ≡ counts
        → additions.HasPlaces met.old test ds
        → IfOk result (λ first. first
        ≡ not (counts
        && list_any (λ other. test other && (nat_eq other.e d.now.e && nat_eq other.a d.now.a))
        ds)) }
    ensures met { (test : Datom → Bool) (ds : List Datom) → test d.now ≡ counts
        → additions.HasPlaces met.old test ds
        → IfOk result (λ _. additions.HasPlaces met.new test (d.now ∷ ds)) }
{
    if !counts {
        return Ok(true);
    }
    Ok(met.insert((d.e, d.a))?)
}

/// Whether no addition gives an entity a second value beside one from before.
fn singles_meet_none<F: Facts>(
    facts: &F,
    schema: &Schema,
    altered: &BTreeMap<u64, Altered>,
    datoms: &[Datom],
) -> Result<bool, Memory>
    requires { AreChanges datoms.now }
    ensures { IfOk result (λ none. none
        ≡ list_all
        (λ d. not (additions.is_single schema.now altered.now d
        && additions.meets_value (F.history facts.now) datoms.now d))
        datoms.now) }
{
    for d in datoms {
        let meets = is_single(schema, altered, d) && meets_value(facts, datoms, d)?;
        if meets {
            return Ok(false);
        }
    }
    Ok(true)
}

fn is_single(schema: &Schema, altered: &BTreeMap<u64, Altered>, d: &Datom) -> bool
    ensures { result ≡ additions.is_single schema.now altered.now d.now }
{
    d.added && schema.is_one(d.a) && stays_one(altered, d.a)
}

fn stays_one(altered: &BTreeMap<u64, Altered>, a: u64) -> bool
    ensures { result ≡ option_map_or (λ a. a.one) (get nat_cmp altered.now a) true }
{
    match altered.get(&a) {
        Some(altered) => altered.one,
        None => true,
    }
}

fn meets_value<F: Facts>(facts: &F, datoms: &[Datom], d: &Datom) -> Result<bool, Memory>
    requires { AreChanges datoms.now }
    ensures { IfOk result
        (λ meets. meets ≡ additions.meets_value (F.history facts.now) datoms.now d.now) }
{
    let values = facts.values_of(d.e, d.a)?;
    Ok(one_stays(&values, datoms, d))
}

/// Whether one of the values from before stays as it was.
fn one_stays(values: &[Value], datoms: &[Datom], d: &Datom) -> bool
    requires { AreChanges datoms.now }
    ensures { result
        ≡ list_any (λ v. not (list_any (is_of d.now.e d.now.a v) datoms.now)) values.now }
{
    for v in values {
        if !mentions(datoms, d.e, d.a, v) {
            return true;
        }
    }
    false
}

/// Whether each attribute that comes to be unique has one holder of each value.
fn keep_holders(altered: &BTreeMap<u64, Altered>, datoms: &[Datom]) -> bool
    ensures { result
        ≡ list_all (λ d. option_map_or (λ a. a.keeps_holders) (get nat_cmp altered.now d.e) true)
        datoms.now }
{
    for d in datoms {
        if !keeps_holders(altered, d.e) {
            return false;
        }
    }
    true
}

fn keeps_holders(altered: &BTreeMap<u64, Altered>, e: u64) -> bool
    ensures { result ≡ option_map_or (λ a. a.keeps_holders) (get nat_cmp altered.now e) true }
{
    match altered.get(&e) {
        Some(altered) => altered.keeps_holders,
        None => true,
    }
}

/// Whether no two additions give a value two holders.
fn soles_are_alone(
    alloc: Global,
    schema: &Schema,
    altered: &BTreeMap<u64, Altered>,
    datoms: &[Datom],
) -> Result<bool, Memory>
    ensures { IfOk result
        (λ are. are ≡ additions.are_alone (additions.is_sole schema.now altered.now) datoms.now) }
{
    let mut met = BTreeSet::new(alloc);
    let mut i = datoms.len();
    while i > 0 {
        i -= 1;
        let d = &datoms[i];
        let counts = is_sole(schema, altered, d);
        let is_first = meet_content(&mut met, counts, d)?;
        if !is_first {
            return Ok(false);
        }
    }
    Ok(true)
}

/// Whether the attribute and the value are met for the first time, if the datom counts.
fn meet_content(met: &mut BTreeSet<(u64, Value)>, counts: bool, d: &Datom) -> Result<bool, Memory>
    ensures first { (test : Datom → Bool) (ds : List Datom) → test d.now ≡ counts
        → additions.HasContents met.old test ds
        → IfOk result (λ first. first
        ≡ not (counts
        && list_any (λ other. test other && (nat_eq other.a d.now.a && value_eq other.v d.now.v))
        ds)) }
    ensures met { (test : Datom → Bool) (ds : List Datom) → test d.now ≡ counts
        → additions.HasContents met.old test ds
        → IfOk result (λ _. additions.HasContents met.new test (d.now ∷ ds)) }
{
    if !counts {
        return Ok(true);
    }
    Ok(met.insert((d.a, d.v.copy()?))?)
}

/// Whether no addition gives a value a second holder beside one from before.
fn soles_meet_none<F: Facts>(
    facts: &F,
    schema: &Schema,
    altered: &BTreeMap<u64, Altered>,
    datoms: &[Datom],
) -> bool
    requires { AreChanges datoms.now }
    ensures { result
        ≡ list_all
        (λ d. not (additions.is_sole schema.now altered.now d
        && additions.meets_holder (F.history facts.now) datoms.now d))
        datoms.now }
{
    for d in datoms {
        if is_sole(schema, altered, d) && meets_holder(facts, datoms, d) {
            return false;
        }
    }
    true
}

fn is_sole(schema: &Schema, altered: &BTreeMap<u64, Altered>, d: &Datom) -> bool
    ensures { result ≡ additions.is_sole schema.now altered.now d.now }
{
    d.added && schema.is_unique(d.a) && stays_unique(altered, d.a)
}

fn stays_unique(altered: &BTreeMap<u64, Altered>, a: u64) -> bool
    ensures { result ≡ option_map_or (λ a. a.unique) (get nat_cmp altered.now a) true }
{
    match altered.get(&a) {
        Some(altered) => altered.unique,
        None => true,
    }
}

fn meets_holder<F: Facts>(facts: &F, datoms: &[Datom], d: &Datom) -> bool
    requires { AreChanges datoms.now }
    ensures { result ≡ additions.meets_holder (F.history facts.now) datoms.now d.now }
{
    match facts.holder(d.a, &d.v) {
        Some(e) => !mentions(datoms, e, d.a, &d.v),
        None => false,
    }
}
