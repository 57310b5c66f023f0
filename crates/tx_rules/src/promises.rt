//! Attributes whose facts break what is promised anew.
ghost use Rattle.std.specs.Prelude.{◌≡◌, ◌||◌, not, ℕ, List, IfOk, IfSome};
ghost use Rattle.std.specs.List.{list_any};
ghost use Rattle.std.specs.Option.{option_map};
ghost use Rattle.fb_values.specs.declared.facts.Datom.{Datom};
ghost use Rattle.fb_model.specs.Lawful.{IsLawful};
ghost use Rattle.fb_model.specs.Schema as schema;
ghost use Rattle.fb_schema.specs.Parts.{model_attribute};
ghost use Rattle.tx_model.specs.ChangeRules as rules;
ghost use Rattle.tx_after.specs.After.{AreChanges, after};
ghost use Rattle.tx_after.specs.Parts.{AreByAttribute};
ghost use Rattle.tx_after.specs.Promises as promised;
ghost use Rattle.tx_rules.specs.Promises as model;

use crate::places::{earlier, recorded_at};
use fb_facts::Facts;
use fb_memory::Memory;
use fb_numbers::{CARDINALITY, UNIQUE};
use fb_schema::{Attribute, Schema};
use fb_values::Datom;
use std::alloc::Global;
use tx_after::{ByAttribute, attribute_after, gives_one_holder, gives_one_value};
use tx_asks::Triple;

/// Whether the facts of an attribute break what it promises.
#[derive(Clone, Copy)]
struct Verdict {
    e: u64,
    broken: bool,
}

/// The first form that alters the cardinality or the uniqueness of an attribute against its facts.
#[tactic(auto, using(crate::proofs::Earlier::nowhere_first))]
pub fn first_broken<F: Facts>(
    alloc: Global,
    triples: &[Triple],
    changes: &[Datom],
    facts: &F,
    schema: &Schema,
) -> Result<Option<usize>, Memory>
    requires lawful { IsLawful (F.history facts.now) }
    requires changes { AreChanges changes.now }
    ensures { IfOk result (λ place. place
        ≡ model.first_broken schema.now (after (F.history facts.now) changes.now) triples.now) }
{
    if !promise_anew(triples) {
        return Ok(None);
    }
    let by_attribute = ByAttribute::of(alloc, changes)?;
    first_broken_by(alloc, triples, changes, &by_attribute, facts, schema)
}

/// The same, where the changes are at hand by their attributes.
fn first_broken_by<F: Facts>(
    alloc: Global,
    triples: &[Triple],
    changes: &[Datom],
    by_attribute: &ByAttribute,
    facts: &F,
    schema: &Schema,
) -> Result<Option<usize>, Memory>
    requires lawful { IsLawful (F.history facts.now) }
    requires changes { AreChanges changes.now }
    requires parts { AreByAttribute by_attribute.now.parts changes.now }
    ensures { IfOk result (λ place. place
        ≡ model.first_broken schema.now (after (F.history facts.now) changes.now) triples.now) }
{
    let mut first = None;
    let mut last = None;
    for triple in triples {
        if promises_anew(triple) {
            let verdict = known_or_found(
                alloc,
                last,
                triple.e,
                changes,
                by_attribute,
                facts,
                schema,
            )?;
            last = Some(verdict);
            first = earlier(first, broken_at(&verdict, triple));
        }
    }
    Ok(first)
}

/// Whether one of the triples makes its entity promise more.
fn promise_anew(triples: &[Triple]) -> bool
    ensures { result ≡ list_any model.promises_anew triples.now }
{
    triples.iter().any(promises_anew)
}

/// Whether it is recorded, and about the cardinality or the uniqueness of its entity.
fn promises_anew(triple: &Triple) -> bool
    ensures { result ≡ model.promises_anew triple.now }
{
    (triple.a == CARDINALITY || triple.a == UNIQUE) && recorded_at(triple).is_some()
}

/// The first form that breaks the rule by the triple, where this is the verdict on its entity.
fn broken_at(verdict: &Verdict, triple: &Triple) -> Option<usize>
    ensures { result ≡ model.broken_at verdict.now triple.now }
{
    if verdict.broken {
        recorded_at(triple)
    } else {
        None
    }
}

/// The verdict on the entity. It is given once, since the triples of an entity are side by side.
fn known_or_found<F: Facts>(
    alloc: Global,
    last: Option<Verdict>,
    e: u64,
    changes: &[Datom],
    by_attribute: &ByAttribute,
    facts: &F,
    schema: &Schema,
) -> Result<Verdict, Memory>
    requires lawful { IsLawful (F.history facts.now) }
    requires changes { AreChanges changes.now }
    requires parts { AreByAttribute by_attribute.now.parts changes.now }
    requires known { IfSome last (λ verdict. verdict
        ≡ model.verdict_of schema.now (after (F.history facts.now) changes.now) verdict.e) }
    ensures { IfOk result (λ verdict. verdict
        ≡ model.verdict_of schema.now (after (F.history facts.now) changes.now) e) }
{
    match last {
        Some(verdict) if verdict.e == e => Ok(verdict),
        _ => verdict_of(alloc, e, changes, by_attribute, facts, schema),
    }
}

fn verdict_of<F: Facts>(
    alloc: Global,
    e: u64,
    changes: &[Datom],
    by_attribute: &ByAttribute,
    facts: &F,
    schema: &Schema,
) -> Result<Verdict, Memory>
    requires lawful { IsLawful (F.history facts.now) }
    requires changes { AreChanges changes.now }
    requires parts { AreByAttribute by_attribute.now.parts changes.now }
    ensures { IfOk result (λ verdict. verdict
        ≡ model.verdict_of schema.now (after (F.history facts.now) changes.now) e) }
{
    if !schema.is_attribute(e) {
        return Ok(Verdict { e, broken: false });
    }
    let kept = keeps_its_promise(alloc, e, changes, by_attribute, facts)?;
    Ok(Verdict { e, broken: !kept })
}

fn keeps_its_promise<F: Facts>(
    alloc: Global,
    a: u64,
    changes: &[Datom],
    by_attribute: &ByAttribute,
    facts: &F,
) -> Result<bool, Memory>
    requires lawful { IsLawful (F.history facts.now) }
    requires changes { AreChanges changes.now }
    requires parts { AreByAttribute by_attribute.now.parts changes.now }
    ensures { IfOk result
        (λ kept. kept ≡ rules.keeps_its_promise (after (F.history facts.now) changes.now) a) }
{
    let attribute = attribute_after(facts, changes, a)?;
    let has_one_value = keeps_one_value(alloc, &attribute, a, changes, by_attribute, facts)?;
    if !has_one_value {
        return Ok(false);
    }
    keeps_one_holder(alloc, &attribute, a, changes, by_attribute, facts)
}

fn keeps_one_value<F: Facts>(
    alloc: Global,
    attribute: &Option<Attribute>,
    a: u64,
    changes: &[Datom],
    by_attribute: &ByAttribute,
    facts: &F,
) -> Result<bool, Memory>
    requires changes { AreChanges changes.now }
    requires parts { AreByAttribute by_attribute.now.parts changes.now }
    requires attribute { option_map model_attribute attribute.now
        ≡ schema.attribute_of (after (F.history facts.now) changes.now) a }
    ensures { IfOk result (λ kept. kept
        ≡ (not (schema.is_one (after (F.history facts.now) changes.now) a)
        || promised.gives_one_value (after (F.history facts.now) changes.now) a)) }
{
    if !is_one(attribute) {
        return Ok(true);
    }
    gives_one_value(alloc, facts, changes, by_attribute, a)
}

fn keeps_one_holder<F: Facts>(
    alloc: Global,
    attribute: &Option<Attribute>,
    a: u64,
    changes: &[Datom],
    by_attribute: &ByAttribute,
    facts: &F,
) -> Result<bool, Memory>
    requires changes { AreChanges changes.now }
    requires parts { AreByAttribute by_attribute.now.parts changes.now }
    requires attribute { option_map model_attribute attribute.now
        ≡ schema.attribute_of (after (F.history facts.now) changes.now) a }
    ensures { IfOk result (λ kept. kept
        ≡ (not (schema.is_unique (after (F.history facts.now) changes.now) a)
        || promised.gives_one_holder (after (F.history facts.now) changes.now) a)) }
{
    if !is_unique(attribute) {
        return Ok(true);
    }
    gives_one_holder(alloc, facts, changes, by_attribute, a)
}

fn is_one(attribute: &Option<Attribute>) -> bool
    ensures { (facts : List Datom) (a : ℕ)
        → option_map model_attribute attribute.now ≡ schema.attribute_of facts a
        → result ≡ schema.is_one facts a }
{
    match attribute {
        Some(attribute) => !attribute.many,
        None => false,
    }
}

fn is_unique(attribute: &Option<Attribute>) -> bool
    ensures { (facts : List Datom) (a : ℕ)
        → option_map model_attribute attribute.now ≡ schema.attribute_of facts a
        → result ≡ schema.is_unique facts a }
{
    match attribute {
        Some(attribute) => attribute.is_unique(),
        None => false,
    }
}
