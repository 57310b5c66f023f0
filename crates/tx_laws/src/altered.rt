//! What becomes of the entities that an entry describes as attributes. Each is looked at once, for the laws 7 to 9.
ghost use Rattle.std.specs.Prelude.{◌≡◌, ◌||◌, not, List, ◌∷◌, IfOk, nat_eq, false};
ghost use Rattle.std.specs.List.{list_any};
ghost use Rattle.std.specs.Option.{option_map, option_map_or};
ghost use Rattle.fb_values.specs.declared.facts.Datom.{Datom};
ghost use Rattle.fb_model.specs.Facts.{facts as facts_in};
ghost use Rattle.fb_model.specs.Lawful.{IsLawful};
ghost use Rattle.fb_schema.specs.Described.{SchemaStands, describes as model_describes};
ghost use Rattle.fb_schema.specs.Parts.{model_attribute};
ghost use Rattle.tx_after.specs.After.{AreChanges, after};
ghost use Rattle.tx_after.specs.Parts.{AreByAttribute};
ghost use Rattle.tx_after.specs.Promises as promises;
ghost use Rattle.tx_laws.specs.Alterations.{altered as model_altered, HasAltered};

use fb_facts::Facts;
use fb_memory::Memory;
use fb_numbers::{IDENT, INDEX};
use fb_schema::{Attribute, Schema};
use fb_values::Datom;
use std::alloc::Global;
use std::collections::BTreeMap;
use tx_after::{ByAttribute, description_after, gives_one_holder, gives_one_value};

/// An entity after the entry, which may be an attribute.
#[derive(Drop)]
pub struct Altered {
    /// Whether an entity has one value of it.
    pub one: bool,
    /// Whether a value has one holder.
    pub unique: bool,
    /// Whether it has all that an attribute needs.
    pub whole: bool,
    /// Whether its facts keep it, where it comes to have one value of each entity.
    pub keeps_values: bool,
    /// Whether its facts keep it, where it comes to be unique.
    pub keeps_holders: bool,
}

/// The entities that the datoms describe.
#[tactic(auto, using(crate::proofs::Altering::none_described))]
pub fn altered_by<F: Facts>(
    alloc: Global,
    facts: &F,
    schema: &Schema,
    datoms: &[Datom],
) -> Result<BTreeMap<u64, Altered>, Memory>
    requires stands { SchemaStands schema.now (F.history facts.now) }
    requires lawful { IsLawful (F.history facts.now) }
    requires changes { AreChanges datoms.now }
    ensures { IfOk result (λ map. HasAltered map (facts_in (F.history facts.now))
        (after (F.history facts.now) datoms.now) datoms.now) }
{
    if !describe(datoms) {
        return Ok(BTreeMap::new(alloc));
    }
    let by_attribute = ByAttribute::of(alloc, datoms)?;
    altered_among(alloc, facts, schema, datoms, &by_attribute)
}

/// The same, where the datoms are at hand by their attributes.
fn altered_among<F: Facts>(
    alloc: Global,
    facts: &F,
    schema: &Schema,
    datoms: &[Datom],
    by_attribute: &ByAttribute,
) -> Result<BTreeMap<u64, Altered>, Memory>
    requires stands { SchemaStands schema.now (F.history facts.now) }
    requires lawful { IsLawful (F.history facts.now) }
    requires changes { AreChanges datoms.now }
    requires parts { AreByAttribute by_attribute.now.parts datoms.now }
    ensures { IfOk result (λ map. HasAltered map (facts_in (F.history facts.now))
        (after (F.history facts.now) datoms.now) datoms.now) }
{
    let mut map = BTreeMap::new(alloc);
    let mut i = datoms.len();
    while i > 0 {
        i -= 1;
        alter(
            alloc,
            &mut map,
            facts,
            schema,
            datoms,
            by_attribute,
            &datoms[i],
        )?;
    }
    Ok(map)
}

/// Puts what the datom describes into the map, unless it is there.
fn alter<F: Facts>(
    alloc: Global,
    map: &mut BTreeMap<u64, Altered>,
    facts: &F,
    schema: &Schema,
    datoms: &[Datom],
    by_attribute: &ByAttribute,
    d: &Datom,
) -> Result<(), Memory>
    requires stands { SchemaStands schema.now (F.history facts.now) }
    requires lawful { IsLawful (F.history facts.now) }
    requires changes { AreChanges datoms.now }
    requires parts { AreByAttribute by_attribute.now.parts datoms.now }
    ensures { (ds : List Datom)
        → HasAltered map.old (facts_in (F.history facts.now))
        (after (F.history facts.now) datoms.now) ds
        → IfOk result (λ _. HasAltered map.new (facts_in (F.history facts.now))
        (after (F.history facts.now) datoms.now) (d.now ∷ ds)) }
{
    if !describes(d) || map.get(&d.e).is_some() {
        return Ok(());
    }
    let altered = look_at(alloc, facts, schema, datoms, by_attribute, d.e)?;
    map.insert(d.e, altered)?;
    Ok(())
}

/// Whether one of the datoms describes its entity.
fn describe(datoms: &[Datom]) -> bool
    ensures { result ≡ list_any model_describes datoms.now }
{
    datoms.iter().any(describes)
}

/// Whether the datom says what its entity is as an attribute.
pub fn describes(d: &Datom) -> bool
    ensures { result ≡ model_describes d.now }
{
    IDENT <= d.a && d.a <= INDEX
}

fn look_at<F: Facts>(
    alloc: Global,
    facts: &F,
    schema: &Schema,
    datoms: &[Datom],
    by_attribute: &ByAttribute,
    e: u64,
) -> Result<Altered, Memory>
    requires stands { SchemaStands schema.now (F.history facts.now) }
    requires lawful { IsLawful (F.history facts.now) }
    requires changes { AreChanges datoms.now }
    requires parts { AreByAttribute by_attribute.now.parts datoms.now }
    ensures { IfOk result (λ altered. altered
        ≡ model_altered (facts_in (F.history facts.now)) (after (F.history facts.now) datoms.now)
        e) }
{
    let found = description_after(facts, datoms, e)?;
    let one = is_one_value(&found.attribute);
    let unique = has_one_holder(&found.attribute);
    let keeps_values = keeps_values(alloc, facts, datoms, by_attribute, e, schema.is_one(e), one)?;
    let keeps_holders = keeps_holders(
        alloc,
        facts,
        datoms,
        by_attribute,
        e,
        schema.is_unique(e),
        unique,
    )?;
    Ok(Altered {
        one,
        unique,
        whole: found.whole,
        keeps_values,
        keeps_holders,
    })
}

fn is_one_value(attribute: &Option<Attribute>) -> bool
    ensures { result
        ≡ option_map_or (λ attribute. not attribute.many) (option_map model_attribute attribute.now)
        false }
{
    match attribute {
        Some(attribute) => !attribute.many,
        None => false,
    }
}

fn has_one_holder(attribute: &Option<Attribute>) -> bool
    ensures { result
        ≡ option_map_or (λ attribute. not (nat_eq attribute.uniqueness 0))
        (option_map model_attribute attribute.now) false }
{
    match attribute {
        Some(attribute) => attribute.is_unique(),
        None => false,
    }
}

/// Whether all its facts keep that an entity has one value, which goes without saying where it did so before.
fn keeps_values<F: Facts>(
    alloc: Global,
    facts: &F,
    datoms: &[Datom],
    by_attribute: &ByAttribute,
    a: u64,
    was_one: bool,
    one: bool,
) -> Result<bool, Memory>
    requires changes { AreChanges datoms.now }
    requires parts { AreByAttribute by_attribute.now.parts datoms.now }
    ensures { IfOk result (λ keeps. keeps
        ≡ (was_one
        || not one
        || promises.gives_one_value (after (F.history facts.now) datoms.now) a)) }
{
    if was_one || !one {
        return Ok(true);
    }
    gives_one_value(alloc, facts, datoms, by_attribute, a)
}

/// Whether all its facts keep that a value has one holder.
fn keeps_holders<F: Facts>(
    alloc: Global,
    facts: &F,
    datoms: &[Datom],
    by_attribute: &ByAttribute,
    a: u64,
    was_unique: bool,
    unique: bool,
) -> Result<bool, Memory>
    requires changes { AreChanges datoms.now }
    requires parts { AreByAttribute by_attribute.now.parts datoms.now }
    ensures { IfOk result (λ keeps. keeps
        ≡ (was_unique
        || not unique
        || promises.gives_one_holder (after (F.history facts.now) datoms.now) a)) }
{
    if was_unique || !unique {
        return Ok(true);
    }
    gives_one_holder(alloc, facts, datoms, by_attribute, a)
}
