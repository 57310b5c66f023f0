//! What is said of an entity after the changes under the attributes that describe attributes.
ghost use Rattle.std.specs.Prelude.{◌≡◌, not, filter, IfOk, IsTrue};
ghost use Rattle.std.specs.List.{find, list_any};
ghost use Rattle.std.specs.Option.{option_copied};
ghost use Rattle.fb_model.specs.Facts.{facts as facts_in, is_of, value_of};
ghost use Rattle.fb_model.specs.Lawful.{IsLawful};
ghost use Rattle.fb_model.specs.Schema.{is_one};
ghost use Rattle.tx_after.specs.After as model;
ghost use Rattle.tx_after.specs.Said.{said_of};
ghost use Rattle.tx_after.specs.Triples.{is_added};

use crate::parts::part_of;
use crate::triples::mentions;
use fb_facts::Facts;
use fb_memory::Memory;
use fb_numbers::{CARDINALITY, IDENT, INDEX, IS_COMPONENT, UNIQUE, VALUE_TYPE};
use fb_values::{Datom, Value};

/// The first value of an entity under each attribute that describes.
#[derive(Drop)]
pub struct Said {
    pub ident: Option<Value>,
    pub value_type: Option<Value>,
    pub cardinality: Option<Value>,
    pub unique: Option<Value>,
    pub is_component: Option<Value>,
    pub index: Option<Value>,
}

/// What is said of the entity, found by a search for each attribute.
pub fn said_after<F: Facts>(facts: &F, changes: &[Datom], e: u64) -> Result<Said, Memory>
    requires lawful { IsLawful (F.history facts.now) }
    requires changes { model.AreChanges changes.now }
    ensures { IfOk result
        (λ said. said ≡ said_of (model.after (F.history facts.now) changes.now) e) }
{
    Ok(Said {
        ident: value_after(facts, changes, e, IDENT)?,
        value_type: value_after(facts, changes, e, VALUE_TYPE)?,
        cardinality: value_after(facts, changes, e, CARDINALITY)?,
        unique: value_after(facts, changes, e, UNIQUE)?,
        is_component: value_after(facts, changes, e, IS_COMPONENT)?,
        index: value_after(facts, changes, e, INDEX)?,
    })
}

/// The first value under the attribute: the one before, if it stays, or the first that is added.
fn value_after<F: Facts>(
    facts: &F,
    changes: &[Datom],
    e: u64,
    a: u64,
) -> Result<Option<Value>, Memory>
    requires lawful { IsLawful (F.history facts.now) }
    requires changes { model.AreChanges changes.now }
    requires one { IsTrue (is_one (facts_in (F.history facts.now)) a) }
    ensures { IfOk result
        (λ value. value ≡ value_of (model.after (F.history facts.now) changes.now) e a) }
{
    let before = facts.values_of(e, a)?;
    let stays = first_untold(&before, changes, e, a);
    copied(stays.or(first_added(part_of(changes, e), e, a)))
}

/// The first of the values of which no change tells.
fn first_untold<'a>(values: &'a [Value], changes: &[Datom], e: u64, a: u64) -> Option<&'a Value>
    requires { model.AreChanges changes.now }
    ensures { option_copied result
        ≡ find (λ v. not (list_any (is_of e a v) changes.now)) values.now }
{
    for v in values {
        if !mentions(changes, e, a, v) {
            return Some(v);
        }
    }
    None
}

/// The first value that is added.
fn first_added(changes: &[Datom], e: u64, a: u64) -> Option<&Value>
    ensures { option_copied result ≡ value_of (filter is_added changes.now) e a }
{
    for d in changes {
        if d.added && d.e == e && d.a == a {
            return Some(&d.v);
        }
    }
    None
}

fn copied(value: Option<&Value>) -> Result<Option<Value>, Memory>
    ensures { IfOk result (λ copy. copy ≡ option_copied value.entry) }
{
    match value {
        Some(v) => Ok(Some(v.copy()?)),
        None => Ok(None),
    }
}
