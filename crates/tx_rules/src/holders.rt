//! Values of unique attributes that two entities would have.
ghost use Rattle.std.specs.Prelude.{◌≡◌, ◌<◌, filter, length, slice_index_or, if◌then◌else◌, None, ◌||◌, IfOk, IsTrue};
ghost use Rattle.std.specs.List.{position};
ghost use Rattle.fb_model.specs.History.{users_issued};
ghost use Rattle.fb_model.specs.Schema.{is_identity as model_is_identity};
ghost use Rattle.tx_after.specs.After.{AreChanges};
ghost use Rattle.tx_asks.specs.Triples.{rise};
ghost use Rattle.tx_rules.specs.Neighbours.{behind, are_of_one_value, is_beside as model_is_beside};
ghost use Rattle.tx_rules.specs.Holders as model;

use crate::places::earlier;
use fb_facts::Facts;
use fb_memory::Memory;
use fb_numbers::user_number;
use fb_schema::Schema;
use fb_values::Datom;
use std::alloc::Global;
use std::cmp::Ordering;
use tx_after::mentions;
use tx_asks::Triple;

/// The first form that adds a value of a unique attribute which two entities would have. Most transactions add one such value at
/// most, and where one adds more they are sorted.
pub fn first_shared<F: Facts>(
    alloc: Global,
    triples: &[Triple],
    changes: &[Datom],
    facts: &F,
    schema: &Schema,
) -> Result<Option<usize>, Memory>
    requires rising { IsTrue (rise triples.now) }
    requires changes { AreChanges changes.now }
    ensures { IfOk result (λ place. place
        ≡ model.first_shared schema.now (F.history facts.now) changes.now triples.now) }
{
    let Some(at) = first_taker(triples, schema) else {
        return Ok(None);
    };
    let issued = facts.issued();
    if first_taker(&triples[at + 1..], schema).is_none() {
        return Ok(held_at(&triples[at], issued, changes, facts, schema));
    }
    first_of_several(alloc, triples, issued, changes, facts, schema)
}

/// The place of the first addition under a unique attribute.
fn first_taker(triples: &[Triple], schema: &Schema) -> Option<usize>
    ensures { result ≡ position (model.is_taker schema.now) triples.now }
{
    triples.iter().position(|triple| is_taker(schema, triple))
}

/// The same as `first_shared`, for any number of such values.
fn first_of_several<F: Facts>(
    alloc: Global,
    triples: &[Triple],
    issued: u64,
    changes: &[Datom],
    facts: &F,
    schema: &Schema,
) -> Result<Option<usize>, Memory>
    requires rising { IsTrue (rise triples.now) }
    requires issued { issued ≡ users_issued (F.history facts.now) }
    requires changes { AreChanges changes.now }
    ensures { IfOk result (λ place. place
        ≡ model.first_shared schema.now (F.history facts.now) changes.now triples.now) }
{
    let mut takers = takers(alloc, triples, schema)?;
    takers.sort_unstable_by(|x, y| cmp_values(x, y));
    Ok(first_among(&takers, issued, changes, facts, schema))
}

/// The additions under unique attributes.
fn takers<'a>(
    alloc: Global,
    triples: &'a [Triple],
    schema: &Schema,
) -> Result<Vec<&'a Triple>, Memory>
    ensures { IfOk result
        (λ takers. behind takers.items ≡ filter (model.is_taker schema.now) triples.now) }
{
    let mut takers = Vec::new(alloc);
    for triple in triples {
        if is_taker(schema, triple) {
            takers.push(triple)?;
        }
    }
    Ok(takers)
}

fn is_taker(schema: &Schema, triple: &Triple) -> bool
    ensures { result ≡ model.is_taker schema.now triple.now }
{
    triple.added.is_some() && schema.is_unique(triple.a)
}

/// By attribute and value.
fn cmp_values(x: &Triple, y: &Triple) -> Ordering
    ensures { result ≡ model.value_order x.now y.now }
{
    x.a.cmp(&y.a).then_with(|| x.v.cmp(&y.v))
}

fn first_among<F: Facts>(
    takers: &[&Triple],
    issued: u64,
    changes: &[Datom],
    facts: &F,
    schema: &Schema,
) -> Option<usize>
    requires sorted { model.AreByValue (behind takers.now) }
    requires issued { issued ≡ users_issued (F.history facts.now) }
    requires changes { AreChanges changes.now }
    ensures { result ≡ model.first_among (F.history facts.now) schema.now changes.now
        (behind takers.now) }
{
    let mut first = None;
    for i in 0..takers.len() {
        first = earlier(first, shared_at(takers, i, issued, changes, facts, schema));
    }
    first
}

/// The first form that adds the value, if two entities would have it.
fn shared_at<F: Facts>(
    takers: &[&Triple],
    i: usize,
    issued: u64,
    changes: &[Datom],
    facts: &F,
    schema: &Schema,
) -> Option<usize>
    requires within { i < length takers.now }
    requires sorted { model.AreByValue (behind takers.now) }
    requires issued { issued ≡ users_issued (F.history facts.now) }
    requires changes { AreChanges changes.now }
    ensures { (d : Triple)
        → let t = slice_index_or (behind takers.now) i d in result
        ≡ (if model_is_beside are_of_one_value (behind takers.now) i d
        || model.is_held_by_another (F.history facts.now) schema.now changes.now t
        then t.added else None) }
{
    let triple = takers[i];
    if is_crowded(takers, i) {
        triple.added
    } else {
        held_at(triple, issued, changes, facts, schema)
    }
}

/// Whether a neighbour is of the same attribute and value.
fn is_crowded(takers: &[&Triple], i: usize) -> bool
    requires { i < length takers.now }
    ensures { (d : Triple) → result ≡ model_is_beside are_of_one_value (behind takers.now) i d }
{
    (i > 0 && is_beside(takers[i - 1], takers[i]))
        || (i + 1 < takers.len() && is_beside(takers[i], takers[i + 1]))
}

fn is_beside(x: &Triple, y: &Triple) -> bool
    ensures { result ≡ are_of_one_value x.now y.now }
{
    x.a == y.a && x.v == y.v
}

/// The first form that adds the value, if another entity has it and keeps it.
fn held_at<F: Facts>(
    triple: &Triple,
    issued: u64,
    changes: &[Datom],
    facts: &F,
    schema: &Schema,
) -> Option<usize>
    requires issued { issued ≡ users_issued (F.history facts.now) }
    requires changes { AreChanges changes.now }
    ensures { result
        ≡ model.held_at (F.history facts.now) schema.now changes.now triple.now }
{
    if !is_sole_holder(triple, issued, schema) && has_another_holder(triple, changes, facts) {
        triple.added
    } else {
        None
    }
}

/// Whether no other entity can have the value: this one has it, or it is a newcomer. To tell so takes no search.
fn is_sole_holder(triple: &Triple, issued: u64, schema: &Schema) -> bool
    ensures { result
        ≡ (triple.now.holds || model.is_newcomer issued schema.now triple.now) }
{
    triple.holds || is_newcomer(triple, issued, schema)
}

/// Whether the entity is a new one, and the attribute identifies entities: had the value a holder, the tempid would be that one.
fn is_newcomer(triple: &Triple, issued: u64, schema: &Schema) -> bool
    ensures { result ≡ model.is_newcomer issued schema.now triple.now }
{
    issued < user_number(triple.e) && is_identity(schema, triple.a)
}

fn is_identity(schema: &Schema, a: u64) -> bool
    ensures { result ≡ model_is_identity schema.now a }
{
    match schema.attribute(a) {
        Some(attribute) => attribute.is_identity(),
        None => false,
    }
}

/// Whether another entity has the value, and no change takes it away.
fn has_another_holder<F: Facts>(triple: &Triple, changes: &[Datom], facts: &F) -> bool
    requires { AreChanges changes.now }
    ensures { result ≡ model.has_another_holder (F.history facts.now) changes.now triple.now }
{
    match facts.holder(triple.a, &triple.v) {
        Some(e) => e != triple.e && !mentions(changes, e, triple.a, &triple.v),
        None => false,
    }
}
