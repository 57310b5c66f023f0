//! Attributes that lack something.
ghost use Rattle.std.specs.Prelude.{◌≡◌, ◌&&◌, if◌then◌else◌, None, IfOk, IfSome};
ghost use Rattle.fb_model.specs.Lawful.{IsLawful};
ghost use Rattle.tx_after.specs.After.{AreChanges, after};
ghost use Rattle.tx_rules.specs.Places as places;
ghost use Rattle.tx_rules.specs.Whole as model;

use crate::places::{earlier, named_at, recorded_at};
use fb_facts::Facts;
use fb_memory::Memory;
use fb_numbers::{CARDINALITY, IDENT, INDEX, UNIQUE};
use fb_schema::Schema;
use fb_values::Datom;
use tx_after::description_after;
use tx_asks::Triple;

/// Whether an entity lacks something that it needs as an attribute.
#[derive(Clone, Copy)]
struct Lack {
    e: u64,
    /// It was none before.
    as_new: bool,
    /// It was one before.
    as_altered: bool,
}

/// The first form that asks something of a new attribute that is not whole, or changes an attribute so that it is not.
pub fn first_incomplete<F: Facts>(
    triples: &[Triple],
    changes: &[Datom],
    facts: &F,
    schema: &Schema,
) -> Result<Option<usize>, Memory>
    requires lawful { IsLawful (F.history facts.now) }
    requires changes { AreChanges changes.now }
    ensures { IfOk result (λ place. place
        ≡ model.first_incomplete schema.now (after (F.history facts.now) changes.now) triples.now) }
{
    let mut first = None;
    let mut last = None;
    for triple in triples {
        if describes(triple) {
            let lack = known_or_found(last, triple.e, changes, facts, schema)?;
            last = Some(lack);
            first = earlier(first, lack_at(&lack, triple));
        }
    }
    Ok(first)
}

fn describes(triple: &Triple) -> bool
    ensures { result ≡ model.describes triple.now }
{
    IDENT <= triple.a && triple.a <= INDEX
}

/// The first form that breaks the rule by the triple, where its entity lacks this.
fn lack_at(lack: &Lack, triple: &Triple) -> Option<usize>
    ensures { result ≡ model.lack_at lack.now triple.now }
{
    earlier(
        lack_as_new_at(lack, triple),
        lack_as_altered_at(lack, triple),
    )
}

fn lack_as_new_at(lack: &Lack, triple: &Triple) -> Option<usize>
    ensures { result ≡ (if lack.now.as_new then places.named_at triple.now else None) }
{
    if lack.as_new { named_at(triple) } else { None }
}

fn lack_as_altered_at(lack: &Lack, triple: &Triple) -> Option<usize>
    ensures { result
        ≡ (if model.alters triple.now && lack.now.as_altered
        then places.recorded_at triple.now else None) }
{
    if alters(triple) && lack.as_altered {
        recorded_at(triple)
    } else {
        None
    }
}

fn alters(triple: &Triple) -> bool
    ensures { result ≡ model.alters triple.now }
{
    triple.a == CARDINALITY || triple.a == UNIQUE || triple.a == INDEX
}

/// What the entity lacks. It is looked at once, since the triples of an entity are side by side.
fn known_or_found<F: Facts>(
    last: Option<Lack>,
    e: u64,
    changes: &[Datom],
    facts: &F,
    schema: &Schema,
) -> Result<Lack, Memory>
    requires lawful { IsLawful (F.history facts.now) }
    requires changes { AreChanges changes.now }
    requires known { IfSome last
        (λ lack. lack ≡ model.lack_of schema.now (after (F.history facts.now) changes.now) lack.e) }
    ensures { IfOk result
        (λ lack. lack ≡ model.lack_of schema.now (after (F.history facts.now) changes.now) e) }
{
    match last {
        Some(lack) if lack.e == e => Ok(lack),
        _ => lack_of(e, changes, facts, schema),
    }
}

fn lack_of<F: Facts>(e: u64, changes: &[Datom], facts: &F, schema: &Schema) -> Result<Lack, Memory>
    requires lawful { IsLawful (F.history facts.now) }
    requires changes { AreChanges changes.now }
    ensures { IfOk result
        (λ lack. lack ≡ model.lack_of schema.now (after (F.history facts.now) changes.now) e) }
{
    let was_one = schema.is_attribute(e);
    let found = description_after(facts, changes, e)?;
    Ok(Lack {
        e,
        as_new: !was_one && found.says_attribute && !found.whole,
        as_altered: was_one && !found.whole,
    })
}
