//! Triples of one transaction that cannot be recorded together.
ghost use Rattle.std.specs.Prelude.{◌≡◌, if◌then◌else◌, None, IsTrue};
ghost use Rattle.std.specs.Option.{option_copied};
ghost use Rattle.tx_asks.specs.Triples.{rise};
ghost use Rattle.tx_rules.specs.Neighbours.{are_of_one_entity};
ghost use Rattle.tx_rules.specs.Conflicts as model;

use crate::places::{asked_at, earlier};
use fb_schema::Schema;
use tx_asks::Triple;

/// The first form that asks a triple which is added beside another value of cardinality one, or added and retracted. The additions
/// of an entity under an attribute are behind one another, so each is compared with the last one.
pub fn first_conflict(triples: &[Triple], schema: &Schema) -> Option<usize>
    requires { IsTrue (rise triples.now) }
    ensures { result ≡ model.first_conflict schema.now triples.now }
{
    let mut first = None;
    let mut last = None;
    for triple in triples {
        if triple.added.is_some() {
            first = earlier(first, conflict_at(last, triple, schema));
            last = Some(triple);
        }
    }
    first
}

/// The first form that asks the addition or the last one before it, if it conflicts with that one or is withdrawn.
fn conflict_at(last: Option<&Triple>, triple: &Triple, schema: &Schema) -> Option<usize>
    ensures { result ≡ model.conflict_at schema.now (option_copied last.entry) triple.now }
{
    earlier(withdrawn_at(triple), beside_at(last, triple, schema))
}

fn withdrawn_at(triple: &Triple) -> Option<usize>
    ensures { result ≡ model.withdrawn_at triple.now }
{
    if triple.retracted.is_some() || triple.swept.is_some() {
        asked_at(triple)
    } else {
        None
    }
}

fn beside_at(last: Option<&Triple>, triple: &Triple, schema: &Schema) -> Option<usize>
    ensures { result ≡ model.beside_at schema.now (option_copied last.entry) triple.now }
{
    match last {
        Some(last) if is_beside(last, triple) && schema.is_one(triple.a) => {
            earlier(asked_at(last), asked_at(triple))
        }
        _ => None,
    }
}

fn is_beside(x: &Triple, y: &Triple) -> bool
    ensures { result ≡ are_of_one_entity x.now y.now }
{
    x.e == y.e && x.a == y.a
}
