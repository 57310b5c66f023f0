//! Names in the database.
ghost use Rattle.std.specs.Prelude.{◌≡◌, ◌+◌, slice_index_or, None, IfOk};
ghost use Rattle.std.specs.Option.{option_map};
ghost use Rattle.edn_form.specs.View.{form_of};
ghost use Rattle.fb_model.specs.History.{basis, is_issued as model_is_issued};
ghost use Rattle.fb_numbers.specs.Numbers.{transaction_of};
ghost use Rattle.fb_model.specs.Lawful.{IsLawful};
ghost use Rattle.fb_schema.specs.Described.{SchemaStands};
ghost use Rattle.tx_model.specs.Asks as asks;
ghost use Rattle.tx_model.specs.Tempids.{db_of, found};
ghost use Rattle.tx_model.specs.Values.{value_in};
ghost use Rattle.tx_resolve.specs.declared.whom.EntityRef.TheVariants.{Known, New};
ghost use Rattle.tx_resolve.specs.Whoms.{found_by, all_found, whom_of};

use crate::meeting::Met;
use crate::whom::EntityRef;
use edn_form::Edn;
use edn_values::{as_value, forms_of_other_types};
use fb_facts::Facts;
use fb_memory::Memory;
use fb_numbers::{TYPE_REF, is_builtin, transaction_entity, user_entity};
use fb_schema::{Schema, schemas_tell_of_attributes};
use fb_values::Value;
use std::alloc::Global;
use tx_asks::{LookupRef, Name};
use tx_model::lawful_histories_are_small;

/// The tempid that names the transaction's own entity.
pub const OWN_TEMPID: &str = "datomic.tx";

/// The entity that each lookup ref finds, if there is one.
pub fn all_looked_up<F: Facts>(
    alloc: Global,
    facts: &F,
    schema: &Schema,
    lookups: &[LookupRef<'_>],
) -> Result<Vec<Option<u64>>, Memory>
    requires { SchemaStands schema.now (F.history facts.now) }
    ensures { IfOk result
        (λ found. found.items ≡ all_found (db_of (F.history facts.now)) lookups.now) }
{
    let mut found = Vec::with_capacity(alloc, lookups.len())?;
    for lookup in lookups {
        found.push(looked_up(facts, schema, lookup)?)?;
    }
    Ok(found)
}

/// The entity that the name has, where the lookup refs of the transaction find these, and these are the tempids that it
/// meets: none where the database has none of the name.
pub fn whom<'a, F: Facts>(
    facts: &F,
    schema: &Schema,
    found: &[Option<u64>],
    met: &Met<'a>,
    name: &Name<'a>,
) -> Option<EntityRef>
    requires schema { SchemaStands schema.now (F.history facts.now) }
    requires lawful { IsLawful (F.history facts.now) }
    ensures { result ≡ whom_of (db_of (F.history facts.now)) found.now met.now name.now }
{
    schemas_tell_of_attributes();
    match name {
        Name::Number(n) => known(numbered(facts, *n)),
        Name::Ident(k) => known(schema.entity_named(k)),
        Name::Lookup(n) => known(entity_at(found, *n)),
        Name::Tempid(text) if text.as_str() == OWN_TEMPID => {
            Some(EntityRef::Known(next_transaction(facts)))
        }
        Name::Tempid(text) => new(met.named_place(*text)),
        Name::Nameless(n) => new(met.nameless_place(*n)),
    }
}

/// What the lookup ref with the number finds.
fn entity_at(found: &[Option<u64>], n: usize) -> Option<u64>
    ensures { result ≡ slice_index_or found.now n None }
{
    match found.get(n) {
        Some(e) => *e,
        None => None,
    }
}

fn known(e: Option<u64>) -> Option<EntityRef>
    ensures { result ≡ option_map Known e }
{
    match e {
        Some(e) => Some(EntityRef::Known(e)),
        None => None,
    }
}

fn new(place: Option<usize>) -> Option<EntityRef>
    ensures { result ≡ option_map New place }
{
    match place {
        Some(place) => Some(EntityRef::New(place)),
        None => None,
    }
}

fn numbered<F: Facts>(facts: &F, n: i64) -> Option<u64>
    requires { IsLawful (F.history facts.now) }
    ensures { result ≡ found (db_of (F.history facts.now)) (asks.number n) }
{
    if n < 0 {
        return None;
    }
    let n = n as u64;
    if is_issued(facts, n) { Some(n) } else { None }
}

fn is_issued<F: Facts>(facts: &F, n: u64) -> bool
    requires { IsLawful (F.history facts.now) }
    ensures { result ≡ model_is_issued (F.history facts.now) n }
{
    lawful_histories_are_small();
    is_builtin(n)
        || (transaction_entity(0) <= n && n <= transaction_entity(facts.basis()))
        || (user_entity(1) <= n && n <= user_entity(facts.issued()))
}

fn next_transaction<F: Facts>(facts: &F) -> u64
    requires { IsLawful (F.history facts.now) }
    ensures { result ≡ transaction_of (basis (F.history facts.now) + 1) }
{
    lawful_histories_are_small();
    transaction_entity(facts.basis() + 1)
}

fn looked_up<F: Facts>(
    facts: &F,
    schema: &Schema,
    lookup: &LookupRef<'_>,
) -> Result<Option<u64>, Memory>
    requires { SchemaStands schema.now (F.history facts.now) }
    ensures { IfOk result (λ e. e ≡ found_by (db_of (F.history facts.now)) lookup.now) }
{
    schemas_tell_of_attributes();
    let Some(attribute) = schema.named(lookup.attribute) else {
        return Ok(None);
    };
    let Some(v) = plain_value(attribute.kind, lookup.value)? else {
        return Ok(None);
    };
    Ok(facts.holder(attribute.id, &v))
}

/// The value that the form is by itself, which no entity is.
fn plain_value(kind: u64, value: &Edn) -> Result<Option<Value>, Memory>
    ensures { IfOk result (λ v. v ≡ value_in kind (form_of value.now)) }
{
    forms_of_other_types();
    if kind == TYPE_REF {
        return Ok(None);
    }
    as_value(kind, value)
}
