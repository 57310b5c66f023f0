//! The first entry of every history: the built-in schema.
ghost use Rattle.std.specs.Prelude.{◌≡◌, [], ◌∷◌, ◌++◌, IfOk};
ghost use Rattle.fb_model.specs.FirstEntry.{first_datom, named, attribute, first_attributes, first_names, first_entry};

use fb_memory::Memory;
use fb_text::Text;
use fb_values::{Datom, Datoms, Entry, Value};
use std::alloc::Global;

/// The built-in entities that others refer to.
const IDENT: u64 = 1;

const VALUE_TYPE: u64 = 2;

const CARDINALITY: u64 = 3;

const UNIQUE: u64 = 4;

const IS_COMPONENT: u64 = 5;

const INDEX: u64 = 6;

const DOC: u64 = 7;

const TX_INSTANT: u64 = 8;

const KEYWORD: u64 = 10;

const STRING: u64 = 11;

const BOOLEAN: u64 = 12;

const REF: u64 = 14;

const INSTANT: u64 = 15;

const CARDINALITY_ONE: u64 = 20;

const UNIQUE_IDENTITY: u64 = 30;

/// The entity of the first transaction.
const FIRST_TRANSACTION: u64 = 13_194_139_533_312;

pub fn first_entry(alloc: Global) -> Result<Entry, Memory>
    ensures { IfOk result (λ entry. entry ≡ first_entry) }
{
    let mut datoms = Vec::with_capacity(alloc, 40)?;
    push_attributes(alloc, &mut datoms)?;
    push_names(alloc, &mut datoms)?;
    push(
        &mut datoms,
        FIRST_TRANSACTION,
        TX_INSTANT,
        Value::Instant(0),
    )?;
    Ok(Entry {
        t: 0,
        instant: 0,
        datoms: Datoms::of(datoms),
    })
}

fn push_attributes(alloc: Global, datoms: &mut Vec<Datom>) -> Result<(), Memory>
    requires { datoms.old.items ≡ [] }
    ensures { IfOk result (λ _. datoms.new.items ≡ first_attributes) }
{
    push_attribute(alloc, datoms, IDENT, "db/ident", KEYWORD)?;
    push(datoms, IDENT, UNIQUE, Value::Ref(UNIQUE_IDENTITY))?;
    push_attribute(alloc, datoms, VALUE_TYPE, "db/valueType", REF)?;
    push_attribute(alloc, datoms, CARDINALITY, "db/cardinality", REF)?;
    push_attribute(alloc, datoms, UNIQUE, "db/unique", REF)?;
    push_attribute(alloc, datoms, IS_COMPONENT, "db/isComponent", BOOLEAN)?;
    push_attribute(alloc, datoms, INDEX, "db/index", BOOLEAN)?;
    push_attribute(alloc, datoms, DOC, "db/doc", STRING)?;
    push_attribute(alloc, datoms, TX_INSTANT, "db/txInstant", INSTANT)?;
    push(datoms, TX_INSTANT, INDEX, Value::Bool(true))
}

fn push_names(alloc: Global, datoms: &mut Vec<Datom>) -> Result<(), Memory>
    requires { datoms.old.items ≡ first_attributes }
    ensures { IfOk result (λ _. datoms.new.items ≡ first_attributes ++ first_names) }
{
    push_ident(alloc, datoms, KEYWORD, "db.type/keyword")?;
    push_ident(alloc, datoms, STRING, "db.type/string")?;
    push_ident(alloc, datoms, BOOLEAN, "db.type/boolean")?;
    push_ident(alloc, datoms, 13, "db.type/long")?;
    push_ident(alloc, datoms, REF, "db.type/ref")?;
    push_ident(alloc, datoms, INSTANT, "db.type/instant")?;
    push_ident(alloc, datoms, 16, "db.type/uuid")?;
    push_ident(alloc, datoms, 17, "db.type/symbol")?;
    push_ident(alloc, datoms, 18, "db.type/uri")?;
    push_ident(alloc, datoms, CARDINALITY_ONE, "db.cardinality/one")?;
    push_ident(alloc, datoms, 21, "db.cardinality/many")?;
    push_ident(alloc, datoms, UNIQUE_IDENTITY, "db.unique/identity")?;
    push_ident(alloc, datoms, 31, "db.unique/value")
}

/// The attribute `e` of this name and type, of which an entity has one value.
fn push_attribute(
    alloc: Global,
    datoms: &mut Vec<Datom>,
    e: u64,
    name: &str,
    kind: u64,
) -> Result<(), Memory>
    ensures { IfOk result (λ _. datoms.new.items ≡ datoms.old.items ++ attribute e name.now kind) }
{
    push_ident(alloc, datoms, e, name)?;
    push(datoms, e, VALUE_TYPE, Value::Ref(kind))?;
    push(datoms, e, CARDINALITY, Value::Ref(CARDINALITY_ONE))
}

fn push_ident(alloc: Global, datoms: &mut Vec<Datom>, e: u64, name: &str) -> Result<(), Memory>
    ensures { IfOk result (λ _. datoms.new.items ≡ datoms.old.items ++ named e name.now) }
{
    push(datoms, e, IDENT, Value::Keyword(Text::of(alloc, name)?))
}

fn push(datoms: &mut Vec<Datom>, e: u64, a: u64, v: Value) -> Result<(), Memory>
    ensures { IfOk result (λ _. datoms.new.items ≡ datoms.old.items ++ first_datom e a v ∷ []) }
{
    datoms.push(Datom {
        e,
        a,
        v,
        t: 0,
        added: true,
    })?;
    Ok(())
}
