//! Law 9, of datoms that say what an attribute is: it comes to be whole, and of one that was there only its index changes.
//! The schema tells of all but the cardinality, which it keeps as one or more than one.
ghost use Rattle.std.specs.Prelude.{◌≡◌, false};
ghost use Rattle.std.specs.List.{list_all};
ghost use Rattle.std.specs.Option.{option_map_or};
ghost use Rattle.fb_model.specs.Laws.{says_attribute as model_says_attribute};
ghost use Rattle.fb_model.specs.Schema as schema;
ghost use Rattle.fb_schema.specs.Parts.{model_attribute};
ghost use Rattle.log_sweep.specs.Alone as model;

use edn_values::{begins_with_one_of, local_name};
use fb_numbers::{
    CARDINALITY, CARDINALITY_MANY, CARDINALITY_ONE, INDEX, TYPE_KEYWORD, TYPE_URI, UNIQUE_IDENTITY,
    UNIQUE_VALUE, USER_ENTITIES, VALUE_TYPE,
};
use fb_schema::{Attribute, Schema};
use fb_values::{Datom, Value};

/// Whether the datoms of an entry keep law 9 as far as they say what an attribute is, between the schemas before and after
/// the entry.
pub fn describe_well(before: &Schema, after: &Schema, datoms: &[Datom]) -> bool
    ensures { result ≡ list_all (model.describes_well before.now after.now) datoms.now }
{
    for d in datoms {
        if !describes_well(before, after, d) {
            return false;
        }
    }
    true
}

fn describes_well(before: &Schema, after: &Schema, d: &Datom) -> bool
    ensures { result ≡ model.describes_well before.now after.now d.now }
{
    !says_attribute(d) || (may_be_said(before, d) && has_a_cardinality(d) && is_whole(after, d.e))
}

fn says_attribute(d: &Datom) -> bool
    ensures { result ≡ model_says_attribute d.now }
{
    VALUE_TYPE <= d.a && d.a <= INDEX
}

fn may_be_said(before: &Schema, d: &Datom) -> bool
    ensures { result ≡ model.may_be_said before.now d.now }
{
    d.a == INDEX || !before.is_attribute(d.e)
}

/// Whether it says one of the two cardinalities, if it says one.
fn has_a_cardinality(d: &Datom) -> bool
    ensures { result ≡ model.has_a_cardinality d.now }
{
    d.a != CARDINALITY || is_a_cardinality(&d.v)
}

fn is_a_cardinality(v: &Value) -> bool
    ensures { result ≡ model.is_a_cardinality v.now }
{
    match v {
        Value::Ref(count) => *count == CARDINALITY_ONE || *count == CARDINALITY_MANY,
        _ => false,
    }
}

fn is_whole(after: &Schema, e: u64) -> bool
    ensures { result
        ≡ option_map_or schema.is_whole_attribute (schema.attribute_of after.now e) false }
{
    match after.attribute(e) {
        Some(attribute) => is_whole_attribute(attribute),
        None => false,
    }
}

fn is_whole_attribute(attribute: &Attribute) -> bool
    ensures { result ≡ schema.is_whole_attribute (model_attribute attribute.now) }
{
    let is_plain_name = !begins_with_one_of(b"_", local_name(attribute.ident.as_str()).as_bytes());
    let is_of_a_type = TYPE_KEYWORD <= attribute.kind && attribute.kind <= TYPE_URI;
    let is_of_a_uniqueness = attribute.unique == 0
        || ((attribute.unique == UNIQUE_IDENTITY || attribute.unique == UNIQUE_VALUE)
            && !attribute.is_ref());
    USER_ENTITIES < attribute.id
        && is_plain_name
        && is_of_a_type
        && is_of_a_uniqueness
        && (!attribute.component || attribute.is_ref())
}
