//! What an entity is as an attribute, by what is said of it.
ghost use Rattle.std.specs.Prelude.{◌≡◌, ◌||◌, ℕ, nat_eq, IfOk, option_and_then, false};
ghost use Rattle.std.specs.Option.{option_map, option_map_or};
ghost use Rattle.fb_numbers.specs.Numbers.{cardinality_one, cardinality_many};
ghost use Rattle.fb_model.specs.Schema as schema;
ghost use Rattle.fb_schema.specs.Parts.{model_attribute};
ghost use Rattle.tx_after.specs.Said as model;

use crate::said::Said;
use edn_values::{begins_with_one_of, local_name};
use fb_memory::Memory;
use fb_numbers::{
    CARDINALITY_MANY, CARDINALITY_ONE, TYPE_KEYWORD, TYPE_URI, UNIQUE_IDENTITY, UNIQUE_VALUE,
    USER_ENTITIES,
};
use fb_schema::Attribute;
use fb_text::Text;
use fb_values::Value;

/// The entity as an attribute, if it has an ident, a type and a cardinality.
pub fn attribute_of(said: &Said, e: u64) -> Result<Option<Attribute>, Memory>
    ensures { IfOk result (λ found. option_map model_attribute found ≡ model.attribute_of said.now e) }
{
    let (Some(name), Some(kind), Some(count)) = (
        keyword_in(&said.ident),
        entity_in(&said.value_type),
        entity_in(&said.cardinality),
    ) else {
        return Ok(None);
    };
    Ok(Some(Attribute {
        id: e,
        ident: name.copy()?,
        kind,
        many: count == CARDINALITY_MANY,
        unique: entity_in(&said.unique).unwrap_or(0),
        component: truth_in(&said.is_component),
        indexed: truth_in(&said.index),
    }))
}

/// Whether the attribute, as which this is said of it, has all that it needs.
pub fn is_whole(said: &Said, attribute: &Option<Attribute>) -> bool
    ensures { (e : ℕ) → option_map model_attribute attribute.now ≡ model.attribute_of said.now e
        → result ≡ model.is_whole said.now e }
{
    let (Some(attribute), Some(count)) = (attribute, entity_in(&said.cardinality)) else {
        return false;
    };
    is_whole_attribute(attribute) && is_a_cardinality(count)
}

/// Whether something is said that is said of attributes alone.
pub fn says_attribute(said: &Said) -> bool
    ensures { result ≡ model.says_attribute said.now }
{
    said.value_type.is_some()
        || said.cardinality.is_some()
        || said.unique.is_some()
        || said.is_component.is_some()
        || said.index.is_some()
}

fn is_whole_attribute(attribute: &Attribute) -> bool
    ensures { result ≡ schema.is_whole_attribute (model_attribute attribute.now) }
{
    let is_plain_name = !begins_with_one_of(b"_", local_name(attribute.ident.as_str()).as_bytes());
    let is_of_a_type = TYPE_KEYWORD <= attribute.kind && attribute.kind <= TYPE_URI;
    let is_of_a_uniqueness = attribute.unique == 0
        || ((attribute.unique == UNIQUE_IDENTITY || attribute.unique == UNIQUE_VALUE)
            && !attribute.is_ref());
    USER_ENTITIES < attribute.id
        && is_plain_name
        && is_of_a_type
        && is_of_a_uniqueness
        && (!attribute.component || attribute.is_ref())
}

fn is_a_cardinality(count: u64) -> bool
    ensures { result ≡ (nat_eq count cardinality_one || nat_eq count cardinality_many) }
{
    count == CARDINALITY_ONE || count == CARDINALITY_MANY
}

fn keyword_in(value: &Option<Value>) -> Option<&Text>
    ensures { option_map (λ name. name.now) result
        ≡ option_and_then schema.keyword_in value.now }
{
    match value {
        Some(Value::Keyword(name)) => Some(name),
        _ => None,
    }
}

fn entity_in(value: &Option<Value>) -> Option<u64>
    ensures { result ≡ option_and_then schema.entity_in value.now }
{
    match value {
        Some(Value::Ref(entity)) => Some(*entity),
        _ => None,
    }
}

fn truth_in(value: &Option<Value>) -> bool
    ensures { result ≡ option_map_or schema.truth_in value.now false }
{
    match value {
        Some(Value::Bool(b)) => *b,
        _ => false,
    }
}
