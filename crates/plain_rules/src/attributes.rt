//! What an attribute of the facts says.
use edn_values::{begins_with_one_of, local_name};
use fb_numbers::{
    CARDINALITY, CARDINALITY_MANY, CARDINALITY_ONE, TYPE_KEYWORD, TYPE_REF, TYPE_URI,
    UNIQUE_IDENTITY, UNIQUE_VALUE, USER_ENTITIES,
};
use fb_values::Datom;
use plain_reads::{attribute_of, entity_under};

pub fn is_attribute(facts: &[Datom], e: u64) -> bool {
    attribute_of(facts, e).is_some()
}

/// Whether an entity has one value of it.
pub fn is_one(facts: &[Datom], a: u64) -> bool {
    attribute_of(facts, a).is_some_and(|attribute| !attribute.many)
}

/// Whether at most one entity has a value of it.
pub fn is_unique(facts: &[Datom], a: u64) -> bool {
    attribute_of(facts, a).is_some_and(|attribute| attribute.uniqueness != 0)
}

/// Whether its values identify entities.
pub fn is_identity(facts: &[Datom], a: u64) -> bool {
    attribute_of(facts, a).is_some_and(|attribute| attribute.uniqueness == UNIQUE_IDENTITY)
}

/// Whether the attribute's values are parts of their entities.
pub fn is_part(facts: &[Datom], a: u64) -> bool {
    attribute_of(facts, a).is_some_and(|attribute| attribute.component)
}

/// Whether the attribute has all that it needs, each of it as it may be.
pub fn is_whole(facts: &[Datom], e: u64) -> bool {
    let Some(attribute) = attribute_of(facts, e) else {
        return false;
    };
    let count = entity_under(facts, e, CARDINALITY);
    let is_ref = attribute.kind == TYPE_REF;
    let is_reversed = begins_with_one_of(b"_", local_name(attribute.name.as_str()).as_bytes());
    let has_uniqueness = match attribute.uniqueness {
        0 => true,
        UNIQUE_IDENTITY | UNIQUE_VALUE => !is_ref,
        _ => false,
    };
    USER_ENTITIES < e
        && !is_reversed
        && TYPE_KEYWORD <= attribute.kind
        && attribute.kind <= TYPE_URI
        && (count == Some(CARDINALITY_ONE) || count == Some(CARDINALITY_MANY))
        && has_uniqueness
        && (!attribute.component || is_ref)
}
