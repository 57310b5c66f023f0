//! What the forms of a transaction ask, over entities by their numbers.
use crate::boxes::Boxed;
use fb_schema::Attribute;
use fb_text::Text;
use fb_values::Value;

/// What is asked of an entity.
#[derive(Drop)]
pub enum Act<'a> {
    Adds {
        e: u64,
        attribute: &'a Attribute,
        v: Value,
    },
    Retracts {
        e: u64,
        attribute: &'a Attribute,
        v: Value,
    },
    /// Every value.
    RetractsAll {
        e: u64,
        attribute: &'a Attribute,
    },
    Compares(Boxed<ResolvedComparison<'a>>),
    RetractsEntity {
        e: u64,
    },
}

/// The value of an entity is to become another one, where it is the old one.
#[derive(Drop)]
pub struct ResolvedComparison<'a> {
    pub e: u64,
    pub attribute: &'a Attribute,
    /// `None`: the entity has no value.
    pub old: Option<Value>,
    pub new: Value,
}

/// What each form asks, and the entities of the tempids that have a name, by the bytes of the names.
#[derive(Drop)]
pub struct Resolved<'a> {
    pub forms: Vec<Vec<Act<'a>>>,
    pub tempids: Vec<(Text, u64)>,
}
