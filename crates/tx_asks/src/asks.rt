//! What the forms of a transaction ask, with entities still by their names.
use crate::boxes::Boxed;
use edn_form::Edn;
use fb_schema::Attribute;
use fb_text::Text;
use fb_values::Value;

/// A lookup ref: the keyword of an attribute, and a value.
#[derive(Clone, Copy, Drop)]
pub struct LookupRef<'a> {
    pub attribute: &'a Text,
    pub value: &'a Edn,
}

/// How a transaction names an entity.
#[derive(Clone, Copy)]
pub enum Name<'a> {
    Number(i64),
    /// A keyword, without its colon.
    Ident(&'a Text),
    /// A lookup ref, by its number among those of the transaction in the order in which a reader meets them, from 0.
    Lookup(usize),
    /// A tempid, or `"datomic.tx"`, the transaction's own entity.
    Tempid(&'a Text),
    /// A map without `:db/id`, by its number among these maps in the order in which a reader meets them, from 0.
    Nameless(usize),
}

/// What is given in the place of a value.
#[derive(Drop)]
pub enum Operand<'a> {
    /// A value, with the form that it was read from.
    Plain(&'a Edn, Value),
    /// An entity, under an attribute whose values are entities.
    Entity(Name<'a>),
}

/// What is asked of an entity.
#[derive(Drop)]
pub enum Ask<'a> {
    Adds {
        on: Name<'a>,
        attribute: &'a Attribute,
        part: Operand<'a>,
    },
    Retracts {
        on: Name<'a>,
        attribute: &'a Attribute,
        part: Operand<'a>,
    },
    /// Every value.
    RetractsAll {
        on: Name<'a>,
        attribute: &'a Attribute,
    },
    Compares(Boxed<Comparison<'a>>),
    RetractsEntity {
        on: Name<'a>,
    },
    /// There is a map of this entity.
    Meets {
        on: Name<'a>,
    },
}

/// The value of an entity is to become another one, where it is the old one.
#[derive(Drop)]
pub struct Comparison<'a> {
    pub on: Name<'a>,
    pub attribute: &'a Attribute,
    /// `None` is `nil`: the entity has no value.
    pub old: Option<Operand<'a>>,
    pub new: Operand<'a>,
}

/// What each form asks, in the order in which a reader meets it.
#[derive(Drop)]
pub struct Flat<'a> {
    pub forms: Vec<Vec<Ask<'a>>>,
    /// The lookup refs, each once for each place in which it is written.
    pub lookups: Vec<LookupRef<'a>>,
    /// How many maps without `:db/id` were met.
    pub nameless: usize,
    /// The first form with a map inside another that lacks what it needs.
    pub lacking: Option<usize>,
}
