//! What a transaction asks, with entities still by their names. All of it is borrowed from the forms and the facts.
use edn_form::Edn;
use fb_text::Text;
use plain_reads::Attribute;

/// How a transaction names an entity.
#[derive(Clone, Copy)]
pub enum Name<'a> {
    Number(i64),
    /// A keyword, without its colon.
    Ident(&'a Text),
    /// A unique attribute, by its keyword, and its value.
    Lookup(&'a Text, &'a Edn),
    Tempid(&'a Text),
    /// A map without `:db/id`, by how many maps come before it.
    Nameless(usize),
}

/// What is given in the place of a value.
#[derive(Clone, Copy)]
pub enum Operand<'a> {
    /// A value, to be read by the attribute's type.
    Plain(&'a Edn),
    /// An entity, under an attribute whose values are entities.
    Entity(Name<'a>),
}

/// Each attribute as the facts before have it, where they do.
#[derive(Clone, Copy)]
pub enum Ask<'a> {
    Adds(Name<'a>, Option<Attribute<'a>>, Operand<'a>),
    Retracts(Name<'a>, Option<Attribute<'a>>, Operand<'a>),
    /// Every value.
    RetractsAll(Name<'a>, Option<Attribute<'a>>),
    /// The old value and the new one.
    Compares(Name<'a>, Option<Attribute<'a>>, Operand<'a>, Operand<'a>),
    RetractsEntity(Name<'a>),
    /// There is a map of this entity.
    Meets(Name<'a>),
    /// An attribute is a key of a map.
    Mentions(Option<Attribute<'a>>),
    /// A map inside another lacks what it needs.
    LacksId,
}
