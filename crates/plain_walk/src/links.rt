//! What links the entity of a map to what stands under a key.
use fb_numbers::TYPE_REF;
use plain_asks::{Ask, Name, Operand};
use plain_reads::Attribute;

// ---- what the facts before say of what stands in an attribute's place

/// Whether its values are entities.
pub fn has_ref(attribute: &Option<Attribute<'_>>) -> bool {
    attribute.is_some_and(|attribute| attribute.kind == TYPE_REF)
}

pub fn has_uniqueness(attribute: &Option<Attribute<'_>>) -> bool {
    attribute.is_some_and(|attribute| attribute.uniqueness != 0)
}

// ---- links

/// What links the entity of a map to what stands under a key.
#[derive(Clone, Copy)]
pub struct Link<'a> {
    pub this: Name<'a>,
    pub attribute: Option<Attribute<'a>>,
    /// The entity that is the value has the map's.
    pub is_reversed: bool,
}

impl<'a> Link<'a> {
    pub fn to(&self, part: Operand<'a>) -> Ask<'a> {
        match part {
            Operand::Entity(other) if self.is_reversed => {
                Ask::Adds(other, self.attribute, Operand::Entity(self.this))
            }
            _ => Ask::Adds(self.this, self.attribute, part),
        }
    }

    /// Whether it leads to an entity.
    pub fn is_ref(&self) -> bool {
        self.is_reversed || has_ref(&self.attribute)
    }

    /// Whether there may be several.
    pub fn is_many(&self) -> bool {
        self.is_reversed || self.attribute.is_some_and(|attribute| attribute.many)
    }

    /// Whether it leads to parts of the map's entity.
    pub fn has_parts(&self) -> bool {
        !self.is_reversed && self.attribute.is_some_and(|attribute| attribute.component)
    }
}
