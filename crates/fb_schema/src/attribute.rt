//! An installed attribute.
ghost use Rattle.std.specs.Prelude.{◌≡◌, not, nat_eq};
ghost use Rattle.fb_numbers.specs.Numbers.{type_ref, unique_identity};
ghost use Rattle.fb_model.specs.Schema.{is_held};
ghost use Rattle.fb_schema.specs.Parts.{model_attribute};

use fb_numbers::{TYPE_REF, UNIQUE_IDENTITY};
use fb_text::Text;
use fb_values::Order;

/// An installed attribute. Its type and its uniqueness are the entities that say so in the data.
#[derive(Drop)]
pub struct Attribute {
    pub id: u64,
    /// Without its colon.
    pub ident: Text,
    /// The entity of its type.
    pub kind: u64,
    /// Whether an entity may have several values of it.
    pub many: bool,
    /// The entity of its uniqueness, or 0 where two entities may have one value.
    pub unique: u64,
    /// Whether the attribute's values are parts of their entities.
    pub component: bool,
    pub indexed: bool,
}

impl Attribute {
    /// Whether its values are entities.
    pub fn is_ref(&self) -> bool
        ensures { result ≡ nat_eq self.now.kind type_ref }
    {
        self.kind == TYPE_REF
    }

    /// Whether a value has one entity at most.
    pub fn is_unique(&self) -> bool
        ensures { result ≡ not (nat_eq self.now.unique 0) }
    {
        self.unique != 0
    }

    /// Whether a value names the entity that has it, so that adding it to a new entity is adding to that one.
    pub fn is_identity(&self) -> bool
        ensures { result ≡ nat_eq self.now.unique unique_identity }
    {
        self.unique == UNIQUE_IDENTITY
    }

    /// Whether the order's index has its datoms.
    pub fn is_held_in(&self, order: Order) -> bool
        ensures { result ≡ is_held order (model_attribute self.now) }
    {
        match order {
            Order::Eavt | Order::Aevt => true,
            Order::Avet => self.is_unique() || self.indexed,
            Order::Vaet => self.is_ref(),
        }
    }
}
