//! The attribute that an entity's facts describe.
ghost use Rattle.std.specs.Prelude.{◌≡◌, ℕ, List, filter, nat_eq, if◌then◌else◌, ◌==◌, IfOk, false};
ghost use Rattle.std.specs.Option.{option_map, option_map_or};
ghost use Rattle.std.specs.Ordering.{nat_cmp};
ghost use Rattle.shared_map.specs.Entries.{get};
ghost use Rattle.fb_values.specs.declared.facts.Datom.{Datom};
ghost use Rattle.fb_values.specs.declared.indexes.Order.TheVariants.{Avet, Vaet};
ghost use Rattle.fb_model.specs.Schema.{attribute_of as model_attribute_of, is_held as model_is_held};
ghost use Rattle.fb_schema.specs.Parts.{model_attribute};

use crate::attribute::Attribute;
use crate::description::Description;
use fb_covers::Held;
use fb_memory::Memory;
use fb_values::{Datom, Order};
use shared_map::SharedMap;

/// The attribute that the entity is, by its own facts. It goes from the last one to the first, since the first of a kind
/// decides.
pub fn attribute_of(own: &[Datom], e: u64) -> Result<Option<Attribute>, Memory>
    ensures { IfOk result (λ found. (facts : List Datom)
        → own.now ≡ filter (λ d. nat_eq d.e e) facts
        → option_map model_attribute found ≡ model_attribute_of facts e) }
{
    let mut said = Description::empty();
    let mut i = own.len();
    while i > 0 {
        i -= 1;
        said = said.with(&own[i])?;
    }
    said.attribute(e)
}

/// The attributes where the entity is this one from now on, or none.
pub fn with_attribute(
    attributes: &SharedMap<u64, Attribute>,
    e: u64,
    found: Option<Attribute>,
) -> Result<SharedMap<u64, Attribute>, Memory>
    ensures { IfOk result (λ new. (k : ℕ) → get nat_cmp new k
        ≡ (if e == k then found else get nat_cmp attributes.now k)) }
{
    match found {
        Some(attribute) => attributes.with(e, attribute),
        None => attributes.without(&e),
    }
}

/// Which indexes hold it.
pub fn held_of(found: &Option<Attribute>) -> Held
    ensures avet { result.avet
        ≡ option_map_or (model_is_held Avet) (option_map model_attribute found.now) false }
    ensures vaet { result.vaet
        ≡ option_map_or (model_is_held Vaet) (option_map model_attribute found.now) false }
{
    match found {
        Some(attribute) => Held {
            avet: attribute.is_held_in(Order::Avet),
            vaet: attribute.is_held_in(Order::Vaet),
        },
        None => Held {
            avet: false,
            vaet: false,
        },
    }
}
