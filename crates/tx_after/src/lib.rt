//! The facts of a history with further changes that are not recorded yet: those of an entity and those of an attribute,
//! what an entity is as an attribute, and whether an attribute's facts keep what it promises. Each costs what the history
//! says of the entity or the attribute, and the changes that concern it.
#![tactic(auto)]

mod attributes;
mod by_attribute;
mod described;
mod facts;
mod laws;
mod merge;
mod parts;
mod promises;
mod said;
mod triples;
mod values;

pub use by_attribute::ByAttribute;
pub use described::{Description, attribute_after, description_after};
pub use facts::{facts_of, facts_under};
pub use laws::{
    datoms_in_order_are_changes, values_are_as_many, what_is_asked_of_a_part_is_asked_of_it_alone,
    what_is_said_of_an_entity_is_in_its_facts,
};
pub use promises::{gives_one_holder, gives_one_value};
pub use triples::mentions;
pub use values::values_of;
