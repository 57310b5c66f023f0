//! The schema of a history as a value: the attributes by their numbers and by their names, the names of all other
//! entities, and which attributes the indexes hold. An entry that says nothing of the schema leaves it shared.
#![tactic(auto)]

mod attribute;
mod description;
mod facts;
mod idents;
mod installed;
mod laws;
mod schema;
mod tables;

pub use attribute::Attribute;
pub use laws::{schemas_are_of_their_histories, schemas_tell_of_attributes};
pub use schema::{Schema, changes_schema};
