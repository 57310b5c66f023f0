//! What the retractions of a transaction find in the database: every value of an attribute, and all facts of an entity
//! and its parts. Each fact is found once, whatever how many forms ask for it.
#![tactic(auto)]

mod entity;
mod found;
mod sweep;

pub use sweep::swept;
