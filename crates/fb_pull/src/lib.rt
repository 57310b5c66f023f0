//! Pulls: the tree that a pattern gives of an entity in a database value. A pull reads no more than it gives, and stops as soon as it
//! is too large.
#![tactic(auto)]

mod below;
mod facts;
mod found;
mod keys;
mod made;
mod names;
mod near;
mod paths;
mod pulls;
mod stops;
mod trees;

pub use pulls::pull;
pub use stops::PullStop;
