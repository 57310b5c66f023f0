//! What a transaction asks, between the steps that decide it: first of entities by their names, then of entities by their
//! numbers, and last triple by triple. This crate has the types, and says what the definitions see in them, so that no step
//! depends on another's body.
#![tactic(auto)]

mod acts;
mod asks;
mod boxes;
mod laws;
mod triples;

pub use acts::{Act, Resolved, ResolvedComparison};
pub use asks::{Ask, Comparison, Flat, LookupRef, Name, Operand};
pub use boxes::Boxed;
pub use laws::{acts_ask_what_asks_do, acts_compare_what_asks_do, asks_that_ask_for_nothing};
pub use triples::{Asking, Triple};
