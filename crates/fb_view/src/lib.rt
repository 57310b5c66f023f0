//! A database value at a point: its history with its schema, its trees and its live index, as one thing that is shared.
#![tactic(auto)]

mod facts;
mod growth;
mod issued;
mod laws;
mod making;
mod replaying;
mod snapshot;
mod sorting;

pub use laws::{the_present_lists_are_the_facts, the_two_lists_are_the_index};
pub use snapshot::Snapshot;
