//! The rules on what a transaction changes, and the entry of one that breaks none.
#![tactic(auto)]

mod cas;
mod conflicts;
mod fixed;
mod holders;
mod laws;
mod places;
mod promises;
mod recording;
mod room;
mod rules;
mod whole;

pub use laws::changes_are_of_one_entry;
pub use recording::{entry, next_instant};
pub use rules::least_refusal;
