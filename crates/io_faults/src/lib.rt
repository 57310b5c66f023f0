//! What a call of the outside fails with, and the count of faults that each object of the outside keeps.
#![tactic(auto)]

mod faults;

pub use faults::{Failed, raise};
