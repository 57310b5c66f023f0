//! Whether an entry may follow a history, judged by searches: the least of the nine laws that it breaks. What an entry
//! leaves alone is not looked at, since the history keeps the laws.
#![tactic(auto)]

mod altered;
mod attributes;
mod datoms;
mod latest;
mod laws;
mod numbers;
mod values;

pub use latest::Latest;
pub use laws::{keeps_own_laws, lawful};
