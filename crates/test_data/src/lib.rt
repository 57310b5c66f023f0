//! What tests draw from a seed: chance, and small transactions.
#![tactic(auto)]

mod dice;
mod transactions;

pub use dice::Dice;
pub use transactions::{PEOPLE, SCHEMA, data};
