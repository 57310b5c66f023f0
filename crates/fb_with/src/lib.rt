//! Transactions that are tried on a database value: what they would record, one after another, and the database with it. Nothing is
//! recorded.
#![tactic(auto)]

mod chains;
mod steps;
mod trying;

pub use chains::{ChainStop, Chained, Tried, chain};
pub use trying::{WithFault, WithReport, is_whole, with};
