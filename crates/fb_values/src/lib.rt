//! What the database records: values of nine types, datoms, the entries of a history, and the four orders in which
//! its indexes keep datoms.
#![tactic(auto)]

pub mod examples;
mod facts;
mod indexes;
pub mod laws;

pub use facts::{Datom, Datoms, Entry, Value};
pub use indexes::{Order, Probe, cmp_in, cmp_probe};
