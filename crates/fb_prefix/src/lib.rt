//! The first bits of a datom's key in an order, as a number of two words: most comparisons of datoms are told by it alone.
#![tactic(auto)]

pub mod laws;
mod parts;
mod prefixes;
mod probes;

pub use prefixes::{Prefix, prefix_of};
pub use probes::{Sought, sought_by};
