//! The trees of what holds, made of the trees of all datoms.
#![tactic(auto)]

mod builder;
mod facts;
mod leaf;

pub use facts::facts_of;
