//! The merge: new segment trees from older ones and from the live datoms, which share each leaf that no new datom
//! falls into.
#![tactic(auto)]

mod due;
mod leaf;
mod merge;
mod order;
mod plan;

pub use merge::{merge4, what_stands_may_be_merged};
