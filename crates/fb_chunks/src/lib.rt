//! Lists that only grow and whose older versions stay: a longer list shares all but a few chunks with the list that it
//! was made from.
#![tactic(auto)]

mod chunks;
mod lists;
mod sharing;
mod tails;
mod tree;

pub use lists::ChunkList;
pub use sharing::{Share, Shared};
