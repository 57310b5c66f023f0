//! A guard on composite tuples: no two entities have one whole tuple. It bars what the definition `bars_unique` says, and nothing
//! else. And two guards as one.
#![tactic(auto)]

mod barring;
mod both;
mod holders;
mod named;
mod sharing;
mod tuples;
mod unique;

pub use both::Both;
pub use unique::{Names, UniqueTuples};
