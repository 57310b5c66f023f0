//! An ordered map whose older versions stay: a newer one is a copy of one way down, and shares all else with the map that
//! it was made from.
#![tactic(auto)]

mod entries;
mod map;
mod tree;

pub use entries::Query;
pub use map::SharedMap;
