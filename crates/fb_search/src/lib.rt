//! How every index is searched: by comparisons of a probe with datoms, each of them counted, or for the place of one
//! datom, uncounted.
#![tactic(auto)]

mod holders;
mod search;
mod steps;

pub use holders::HoldsDatom;
pub use search::{is_below, lower_bound, place_of_datom, stands_after};
pub use steps::Steps;
