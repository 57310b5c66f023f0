//! The desk of a session that has a core in memory to itself. It has no log that could fail, and nobody to wait for.
#![tactic(auto)]

mod alone;
mod serving;

pub use alone::CoreDesk;
