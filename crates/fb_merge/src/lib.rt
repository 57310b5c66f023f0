//! The trees of a whole database value: its own or other ones of the same history, and what is live beside them merged in. The
//! merge starts threads, which a value does not.
#![tactic(auto)]

mod stop;
mod trees;

pub use stop::MergeStop;
pub use trees::{merged, merged_onto};
