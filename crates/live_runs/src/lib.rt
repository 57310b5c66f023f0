//! Sorted runs of numbers of datoms: what the live index keeps in each order.
#![tactic(auto)]

mod aim;
pub mod laws;
mod mates;
mod members;
mod merging;
mod parts;
mod remaking;
mod runs;
mod seek;
mod settled;
mod table;
mod waiting;
mod walk;
mod weaving;

pub use mates::is_mate;
pub use members::Member;
pub use runs::Runs;
pub use table::Table;
pub use walk::RunsWalk;
