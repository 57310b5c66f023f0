//! The live index: the datoms that no segment tree has yet, in the four orders. Every version of it is a value of its
//! own, which shares almost all that it has with the version before.
#![tactic(auto)]

mod gathering;
mod half;
mod laws;
mod live;
mod orders;
mod ranked;
mod remaking;
mod retracting;
mod splitting;
mod walk;

pub use half::{Half, HalfWalk};
pub use laws::{
    next_entries_bring_no_twins, next_entries_may_follow, next_entries_may_follow_a_refill,
};
pub use live::Live;
pub use walk::Walk;
