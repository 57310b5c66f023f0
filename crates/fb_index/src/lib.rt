//! The lists of an order, a tree's and the live ones, read as one rising list: of all datoms, or of those that hold.
#![tactic(auto)]

mod ranges;
mod sides;
mod walk;

pub use ranges::{is_led, push_live, push_older};
pub use sides::{Extent, Sides};
pub use walk::Walk;
