//! Segment trees: the older datoms of one order in immutable leaves under directories, each shared and with an id.
#![tactic(auto)]

mod build;
mod nodes;
mod roots;
mod tree;

pub use build::Builder;
pub use nodes::{Directory, Leaf, MOST};
pub use roots::Roots;
pub use tree::{Place, Tree};
