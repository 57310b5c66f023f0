//! The history of a database: its entries, from the first one on, and who wrote them. A history only grows, and its
//! older versions stay: a longer one shares what it was made from.
#![tactic(auto)]

mod authors;
mod entries;
mod first;

pub use authors::Authors;
pub use entries::EntryList;
pub use fb_values::{Datoms, Entry};
