//! The second step of a transaction: what each form asks, in the order in which a reader meets it, and the rules that need
//! the schema alone.
#![tactic(auto)]

mod attrs;
mod expanding;
mod faults;
mod firsts;
mod forms;
mod judge;
mod laws;
mod links;
mod lists;
mod lookups;
mod names;
mod raw;
mod settle;
mod walk;

pub use expanding::expand;
pub use laws::{
    attributes_decide_what_is_asked, attributes_have_their_names, maps_have_places_of_their_own,
};
