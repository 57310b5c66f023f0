//! What a session replies to the forms of its script, over a plain list of entries and slowly: what a faster session is compared
//! with. Nothing of the product depends on it.
//!
//! It is written plainly, to be read beside the definitions of commands, reads and replies. It promises nothing but safety, so
//! that a comparison says something that the proofs do not.
#![tactic(auto)]

mod checks;
mod commands;
mod components;
mod filters;
mod found;
mod patterns;
mod points;
mod pulls;
mod reads;
mod replies;
mod session;
mod sight;
mod stops;
mod tuples;

pub use replies::{receipt, refusal};
pub use session::{PlainSession, new_history, transact};
