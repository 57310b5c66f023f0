//! The canonical text of a form.
#![tactic(auto)]

mod escape;
mod form;
mod instant;
pub mod laws;
mod token;

pub use form::print;
