//! The reader of EDN: the bytes of a text, and the next form in them.
#![tactic(auto)]

mod construct;
mod fault;
mod front;
mod land;
mod open;
mod progress;
mod read;
mod step;
mod token;

pub use construct::Frames;
pub use edn_form::{Edn, Items, Pairs, Text};
pub use edn_token::What;
pub use fault::EdnFault;
pub use read::{read_form, read_form_in};
