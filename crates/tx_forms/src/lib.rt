//! The first step of a transaction: its forms, parsed. Each has one of the shapes that a form may have, or the transaction
//! is refused; nothing is looked up yet.
#![tactic(auto)]

mod forms;
mod lists;
mod maps;
mod names;
mod read;
mod verbs;

pub use forms::{EntityForm, ListForm, TxForm};
pub use names::{entity_in, is_id, lookup_in};
pub use read::{TxStop, read_forms};
