//! The step of a transaction, whole: from the form that asks to the entry that is to be recorded, or to why it is refused. It
//! puts the steps of the engine in a row, over a history that answers for its facts and over the history's schema.
#![tactic(auto)]

mod deciding;
mod guard;

pub use deciding::{Accepted, decide};
pub use guard::{Guard, NoGuard};
pub use tx_forms::TxStop;
