//! What a session asks of the database that it shares with others: a joint between the loop over a script's commands and
//! whatever holds the history, a core alone or one behind a log and a turn.
#![tactic(auto)]

mod answers;
mod desk;

pub use answers::{Glance, Receipt, TxFault};
pub use desk::{Desk, Reply};
