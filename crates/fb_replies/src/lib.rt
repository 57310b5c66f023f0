//! The lines that answer commands, written straight into a session's buffer.
#![tactic(auto)]

mod datoms;
mod laws;
mod replies;
mod tokens;
mod tried;
mod tuples;

pub use laws::{a_schema_tells_its_history, what_is_said_has_a_text};
pub use replies::{
    LogFault, write_basis, write_datoms, write_done, write_fault, write_pull, write_receipt,
    write_refusal, write_transactions, write_tuples, write_with,
};
