//! Answers the reads of a session, and what is not a command: one line each, of what the session has
//! seen, and the change of what it sees.
#![tactic(auto)]

mod lines;
mod pulls;
mod reads;
mod scans;
mod tries;
mod tuples;
mod views;

pub use reads::answer_read;
