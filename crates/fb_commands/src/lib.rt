//! The command that a form of a script is.
#![tactic(auto)]

mod commands;
mod reading;

pub use commands::{Command, Look, Read, Turn};
pub use reading::command_in;
