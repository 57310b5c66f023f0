//! The words of the program's command line, and how they are read. For them the program depends on this crate alone.
#![tactic(auto)]

mod by_clap;
mod commands;
mod examples;
mod numbers;
mod scripts;

pub use commands::{Backup, Options, Request, Run, command_in};
pub use scripts::sink_name;
