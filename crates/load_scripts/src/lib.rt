//! The scripts of the generator: what each of its sessions asks for.
#![tactic(auto)]

mod examples;
mod laws;
mod scripts;

pub use laws::scripts_are_forms;
pub use scripts::{INSTALLER, SESSIONS, script_of};
