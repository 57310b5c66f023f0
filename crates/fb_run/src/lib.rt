//! The top call: it runs the command that the words of a command line are, over a host, a clock, filters, a guard and a gate, and
//! hands back all that became of them.
#![tactic(auto)]

mod backing;
mod copying;
mod database;
mod ending;
mod jobs;
mod lines;
mod loading;
mod looking;
mod merging;
mod opening;
mod outcome;
mod strict;
mod summary;
mod top;

pub use outcome::{Outcome, SessionOut};
pub use top::run;
