//! The lines of a live session, as they come. Who listens only where no whole line is in front keeps one line and one piece at most.
#![tactic(auto)]

mod heard;
mod laws;

pub use heard::{Heard, ListenError, Next};
pub use laws::{a_line_and_what_is_behind_it, one_thing_is_next};
