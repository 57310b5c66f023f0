//! What runs of the program are compared with: one plain session has to answer every line of all sessions, at its place in the one history.
#![tactic(auto)]

mod plain;
mod replay;
mod stop;
mod track;

pub use plain::answer_all;
pub use replay::{Replay, Torn};
pub use track::Served;
