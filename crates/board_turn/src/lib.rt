//! The turn: one seat at a time holds the value that stands for the history.
#![tactic(auto)]

mod turns;

pub use board_rule::{Board, BoardSeat, Held, Mailed, Mails, Named, step_join, step_split};
pub use turns::{come_near, commit, count, draw, leave, turn};
