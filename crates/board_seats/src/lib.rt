//! Turns and looks at the board in lists of entries. Its clauses say what a seat has seen and learns of the lists that values
//! stand for, so that the crates above need no entry's code.
#![tactic(auto)]

mod glances;
mod seating;
mod turns;

pub use board_rule::{Board, BoardSeat, BoardStop, Held, Mailed, Mails, Named, Patience};
pub use glances::glance;
pub use seating::{Opened, Seated, gather, open};
pub use turns::{Meanwhile, add, end, end_seen, enter, enter_after};
