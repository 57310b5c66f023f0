//! The board: one history for all threads, kept by a rule that holds between any two single atomic steps.
#![tactic(auto)]

mod beds;
mod board;
mod ends;
mod held;
pub mod laws;
mod mail_steps;
mod mails;
mod named;
mod note;
mod patience;
mod plays;
mod seat;
mod steps;
mod view;

pub use board::{Begun, Board, OneHistory, SlotValue};
pub use ends::BoardStop;
pub use held::Held;
pub use mail_steps::{
    step_holder_grab, step_holder_let_go, step_mail, step_reader_grab, step_reader_let_go,
};
pub use mails::Mails;
pub use named::{Mailed, Named};
pub use note::Note;
pub use patience::Patience;
pub use plays::{PickedHistory, PickedMarks, PickedOrigin};
pub use seat::BoardSeat;
pub use steps::{
    step_commit, step_core, step_count, step_draw, step_join, step_leave, step_look, step_split,
};
pub use view::{At, Code, Content, Grab, Joined, Marks, Stop, Story, View};
