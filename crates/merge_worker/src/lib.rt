//! The worker: it merges what is live into new trees beside the sessions, and has them kept before the sessions get them. What it
//! leaves at the end is merged in the closed core.
#![tactic(auto)]

mod bases;
mod catching_up;
mod ends;
mod gates;
mod settling;
mod working;
mod worth;

pub use bases::base_of;
pub use ends::WorkEnd;
pub use gates::{Gate, OpenGate, Point};
pub use settling::settle;
pub use working::work;
