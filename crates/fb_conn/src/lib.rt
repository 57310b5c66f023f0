//! The connection: one database for several sessions and a merge worker, over the board. A call waits for others only where it
//! takes a turn.
#![tactic(auto)]

mod bell;
mod closing;
mod conn;
mod glances;
mod home;
pub mod laws;
mod letters;
mod merging;
mod recording;
mod seats;
mod supposing;
mod tray;
mod turns;

pub use bell::Bell;
pub use board_seats::Patience;
pub use closing::Closed;
pub use conn::{Conn, ConnStop, Made};
pub use home::Stop;
pub use seats::Seat;
