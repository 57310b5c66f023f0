//! The streams of a live session, which lets go of them when it ends while others go on. In memory they come in pieces, and those of the
//! system are named pipes that are opened when they are first used: the opening waits for who is at the other end. Of these nothing is
//! claimed but their faults and whether they were let go of, as of all in `real_ports`.
#![tactic(auto)]

mod hosts;
mod late_sinks;
mod late_sources;
mod pieces;
mod streams;

pub use hosts::LiveHost;
pub use late_sinks::LateSink;
pub use late_sources::LateSource;
pub use pieces::{PieceSink, PieceSource};
pub use streams::{LiveSink, LiveSource};
