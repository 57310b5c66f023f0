//! The outside as the program sees it: where bytes come from, where they go and where they stay, and what time it is.
//! Each port is a trait. Its forms in memory are in `mem_ports`, and the real ones in `real_ports`.
//! A fault of the outside is counted, so that a caller who reports one can be held to it.
#![tactic(auto)]

mod clocks;
mod fails;
mod hosts;
mod streams;

pub use clocks::Clock;
pub use fails::OpenFail;
pub use fb_disk::Disk;
pub use hosts::{Host, Part};
pub use io_faults::Failed;
pub use streams::{Sink, Source};
