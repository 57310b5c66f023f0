//! The ports in memory, for tests and for sessions without a file: sources, sinks, disks, hosts and clocks. Their contracts say
//! all that they hold, and they fail exactly at the calls that their maker numbered.
#![tactic(auto)]

mod clocks;
mod disks;
mod hosts;
mod plan;
mod sinks;
mod sources;

pub use clocks::{FixedClock, StepClock};
pub use disks::MemDisk;
pub use hosts::MemHost;
pub use sinks::MemSink;
pub use sources::MemSource;
