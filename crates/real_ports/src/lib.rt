//! The ports of the system that the program runs on. Nothing is claimed of the bytes that they give and take: this is
//! the edge where the operating system is trusted.
#![tactic(auto)]

mod clocks;
mod disks;
mod files;
mod hosts;
mod in_use;
mod opened;
mod synced;
mod waits;

pub use clocks::SystemClock;
pub use disks::AnyDisk;
pub use files::{FileSink, FileSource};
pub use hosts::RealHost;
