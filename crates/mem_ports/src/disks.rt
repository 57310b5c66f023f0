//! The disk in memory.
mod disk;
mod place;
mod record;

pub use disk::MemDisk;
