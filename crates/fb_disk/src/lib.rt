//! The disk as the program sees it: a file that may crash. The trait says what a read gives, what a crash now may
//! leave, and what a crash since a given moment might have left.
#![tactic(auto)]

mod disks;

pub use disks::Disk;
pub use io_faults::Failed;
