//! Backups of a database to another pair of disks, while sessions go on. A target's log gets the entries that it lacks, one
//! after another, and stands for a beginning of the history at each moment. A new file of segments gets the newest trees and
//! no other nodes. Restoring is a run on the copy.
#![tactic(auto)]

mod appending;
mod backing;
mod comparing;
mod copying;
mod faults;
mod laws;
mod reading;
mod same;

pub use backing::backup;
pub use copying::{copy_roots, copy_roots_if_new};
pub use faults::{Backed, BackupFault, BackupStop, CopyFault, CopyStop};
pub use laws::a_backup_reopens_as_a_beginning;
