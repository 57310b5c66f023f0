//! Reopening a database from its two files: the history that its log holds, or what is wrong with the log first, and the
//! trees that the file of segments keeps of it. All records are judged as payloads before any entry is judged by the laws,
//! and the log before anything is asked of the segments.
#![tactic(auto)]

mod basing;
mod faults;
mod judging;
mod logging;
mod records;
mod reopening;

pub use faults::{OpenFault, OpenStop};
pub use reopening::{Opened, reopen};
