//! The log of a database on a disk, where the connection adds each entry before it is accepted: a journal that has a record
//! for each entry. The definitions in `specs/` say what a crash may leave of it.
#![tactic(auto)]

mod laws;
mod logs;
mod records;

pub use laws::a_log_goes_on_from_its_opening;
pub use logs::DiskLog;
pub use records::{LogRecord, next_record};
