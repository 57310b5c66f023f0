//! Where an entry goes before it is accepted: a joint between the connection and whatever keeps its log.
#![tactic(auto)]

mod logs;

pub use io_faults::Failed;
pub use logs::Log;
