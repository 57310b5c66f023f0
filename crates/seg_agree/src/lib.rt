//! Which trees a history agrees with: whether they are the indexes of its first entries, datom by datom. So what a file of
//! segments says is believed only where the log says the same.
#![tactic(auto)]

mod agreeing;
mod among;
mod index;
mod newest;
mod totals;
mod walks;

pub use agreeing::agrees;
pub use newest::newest_agreeing;
pub use totals::totals_of;
