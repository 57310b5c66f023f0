//! A session: forms that are answered one after another at a desk, as those of one script are.
#![tactic(auto)]

mod answering;
mod laws;
mod line;
mod outcome;
mod reading;
mod replying;
mod serve;
mod session;
mod transactions;
mod waiting;
mod writing;

pub use answering::AnswerError;
pub use laws::{a_longer_history_keeps_prefixes, a_longer_history_keeps_replies};
pub use outcome::{Places, Served, SessionEnd};
pub use serve::serve_desk;
pub use session::Session;
