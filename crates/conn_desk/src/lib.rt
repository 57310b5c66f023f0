//! The desk of one of several sessions, at a connection. It owns the session's seat and hands each call on.
#![tactic(auto)]

mod desks;

pub use desks::ConnDesk;
