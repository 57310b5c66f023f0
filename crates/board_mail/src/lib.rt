//! Mailed snapshots: the holder of the turn puts one into each session's slot, and the session looks at its own without
//! waiting for anybody.
#![tactic(auto)]

mod mailing;

pub use mailing::{Mail, peek, put, put_each};
