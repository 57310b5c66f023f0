//! A database value as reads see it: a snapshot through a window and a filter.
#![tactic(auto)]

mod db;

pub use db::Db;
