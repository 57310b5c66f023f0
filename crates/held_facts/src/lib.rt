//! The facts that hold now, of a history that grows in place: for judging a log entry by entry. What is asked costs the
//! logarithm of what holds, and what it answers, whatever held before.
#![tactic(auto)]

mod asked;
mod fact_maps;
mod facts;
mod held;

pub use held::Held;
