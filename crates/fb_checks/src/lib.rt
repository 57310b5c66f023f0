//! A guard made of checks: tests that added values of an attribute have to pass, and attributes that an entity is required to
//! have. It bars what the definition `bars_of` says, and nothing else.
#![tactic(auto)]

mod barring;
mod check;
mod checks;
mod entities;
mod examples;
mod kept;
mod names;
mod ranges;
mod standard;
mod tests;
mod values;

pub use check::{BoxedCheck, Check};
pub use checks::Checks;
pub use kept::{Answers, BoxedTest, KeptCheck};
pub use standard::shipped;
pub use tests::{AttrTest, Need, Test};
