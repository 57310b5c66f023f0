//! Why a transaction is refused: one type for the code that decides, for the definitions, and for the line that says it.
#![tactic(auto)]

mod laws;
mod reasons;

pub use laws::{keywords_tell_reasons_apart, numbers_are_one_to_21, numbers_tell_reasons_apart};
pub use reasons::{Bar, Reason, Refusal};
