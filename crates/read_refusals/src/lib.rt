//! Why a read is refused: one type for the code that answers, for the definitions, and for the line that says it.
#![tactic(auto)]

mod laws;
mod reasons;

pub use laws::keywords_tell_reasons_apart;
pub use reasons::{Reason, Refusal};
