//! What a transaction does at a history, over plain lists and slowly. It is what a faster step is compared with; nothing of the
//! product depends on it.
//!
//! It is written plainly, to be read beside `Step` of `tx_model`. It promises nothing but safety, so that a comparison says
//! something that the proofs do not.
#![tactic(auto)]

mod guard;
mod outcome;

pub use guard::{Guard, NoGuard};
pub use outcome::{Decision, step};
