//! The meaning of EDN: what a form is, which bytes are a text of which form, and what comes next in a text.
//! The functions here are laws and worked examples: each has an empty body, and its contract is what is proved.
#![tactic(auto)]

pub mod printing;
pub mod reading;
pub mod worked;
