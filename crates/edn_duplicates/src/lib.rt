//! Which member of a set, or key of a map, is a duplicate: found by codes in which alike forms are equal.
#![tactic(auto)]

pub mod code;
mod coded;
mod form_codes;
pub mod laws;
mod spelling;
mod token;

pub use form_codes::FormCodes;
pub use spelling::Spelling;
pub use token::CodeToken;
