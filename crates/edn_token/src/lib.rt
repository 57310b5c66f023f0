//! The tokens and strings of EDN, and what may be between forms without being one. Each call reads the front of some
//! bytes and counts from there.
#![tactic(auto)]

mod bytes;
mod characters;
mod escape;
mod gap;
mod name;
mod number;
mod piece;
mod string;
mod token;

pub use characters::read_token;
pub use gap::skip_blanks;
pub use number::magnitude;
pub use string::{StringStop, read_string};
pub use token::{Token, What, judge, keyword_name};
