//! What a disk that may crash does, and what a journal's bytes stand for, as definitions in `specs/`. The functions here
//! are laws about them: each has an empty body, and its contract is the law.
#![tactic(auto)]

mod laws;

pub use laws::{a_file_has_one_reading, each_file_has_a_reading};
