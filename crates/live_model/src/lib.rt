//! What a live session is sent, as definitions in `specs/`: the lines of its bytes, the forms of a line, and what answers
//! a line that cannot be read. How a form is answered `talk_model` says. The functions here are laws about these, and
//! examples: each has an empty body, and its contract is the law.
#![tactic(auto)]

mod answers;
mod lines;
mod readings;

pub use answers::{one_answer_more, replies_that_name_a_fault, what_is_written};
pub use lines::{
    bytes_have_one_cut, lines_by_computation, lines_of_whole_lines, lines_one_by_one,
    the_longest_line,
};
pub use readings::{a_line_has_one_reading, faults_that_end_a_line, lines_that_are_whole};
