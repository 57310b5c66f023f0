//! What a read takes from the forms of a command: points in time, ranges of the log, names of
//! entities, components of an index and ranges of values, as definitions in `specs/`, with the
//! first place that fails. The functions here are laws about them, and examples: each has an empty
//! body, and its contract is the law.
#![tactic(auto)]

mod components;
mod laws;
mod points;

pub use components::{
    components_of_each_index, components_that_are_none, names_go_by_the_view, ranges_of_values,
};
pub use laws::{
    Selection, a_name_finds_one_entity, components_are_read_in_one_way, names_are_found_by_tests,
    points_agree, ranges_are_read_in_one_way, what_follows_a_refusal_does_not_tell,
};
pub use points::{points_in_commands, ranges_of_the_log};
