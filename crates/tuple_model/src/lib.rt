//! Composite tuples, as definitions in `specs/`. The functions here are laws about them, and
//! examples: each has an empty body, and its contract is the law.
#![tactic(auto)]

mod examples;
mod laws;

pub use examples::{
    bounds_given, composites, composites_given, guard_on_both, ranges, shared_tuples,
    tuples_of_a_view,
};
pub use laws::{
    Selection, a_tuple_has_a_value, an_entity_has_one_row, an_entry_tells_of_its_own_entities,
    the_guard_bars_what_is_barred, tuples_are_one_list, tuples_in_a_view_are_one_list,
    what_is_given_fits,
};
