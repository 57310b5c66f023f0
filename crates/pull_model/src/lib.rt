//! What a pull is, as definitions in `specs/`: patterns, the tree that a pattern gives of an entity
//! in a view, and what is refused. The functions here are laws about them, and examples: each has
//! an empty body, and its contract is the law.
#![tactic(auto)]

mod cycles;
mod forms;
mod keys;
mod laws;
mod limits;
mod rows;

pub use cycles::{parts, paths, recursion};
pub use forms::{no_patterns, options, patterns};
pub use keys::{defaults, reversed_names, skipped_items, wildcards};
pub use laws::{
    a_hidden_attribute_is_absent, a_limit_counts_after_the_filters, a_name_put_twice_is_there_once,
    a_pattern_has_no_bad_item, a_pull_has_one_answer, a_tree_is_finite,
    a_tree_is_made_item_by_item, a_view_is_not_without_a_list, counts_only_grow,
    keys_stand_once_and_in_the_order_of_items, no_entity_is_twice_on_a_path, the_room_is_enough,
};
pub use limits::{a_long_chain, hidden_idents, maps_that_are_made, refusals};
pub use rows::{
    a_home_page, a_retracted_entity, friends_of_friends, many_numbers, names_and_defaults,
    one_by_its_email, under_filters,
};
