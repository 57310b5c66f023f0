//! What a transaction is, and what it does to a history, as definitions in `specs/`. The functions
//! here are laws about them, and examples: each has an empty body, and its contract is the law.
#![tactic(auto)]

mod answers;
mod clocks;
mod components;
mod edges;
mod lawful;
mod numbers;
mod order;
mod rules;
mod schema;
mod sizes;
mod unique;
mod words;

pub use answers::{
    named_tempids_rise_by_their_bytes, one_list_of_named_tempids, reasons_have_keywords,
    the_least_rule_is_told,
};
pub use clocks::{refusals_do_not_depend_on_the_clock, two_clocks_differ_in_the_instant_alone};
pub use components::{components_and_references, nested_maps};
pub use edges::{
    changes_that_are_allowed, index_there_and_back, names_that_are_known, room_that_is_left,
    symbols, tempids_that_are_known, what_is_told_of_several_faults,
};
pub use lawful::{
    an_accepted_entry_is_lawful, changes_are_those_of_what_is_asked, lawful_histories_are_small,
};
pub use numbers::{compare_and_set, greatest_and_least_numbers};
pub use order::{
    a_held_tempid_is_the_same_in_any_order, a_rule_is_broken_in_any_order,
    orders_with_the_same_entities_agree, the_same_is_recorded_in_any_order,
    the_same_rules_are_broken_in_any_order,
};
pub use rules::{rules_on_changes, rules_on_names, shapes};
pub use schema::{alterations, attributes, cardinality_there_and_back, other_types};
pub use sizes::{
    an_accepted_entry_is_not_too_large, entries_that_are_too_large, the_bytes_of_an_entry,
};
pub use unique::{
    long_values_of_lookup_refs, lookup_refs, lookup_refs_by_an_entity, moved_values, nameless_maps,
    texts, the_transaction_is_no_tempid, unique_emails,
};
pub use words::{keywords_are_those_of_edn, symbols_are_those_of_edn};
