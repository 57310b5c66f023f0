//! What a database of facts is: numbers, histories, facts, the schema, and which history is lawful, as definitions in
//! `specs/`. The functions here are laws about them, and examples: each has an empty body, and its contract is the law.
#![tactic(auto)]

mod examples;
mod growth;
mod lawful;
mod schema;
mod texts;

pub use examples::{
    first_entry_has_forty_datoms, first_user_entity, instants_rise_under_a_clock_that_stands_still,
    later_entries, numbers_of_values, schemas, texts_of_values, types, unlawful_entries, words,
};
pub use growth::{
    basis_after_an_entry, facts_after_an_entry, instants_after_an_entry, new_users_have_no_facts,
    users_after_an_entry,
};
pub use lawful::{
    a_text_of_a_new_entity_is_lawful, equal_keys_are_one_datom, first_is_lawful,
    lawful_entries_make_lawful_histories, lawful_histories_are_counted_by_t,
    the_least_law_is_none_where_all_are_kept,
};
pub use schema::{
    attributes_stay_attributes, facts_are_of_their_types, facts_are_what_holds,
    one_value_and_one_holder, the_schema_changes_by_the_entry_alone,
};
pub use texts::texts_are_utf8;
