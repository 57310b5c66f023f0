//! The bytes of a log and of kept roots, as definitions in `specs/`. The functions here are laws
//! about them, and examples: each has an empty body, and its contract is the law.
#![tactic(auto)]

mod examples;
mod fronts;
mod laws;
mod merges;
mod trees;

pub use examples::{
    bad_journals, bad_logs, first_payload, payloads_that_break, payloads_with_other_fields,
    storable_entries, unlawful_logs,
};
pub use fronts::{a_front_tells_a_misfit, fronts_of_payloads};
pub use laws::{
    a_fault_lies_in_its_payload, a_field_is_its_bytes, a_field_is_read_back,
    a_file_says_one_thing_as_a_log, a_log_stands_for_one_history, a_payload_holds_one_entry,
    a_payload_is_its_entrys_bytes, an_entry_is_read_back, an_entrys_size_is_that_of_its_bytes,
    entries_of_lawful_histories_are_storable, numbers_are_big_endian, what_a_log_says,
};
pub use merges::{
    a_file_keeps_one_list_of_roots, a_merge_record_is_read_back, bad_merge_records, merge_records,
    more_records_keep_the_roots, one_root_is_the_newest_that_agrees, roots_of_a_file,
    roots_that_agree_with_nothing,
};
pub use trees::{
    a_counted_list_is_the_index, later_nodes_change_no_tree, no_two_nodes_have_one_id,
    one_more_record_keeps_one_more_root,
};
