//! Backups, as definitions in `specs/`. The functions here are laws about them, and examples: each
//! has an empty body, and its contract is the law.
#![tactic(auto)]

mod examples;
mod laws;

pub use examples::{copies, numbers_of_copies, targets};
pub use laws::{
    a_backup_broken_off_is_a_beginning, a_backup_has_one_plan, a_beginning_lacks_the_rest,
    a_copied_root_is_kept, a_copy_stands_for_the_history,
};
