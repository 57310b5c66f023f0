//! Laws of the numbers: each function's contract is a law, and there is nothing to run.
ghost use Rattle.std.specs.Prelude.{◌≡◌, ℕ, ◌+◌, ◌-◌, ◌*◌, ◌^◌, ◌≤◌, pos, negsuc};
ghost use Rattle.fb_numbers.specs.Numbers.{transaction_of, user_entity, user_number, greatest_t};

use crate::entities::{TRANSACTIONS, USER_ENTITIES};
use crate::limits::{
    GREATEST_INSTANT, GREATEST_T, LARGEST_ENTRY, LEAST_INSTANT, LONGEST_NAME, LONGEST_STRING,
    MOST_DATOMS, MOST_USERS,
};

/// The entities of transactions are the third partition of 2^42 numbers, and those of users the fourth, as in Datomic.
pub fn partitions_are_datomics()
    ensures third { TRANSACTIONS ≡ 3 * 2 ^ 42 }
    ensures fourth { USER_ENTITIES ≡ 4 * 2 ^ 42 }
{}

/// The limits, by the bits that they fill, as the manual promises them.
pub fn limits_are_the_promised_ones()
    ensures t { GREATEST_T + 1 ≡ 2 ^ 31 }
    ensures datoms { MOST_DATOMS + 1 ≡ 2 ^ 16 }
    ensures entry { LARGEST_ENTRY ≡ 2 ^ 26 }
    ensures name { LONGEST_NAME + 1 ≡ 2 ^ 16 }
    ensures string { LONGEST_STRING ≡ 2 ^ 20 }
    ensures users { MOST_USERS ≡ 2 ^ 40 }
{}

/// Instants go from the first millisecond of the year 1, which is 719,162 days before 1970, to the last one of the year
/// 9999: the year 10000 begins 2,932,897 days after 1970.
pub fn instants_are_those_of_the_years_1_to_9999()
    ensures least { LEAST_INSTANT ≡ negsuc (719162 * 86400000 - 1) }
    ensures greatest { GREATEST_INSTANT ≡ pos (2932897 * 86400000 - 1) }
{}

/// The number of a user entity is the one that it was made of.
pub fn there_and_back()
    ensures user { (n : ℕ) → user_number (user_entity n) ≡ n }
    ensures no_user { (t : ℕ) → t ≤ greatest_t → user_number (transaction_of t) ≡ 0 }
{}
