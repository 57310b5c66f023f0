//! Where a history stands, and which numbers it has issued.
use fb_numbers::{GREATEST_INSTANT, LEAST_INSTANT, TRANSACTIONS, USER_ENTITIES};
use fb_values::{Datom, Entry};

/// The t of the last entry.
pub fn basis(entries: &[Entry]) -> u32 {
    match entries.last() {
        Some(entry) => entry.t,
        None => 0,
    }
}

/// The instant of the last entry.
pub fn last_instant(entries: &[Entry]) -> i64 {
    match entries.last() {
        Some(entry) => entry.instant,
        None => 0,
    }
}

/// What the clock reads, brought into the range of instants, and at least a millisecond after the last instant.
pub fn next_instant(last: i64, reading: i64) -> i64 {
    let reading = reading.max(LEAST_INSTANT).min(GREATEST_INSTANT);
    reading.max(last.saturating_add(1))
}

/// The n of a user entity, and 0 for every other number.
fn user_number(e: u64) -> u64 {
    e.saturating_sub(USER_ENTITIES)
}

/// The greatest n of a user entity that is the entity of a datom.
pub fn users_in(datoms: &[Datom]) -> u64 {
    let mut users = 0;
    for d in datoms {
        users = user_number(d.e).max(users);
    }
    users
}

pub fn users_issued(entries: &[Entry]) -> u64 {
    let mut users = 0;
    for entry in entries {
        users = users_in(entry.datoms.as_slice()).max(users);
    }
    users
}

/// Whether the entity is one of the first entry.
pub fn is_builtin(e: u64) -> bool {
    matches!(e, 1..=8 | 10..=18 | 20..=21 | 30..=31)
}

/// Whether the number is that of an entity: a built-in one, a transaction, or a user entity.
pub fn is_issued(entries: &[Entry], n: u64) -> bool {
    let last_transaction = TRANSACTIONS + u64::from(basis(entries));
    is_builtin(n)
        || (TRANSACTIONS <= n && n <= last_transaction)
        || (USER_ENTITIES < n && user_number(n) <= users_issued(entries))
}
