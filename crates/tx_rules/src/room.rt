//! Whether there is room: in an entry, and for one more.
ghost use Rattle.std.specs.Prelude.{◌≡◌, ◌≤◌, ◌<◌, ◌+◌, ◌^◌, nat_lt};
ghost use Rattle.fb_model.specs.History.{users_in as model_users_in};
ghost use Rattle.tx_model.specs.Size as size;
ghost use Rattle.tx_rules.specs.Rules.{is_too_large as model_is_too_large, is_full as model_is_full};

use fb_facts::Facts;
use fb_numbers::{
    GREATEST_INSTANT, GREATEST_T, LARGEST_ENTRY, MOST_DATOMS, MOST_USERS, user_number,
};
use fb_values::{Datom, Value};

/// The bytes of an entry that records nothing.
const EMPTY_ENTRY: u128 = 17;

/// The bytes of a datom without its value.
const BARE_DATOM: u128 = 17;

/// The bytes of the datom that records the instant of a transaction.
const INSTANT_DATOM: u128 = 26;

/// Whether an entry with these changes and its instant has too many datoms, or too many bytes.
pub fn is_too_large(changes: &[Datom]) -> bool
    ensures { result ≡ model_is_too_large changes.now }
{
    changes.len() >= MOST_DATOMS || is_larger(changes, LARGEST_ENTRY as u128 - INSTANT_DATOM)
}

/// Whether the bytes of an entry are more than these.
fn is_larger(datoms: &[Datom], bytes: u128) -> bool
    requires least { 17 ≤ bytes }
    requires most { bytes < 2 ^ 64 }
    ensures { result ≡ nat_lt bytes (size.entry_size datoms.now) }
{
    let mut size = EMPTY_ENTRY;
    for d in datoms {
        size += BARE_DATOM + value_size(&d.v);
        if bytes < size {
            return true;
        }
    }
    false
}

fn value_size(v: &Value) -> u128
    ensures value { result ≡ size.value_size v.now }
    ensures bound { result ≤ 2 ^ 65 }
{
    match v {
        Value::Keyword(text) => 5 + text.len() as u128,
        Value::Str(text) => 5 + text.len() as u128,
        Value::Bool(_) => 2,
        Value::Long(_) => 9,
        Value::Ref(_) => 9,
        Value::Instant(_) => 9,
        Value::Uuid(_) => 17,
        Value::Symbol(text) => 5 + text.len() as u128,
        Value::Uri(text) => 5 + text.len() as u128,
    }
}

/// Whether t, the user entities or the instant would pass their greatest value.
pub fn is_full<F: Facts>(facts: &F, changes: &[Datom]) -> bool
    ensures { result ≡ model_is_full (F.history facts.now) changes.now }
{
    facts.basis() >= GREATEST_T
        || facts.issued().max(users_in(changes)) > MOST_USERS
        || facts.last_instant() >= GREATEST_INSTANT
}

/// The greatest n of a user entity that is the entity of a datom, or 0.
fn users_in(datoms: &[Datom]) -> u64
    ensures { result ≡ model_users_in datoms.now }
{
    let mut greatest = 0;
    for d in datoms {
        greatest = user_number(d.e).max(greatest);
    }
    greatest
}
