//! The numbers of entities.
ghost use Rattle.std.specs.Prelude.{◌≡◌, ℕ, ◌+◌, ◌≤◌, ◌<◌, ◌^◌, IfSome, Some};
ghost use Rattle.fb_numbers.specs.Numbers.{transaction_of, user_entity as model_user_entity, user_number as model_user_number, is_builtin as model_is_builtin, greatest_t};

use crate::limits::GREATEST_T;

// ---- the attributes that describe attributes

pub const IDENT: u64 = 1;

pub const VALUE_TYPE: u64 = 2;

pub const CARDINALITY: u64 = 3;

pub const UNIQUE: u64 = 4;

pub const IS_COMPONENT: u64 = 5;

pub const INDEX: u64 = 6;

// ---- the attributes of every entity, and of transactions

pub const DOC: u64 = 7;

pub const TX_INSTANT: u64 = 8;

// ---- the types of values

pub const TYPE_KEYWORD: u64 = 10;

pub const TYPE_STRING: u64 = 11;

pub const TYPE_BOOLEAN: u64 = 12;

pub const TYPE_LONG: u64 = 13;

pub const TYPE_REF: u64 = 14;

pub const TYPE_INSTANT: u64 = 15;

pub const TYPE_UUID: u64 = 16;

pub const TYPE_SYMBOL: u64 = 17;

pub const TYPE_URI: u64 = 18;

// ---- how many values an entity has of an attribute, and how many entities a value has

pub const CARDINALITY_ONE: u64 = 20;

pub const CARDINALITY_MANY: u64 = 21;

pub const UNIQUE_IDENTITY: u64 = 30;

pub const UNIQUE_VALUE: u64 = 31;

// ---- where the transactions' and the users' entities begin

/// The entity of transaction 0. That of transaction t is greater by t.
pub const TRANSACTIONS: u64 = 3 << 42;

/// The number before the first user entity. The n-th is greater by n.
pub const USER_ENTITIES: u64 = 4 << 42;

/// The entity of transaction t.
pub fn transaction_entity(t: u32) -> u64
    ensures { result ≡ transaction_of t }
{
    TRANSACTIONS + u64::from(t)
}

/// The t of which the entity is the transaction.
pub fn t_of_transaction(e: u64) -> Option<u32>
    ensures found { IfSome result (λ t. e ≡ transaction_of t) }
    ensures bound { IfSome result (λ t. t ≤ greatest_t) }
    ensures every { (t : ℕ) → t ≤ greatest_t → e ≡ transaction_of t → result ≡ Some t }
{
    let t = e.checked_sub(TRANSACTIONS)?;
    if t <= u64::from(GREATEST_T) {
        Some(t as u32)
    } else {
        None
    }
}

/// The n-th user entity, n from 1 on.
pub fn user_entity(n: u64) -> u64
    requires { model_user_entity n < 2 ^ 64 }
    ensures { result ≡ model_user_entity n }
{
    USER_ENTITIES + n
}

/// The n of a user entity, and 0 for every other number.
pub fn user_number(e: u64) -> u64
    ensures { result ≡ model_user_number e }
{
    e.saturating_sub(USER_ENTITIES)
}

/// Whether the entity is one of the first entry.
pub fn is_builtin(e: u64) -> bool
    ensures { result ≡ model_is_builtin e }
{
    matches!(
        e,
        IDENT..=TX_INSTANT
            | TYPE_KEYWORD..=TYPE_URI
            | CARDINALITY_ONE..=CARDINALITY_MANY
            | UNIQUE_IDENTITY..=UNIQUE_VALUE
    )
}
