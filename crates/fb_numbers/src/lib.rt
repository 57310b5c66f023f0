//! The numbers that have names: the built-in entities, where the transactions' and the users' entities begin, and the
//! limits. Code takes them from here, and each is the number that the definitions name.
#![tactic(auto)]

mod entities;
mod laws;
mod limits;

pub use entities::{
    CARDINALITY, CARDINALITY_MANY, CARDINALITY_ONE, DOC, IDENT, INDEX, IS_COMPONENT, TRANSACTIONS,
    TX_INSTANT, TYPE_BOOLEAN, TYPE_INSTANT, TYPE_KEYWORD, TYPE_LONG, TYPE_REF, TYPE_STRING,
    TYPE_SYMBOL, TYPE_URI, TYPE_UUID, UNIQUE, UNIQUE_IDENTITY, UNIQUE_VALUE, USER_ENTITIES,
    VALUE_TYPE, is_builtin, t_of_transaction, transaction_entity, user_entity, user_number,
};
pub use laws::{
    instants_are_those_of_the_years_1_to_9999, limits_are_the_promised_ones,
    partitions_are_datomics, there_and_back,
};
pub use limits::{
    GREATEST_INSTANT, GREATEST_T, LARGEST_ENTRY, LEAST_INSTANT, LONGEST_NAME, LONGEST_STRING,
    MOST_DATOMS, MOST_USERS, is_instant,
};
