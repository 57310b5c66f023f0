//! Speculative transactions, as definitions in `specs/`. The functions here are laws about them,
//! and examples: each has an empty body, and its contract is the law. How two clocks matter in a
//! transaction is a law of `tx_model`.
#![tactic(auto)]

mod examples;
mod laws;

pub use examples::{refused_chains, tried_texts, unfiltered_values};
pub use laws::{
    a_chain_goes_on, a_chain_keeps_its_history, a_real_transaction_records_the_same,
    instants_of_a_chain_follow_one_another,
};
