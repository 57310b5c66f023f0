//! What the asks of a transaction come to, over plain lists and slowly: the entities of its tempids, its changes, and the rules
//! that it breaks. Nothing of the product depends on it.
//!
//! It is written plainly, to be read beside `Tempids`, `Changes`, `Transaction`, `NameRules` and `ChangeRules` of `tx_model`. It
//! promises nothing but safety, so that a comparison says something that the proofs do not.
#![tactic(auto)]

mod attributes;
mod change_rules;
mod changes;
mod components;
mod db;
mod lookups;
mod name_rules;
mod rules;
mod tempids;
mod transaction;

pub use db::Db;
pub use rules::least_refusal;
pub use tempids::{Assigned, named_tempids};
pub use transaction::{Transaction, recorded, transaction_at};
