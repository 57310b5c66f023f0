//! Scans of a database value, range by range, and of its log.
#![tactic(auto)]

mod attributes;
mod ends;
mod firsts;
mod held;
pub mod lent;
mod scans;
mod sight;
mod txs;
mod walk;

pub use attributes::next_attribute;
pub use ends::End;
pub use firsts::{first_present, first_row};
pub use lent::Bounds;
pub use scans::{datoms, first, index_range, seek};
pub use txs::{Txs, tx_range};
pub use walk::Scan;
