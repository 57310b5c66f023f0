//! Composite tuples of a database value: what forms give for them, the rows of a composite, which lend their values, the part of
//! them that is in a range, and an index of them that is kept from entry to entry.
#![tactic(auto)]

mod faults;
mod given;
mod index;
mod kept;
mod order;
mod ranges;
mod reach;
mod renewed;
mod rows;

pub use faults::TupleFault;
pub use given::{bad_place, bound, composite};
pub use index::TupleIndex;
pub use kept::Row;
pub use order::within;
pub use ranges::{lent, ranged};
pub use rows::LentRow;
