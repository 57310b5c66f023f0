//! Filters that a caller stores: anything that answers of every datom whether it selects it.
#![tactic(auto)]

mod filter_table;
mod filters;
mod finding;
mod kept;
mod picks;
mod ranges;
mod selector;
mod table;

pub use filter_table::FilterTable;
pub use filters::{Filter, NamedFilter};
pub use kept::{BoxedTest, Kept};
pub use picks::Picks;
pub use selector::{BoxedSelector, Selector};
pub use table::{PredTable, shipped};
