//! Where trees go before they are adopted: a joint between the worker, which makes them, and whatever keeps them.
#![tactic(auto)]

mod bases;
mod stores;

pub use bases::Base;
pub use stores::{KeepFault, RootStore};
