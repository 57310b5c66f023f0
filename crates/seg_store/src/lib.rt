//! The file of segments: a store of roots that were kept, which a later opening of the database may find again.
#![tactic(auto)]

mod counts;
mod found;
mod laws;
mod loads;
mod newest;
mod room;
mod roots;
mod stores;

pub use laws::{trees_made_of_fitting_ones_fit, trees_of_a_lawful_history_are_storable};
pub use loads::{KeptTrees, LoadFault, LoadStop, Loaded};
pub use newest::{Newest, NewestRoot};
pub use stores::{KeepFault, SegStore};
