//! What all sessions of a database share: its latest value, and who wrote what since the opening. A transaction is decided
//! against it, the draft of one is accepted, and newer trees are adopted. It has no device and no thread.
#![tactic(auto)]

mod accepting;
mod adopting;
mod laws;
mod shared;
mod supposing;

pub use accepting::Draft;
pub use adopting::Rebased;
pub use laws::{
    a_beginning_stays_one, accepting_keeps_histories_lawful, accepting_makes_a_commit,
    adopting_changes_no_view, adopting_ends_a_merge, opening_makes_a_world,
};
pub use shared::{Core, CoreParts};
pub use supposing::supposed;
pub use tx_step::{Guard, NoGuard, TxStop};
