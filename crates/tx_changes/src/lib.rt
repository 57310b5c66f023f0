//! What a transaction asks, triple by triple, and the changes that it records. The forms of a transaction ask for triples in four
//! ways: they add them, retract them, find them by retractions of every value or of entities, and replace them by additions.
//! Each triple comes here once, with the first form that asks it in each way.
#![tactic(auto)]

mod collect;
mod folding;
mod joining;
mod learnt;
mod noted;
mod recording;

pub use joining::triples;
pub use recording::changes;
