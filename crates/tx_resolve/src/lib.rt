//! The step of a transaction that finds its entities: from what forms ask of named entities to what they ask of entities by
//! their numbers. Names are looked up in the database, tempids get the holders of the identity values that they are given or
//! else new entities, and the rules on names are tested.
#![tactic(auto)]

mod acts;
mod drafts;
mod holders;
mod meeting;
mod names;
mod numbers;
mod resolving;
mod rules;
mod settle;
mod whom;

pub use resolving::resolve;
