//! What a transaction asks, triple by triple.
use fb_values::Value;

/// A form asks the triple, in one of the ways in which a triple can be asked.
#[derive(Drop)]
pub struct Asking {
    pub e: u64,
    pub a: u64,
    pub v: Value,
    /// The form's place.
    pub place: usize,
}

/// A triple, with the first form that asks it in each way, and whether it holds before the transaction.
#[derive(Drop)]
pub struct Triple {
    pub e: u64,
    pub a: u64,
    pub v: Value,
    /// To be added.
    pub added: Option<usize>,
    /// To be retracted, as a triple.
    pub retracted: Option<usize>,
    /// To be retracted, since a retraction of every value or of an entity finds it.
    pub swept: Option<usize>,
    /// To be retracted, since an addition gives its entity another value.
    pub replaced: Option<usize>,
    pub holds: bool,
}
