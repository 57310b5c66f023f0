//! Places in a round at which whoever runs the worker may hold it, as tests do.

/// A place in a round of the worker.
#[derive(Clone, Copy, Debug, PartialEq, Eq)]
pub enum Point {
    /// The round has begun, and a merge is due.
    BeforeMerge,
    /// The trees are made, and are not kept yet.
    AfterMerge,
    /// The trees are kept, and are not adopted yet.
    BeforeAdopt,
}

/// What the worker passes at each point of each round.
pub trait Gate {
    /// Returns when the worker may go on.
    fn pass(&self, point: Point);
}

/// The gate that holds nobody.
#[derive(Clone, Copy)]
pub struct OpenGate;

impl Gate for OpenGate {
    fn pass(&self, _point: Point) {}
}
