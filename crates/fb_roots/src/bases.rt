//! Trees of a history's first entries.
use seg_tree::Roots;

/// Trees of the entries up to `c`.
#[derive(Drop)]
pub struct Base {
    pub roots: Roots,
    pub c: u32,
}
