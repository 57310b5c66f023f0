//! What a code is made of.

use crate::spelling::Spelling;

/// A form that holds no other, or the front of a collection with the number of its parts.
#[derive(PartialEq, Eq, PartialOrd, Ord, Drop)]
pub enum CodeToken {
    Nil,
    Bool(bool),
    Int(i64),
    Str(Spelling),
    Sym(Spelling),
    Key(Spelling),
    Inst(i64),
    Uuid(u128),
    /// Of a list and of a vector.
    Sequence(usize),
    Map(usize),
    Set(usize),
}
