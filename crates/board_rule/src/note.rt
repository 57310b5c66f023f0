//! What a look notes beside the ticket served.

/// What a look notes.
pub enum Note<'a, H> {
    /// Nothing, but that the turn has come, where it has.
    Nothing,
    /// By the holder of the turn: the marks of the value that it took out of slot 0, as the next marks.
    Marks(&'a H),
    /// By the reader of a mail slot, who holds its word: the history of the snapshot there.
    Found,
}
