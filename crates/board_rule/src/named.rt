//! What the board has to know of the values that it keeps: the history that each stands for.
ghost use Rattle.std.specs.Prelude.{◌≡◌, ℕ, ◌+◌, List, length, IfOk};
ghost use Rattle.board_rule.specs.declared.view.Marks.{Marks};

use fb_memory::Memory;

/// A value that stands for a history: the one in slot 0 of the board, or a snapshot in a mail slot.
pub trait Named: Drop {
    type Entry;

    type Origin;

    // The history, a list of entries. An entry's t is its place in the list.
    ghost entries: { Self → List Self.Entry };
    // Of each entry that was added since the board was made, the number of the seat that added it, in order.
    ghost authors: { Self → List ℕ };

    ghost marks: { Self → Marks };
    // The entry may be added to a history that is this list so far.
    ghost follows: { List Self.Entry → Self.Entry → Type 0 };
    // What else holds of a value in slot 0: what it keeps outside memory stands for its history too.
    ghost sound: { Self → Type 0 };
    // What no turn changes: the value in slot 0 has one origin from the opening of the board to its close.
    ghost origin: { Self → Self.Origin };

    /// The t of the last entry.
    fn basis(&self) -> u32
        ensures { result + 1 ≡ length (entries self.now) };
}

/// A snapshot that can be mailed.
pub trait Mailed: Named {
    /// A second snapshot of the same history.
    fn share(&self) -> Result<Self, Memory>
        ensures { IfOk result (λ s. Self.entries s ≡ Self.entries self.now) };
}
