//! What is left of a session.
ghost use Rattle.std.specs.Prelude.{◌≡◌, [], length, ◌==◌};

use edn_core::EdnFault;
use std::alloc::Global;
use std::marker::Model;

/// A list of transactions' t.
#[derive(Drop)]
pub struct Places {
    items: Vec<u32>,
}

impl Model for Places {
    ghost use Rattle.std.specs.Prelude.{ℕ, List};

    ghost Value = { List ℕ };

    ghost view = { λ p. p.items.items };
}

impl Places {
    pub fn of(items: Vec<u32>) -> Places
        ensures { result ≡ items.items }
    {
        Places { items }
    }

    pub fn as_slice(&self) -> &[u32]
        ensures { result.now ≡ self.now }
    {
        self.items.as_slice()
    }

    pub fn len(&self) -> usize
        ensures { result ≡ length self.now }
    {
        self.items.len()
    }

    pub fn is_empty(&self) -> bool
        ensures { result ≡ (length self.now == 0) }
    {
        self.items.is_empty()
    }
}

/// How a session ended.
#[derive(Drop)]
pub enum SessionEnd {
    /// Each form of the script was answered.
    Done,
    /// The script has a fault after the forms that were answered.
    Script(EdnFault),
    /// The script has more bytes than are read.
    TooLong,
    /// The script has more than 1,000,000 commands.
    TooMany,
    ReadFault,
    WriteFault,
    /// Memory was refused.
    Memory,
}

/// What a session did.
#[derive(Drop)]
pub struct Served {
    pub end: SessionEnd,
    /// For each line that was written whole, the t of the last entry that it rests on.
    pub places: Places,
    /// The t of each transaction that the session committed.
    pub commits: Places,
}

impl Served {
    /// A session that ended before its first form was answered.
    pub(crate) fn nothing(alloc: Global, end: SessionEnd) -> Served
        ensures end { result.end ≡ end }
        ensures places { result.places ≡ [] }
        ensures commits { result.commits ≡ [] }
    {
        Served {
            end,
            places: Places::of(Vec::new(alloc)),
            commits: Places::of(Vec::new(alloc)),
        }
    }
}
