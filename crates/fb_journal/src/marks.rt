//! What a journal begins with.
ghost use Rattle.std.specs.Prelude.{◌≡◌};
ghost use Rattle.disk_model.specs.Journal.{new_journal};
ghost use Rattle.fb_journal.specs.Marks.{mark_bytes};

/// How long a mark is. The gate of the first record follows it.
pub(crate) const MARK: usize = 15;

/// What the file begins with.
#[derive(Clone, Copy, Debug, PartialEq, Eq)]
pub enum Mark {
    Log,
    Segments,
}

impl Mark {
    pub(crate) fn bytes(self) -> &'static [u8]
        ensures { result.now ≡ mark_bytes self }
    {
        match self {
            Mark::Log => b"FACTBASE LOG 1\n",
            Mark::Segments => b"FACTBASE SEG 1\n",
        }
    }

    /// A journal without a record.
    pub(crate) fn new_journal(self) -> &'static [u8]
        ensures { result.now ≡ new_journal (mark_bytes self) }
    {
        match self {
            Mark::Log => b"FACTBASE LOG 1\n\0",
            Mark::Segments => b"FACTBASE SEG 1\n\0",
        }
    }
}
