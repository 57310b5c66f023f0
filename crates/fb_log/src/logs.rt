//! The log as the connection sees it.
ghost use Rattle.std.specs.Prelude.{List, [], ◌∷◌, ◌++◌, IfOk, OnOk, OnErr};
ghost use Rattle.fb_values.specs.declared.facts.Entry.{Entry};
ghost use Rattle.fb_model.specs.Lawful.{IsLawful, IsLawfulAfter};

use fb_memory::Memory;
use fb_values::Entry;
use io_faults::Failed;
use std::alloc::Global;

/// A log that entries are added to, one after another.
pub trait Log: Drop {
    /// An entry as it will be in the log.
    type Record: Drop;

    /// The record is of this entry.
    ghost is_of: { Self.Record → Entry → Type 0 };

    /// By what the log was when the database was opened, and what it is now: it has all that makes this history, and
    /// nothing has failed since.
    ghost keeps: { Self → List Entry → Self → Type 0 };

    /// It kept this history until it failed at this entry, which it may have or not.
    ghost broke: { Self → List Entry → Entry → Self → Type 0 };

    /// Makes the record of an entry that may follow a lawful history. Adding it takes no more memory.
    fn record(alloc: Global, entry: &Entry) -> Result<Self::Record, Memory>
        requires { (h : List Entry) × IsLawful h × IsLawfulAfter h entry.now }
        ensures { IfOk result (λ made. is_of made entry.now) };

    /// Adds an entry by its record. It takes no memory. After a failure nothing more is to be added.
    fn add(&mut self, made: &Self::Record) -> Result<(), Failed>
        ensures kept { OnOk result
            ((begun : Self) (h : List Entry) (entry : Entry) → is_of made.now entry
            → IsLawfulAfter h entry → keeps begun h self.old
            → keeps begun (h ++ entry ∷ []) self.new) }
        ensures broke { OnErr result
            ((begun : Self) (h : List Entry) (entry : Entry) → is_of made.now entry
            → IsLawfulAfter h entry → keeps begun h self.old → broke begun h entry self.new) };

    /// The same, and a record that is likely to be the next one added is made ready with it. If it is, adding it is cheaper;
    /// whatever it is, it is no part of the history before it is added. It takes no memory.
    fn add_beside(&mut self, made: &Self::Record, next: Self::Record) -> Result<(), Failed>
        ensures kept { OnOk result
            ((begun : Self) (h : List Entry) (entry : Entry) → is_of made.now entry
            → IsLawfulAfter h entry → keeps begun h self.old
            → keeps begun (h ++ entry ∷ []) self.new) }
        ensures broke { OnErr result
            ((begun : Self) (h : List Entry) (entry : Entry) → is_of made.now entry
            → IsLawfulAfter h entry → keeps begun h self.old → broke begun h entry self.new) };
}
