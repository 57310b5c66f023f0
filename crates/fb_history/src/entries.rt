//! The entries of a history.
ghost use Rattle.std.specs.Prelude.{◌≡◌, ◌<◌, ◌^◌, ◌-◌, [], ◌∷◌, ◌++◌, length, slice_get, IfOk, Some};
ghost use Rattle.fb_model.specs.FirstEntry.{first_entry};

use crate::first::first_entry;
use fb_chunks::{ChunkList, Share, Shared};
use fb_memory::Memory;
use fb_values::Entry;
use std::alloc::Global;
use std::marker::Model;

/// The entries t = 0, 1, 2 and so on of a history.
#[derive(Drop)]
pub struct EntryList {
    alloc: Global,
    entries: ChunkList<Shared<Entry>>,
}

impl Model for EntryList {
    ghost use Rattle.std.specs.Prelude.{List, length, ◌<◌, ◌^◌};
    ghost use Rattle.fb_values.specs.declared.facts.Entry.{Entry};

    ghost Value = { List Entry };

    ghost view = { λ l. l.entries };

    ghost invariant = { λ l. length l.entries < 2 ^ 32 };
}

impl EntryList {
    /// The history that has only the built-in schema.
    pub fn first(alloc: Global) -> Result<EntryList, Memory>
        ensures { IfOk result (λ l. l ≡ first_entry ∷ []) }
    {
        let entry = Shared::new(alloc, first_entry(alloc)?)?;
        let entries = ChunkList::new(alloc)?.with(entry)?;
        Ok(EntryList { alloc, entries })
    }

    pub fn len(&self) -> u32
        ensures { result ≡ length self.now }
    {
        self.entries.len() as u32
    }

    pub fn at(&self, t: u32) -> &Entry
        requires { t < length self.now }
        ensures { slice_get self.now t ≡ Some result.now }
    {
        self.entries.at(t as usize).get()
    }

    /// The history with one more entry at its end.
    pub fn with(&self, entry: Entry) -> Result<EntryList, Memory>
        requires { length self.now < 2 ^ 32 - 1 }
        ensures { IfOk result (λ l. l ≡ self.now ++ entry ∷ []) }
    {
        let entry = Shared::new(self.alloc, entry)?;
        let entries = self.entries.with(entry)?;
        Ok(EntryList {
            alloc: self.alloc,
            entries,
        })
    }

    /// The same history, at the cost of a few reference counts.
    pub fn share(&self) -> Result<EntryList, Memory>
        ensures { IfOk result (λ l. l ≡ self.now) }
    {
        Ok(EntryList {
            alloc: self.alloc,
            entries: self.entries.share()?,
        })
    }
}
