//! The log on a disk.
ghost use Rattle.std.specs.Prelude.{◌≡◌, ◌<◌, ◌+◌, ◌^◌, ◌++◌, [], ◌∷◌, ℕ, List, length, OnOk, OnErr};
ghost use Rattle.fb_values.specs.declared.facts.Entry.{Entry};
ghost use Rattle.fb_model.specs.Lawful.{IsLawfulAfter};
ghost use Rattle.disk_model.specs.Journal.{log_mark, opened};
ghost use Rattle.log_model.specs.Log.{LogStands};
ghost use Rattle.log_model.specs.Storable.{IsPayloadOf};
ghost use Rattle.fb_journal.specs.Journals.{disk_of, mark_of, Keeps};
ghost use Rattle.disk_log.specs.Disks.{HasKept, HasBroken};

use fb_codec::entry_bytes;
use fb_disk::Disk;
use fb_journal::{Framed, Journal, frame};
use fb_log::Log;
use fb_memory::Memory;
use fb_values::Entry;
use io_faults::Failed;
use log_model::entries_of_lawful_histories_are_storable;
use std::alloc::Global;

/// A log on a disk. Its journal has a record for each entry but the first, which every history begins with.
#[derive(Drop)]
pub struct DiskLog<D: Disk> {
    journal: Journal<D>,
}

impl<D: Disk> DiskLog<D> {
    ghost use Rattle.disk_log.specs.Logs.{disk_in, count_in, KeepsHistory, BrokeAt};

    /// The log that goes on after the records of a journal.
    pub fn of(journal: Journal<D>) -> DiskLog<D>
        requires { mark_of journal ≡ log_mark }
        ensures disk { disk_in result ≡ disk_of journal }

        // It keeps the history that the records stand for, and each of them has its place in 64 bits.
        ensures keeps { (records : List (List ℕ)) (h : List Entry)
            → Keeps D.bytes D.images records journal → LogStands records h
            → KeepsHistory D.bytes D.images D.faults D.moment D.images_since result h result }
        ensures count { (records : List (List ℕ)) → Keeps D.bytes D.images records journal
            → count_in result ≡ length records }
        ensures room { (records : List (List ℕ)) → Keeps D.bytes D.images records journal
            → length log_mark + length (opened records) + 1 < 2 ^ 64 }
    {
        DiskLog { journal }
    }

    /// The disk, with all that was done to it.
    pub fn into_disk(self) -> D
        ensures disk { result ≡ disk_in self }

        // What became of it since the log was another one, as it was opened.
        ensures kept { (begun : _) (h : List Entry)
            → KeepsHistory D.bytes D.images D.faults D.moment D.images_since begun h self
            → HasKept D.bytes D.images D.faults D.moment D.images_since (count_in begun)
            (disk_in begun) h result }
        ensures broke { (begun : _) (h : List Entry) (entry : Entry)
            → BrokeAt D.bytes D.images D.faults D.moment D.images_since begun h entry self
            → HasBroken D.bytes D.images D.faults D.moment D.images_since (count_in begun)
            (disk_in begun) h entry result }
    {
        self.journal.give_back()
    }

    /// Adds a record to the journal, and lays the one that is likely to come next behind it, if there is one.
    fn append(&mut self, made: &Framed, next: Option<Framed>) -> Result<(), Failed>
        ensures kept { OnOk result ((begun : _) (h : List Entry) (entry : Entry)
            → IsPayloadOf entry made.now → IsLawfulAfter h entry
            → KeepsHistory D.bytes D.images D.faults D.moment D.images_since begun h self.old
            → KeepsHistory D.bytes D.images D.faults D.moment D.images_since begun
            (h ++ entry ∷ []) self.new) }
        ensures broke { OnErr result ((begun : _) (h : List Entry) (entry : Entry)
            → IsPayloadOf entry made.now → IsLawfulAfter h entry
            → KeepsHistory D.bytes D.images D.faults D.moment D.images_since begun h self.old
            → BrokeAt D.bytes D.images D.faults D.moment D.images_since begun h entry self.new) }
    {
        match self.journal.append_beside(made, next) {
            Ok(()) => Ok(()),
            Err(_) => Err(Failed),
        }
    }
}

impl<D: Disk> Log for DiskLog<D> {
    ghost use Rattle.disk_log.specs.Logs.{KeepsHistory, BrokeAt};

    type Record = Framed;

    ghost is_of = { λ made entry. IsPayloadOf entry made };

    ghost keeps = { KeepsHistory D.bytes D.images D.faults D.moment D.images_since };

    ghost broke = { BrokeAt D.bytes D.images D.faults D.moment D.images_since };

    fn record(alloc: Global, entry: &Entry) -> Result<Framed, Memory> {
        entries_of_lawful_histories_are_storable();
        let payload = entry_bytes(alloc, entry)?;
        frame(alloc, &payload)
    }

    fn add(&mut self, made: &Framed) -> Result<(), Failed> {
        self.append(made, None)
    }

    fn add_beside(&mut self, made: &Framed, next: Framed) -> Result<(), Failed> {
        self.append(made, Some(next))
    }
}
