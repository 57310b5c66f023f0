//! A store of roots on a disk.
ghost use Rattle.std.specs.Prelude.{◌≡◌, ◌⊎◌, ◌≤◌, ◌^◌, ◌++◌, [], ◌∷◌, ℕ, List, take, None, Some, IfOk, OnOk, OnErr, IsErrOf, IsTrue, MatchResult};
ghost use Rattle.io_faults.specs.Faults.{Rose};
ghost use Rattle.disk_model.specs.Disk.{IfKnown, LeavesOnly};
ghost use Rattle.disk_model.specs.Journal.{segments_mark};
ghost use Rattle.log_model.specs.Nodes.{ids_in};
ghost use Rattle.log_model.specs.Kept.{kept_roots, nodes_of, are_good};
ghost use Rattle.fb_journal.specs.Journals.{mark_of, Keeps, StaysKnown, IsBeforeOrAfter};
ghost use Rattle.seg_tree.specs.Ids.{next_above};
ghost use Rattle.seg_codec.specs.Trees.{Fits, AreIdsOf, ids_lacking};
ghost use Rattle.seg_store.specs.Trees.{root_of, HaveStorableDatoms, KeepsRoot, IsNextRecord};

use crate::counts::check_counts;
use fb_disk::Disk;
use fb_journal::{Framed, Journal, JournalFault, frame_in};
use fb_memory::Memory;
use seg_codec::{Ids, record_bytes};
use seg_tree::Roots;
use std::alloc::Global;
use thiserror::Error;

/// Why a store did not do what it was asked.
#[derive(Clone, Copy, Debug, PartialEq, Eq, Error)]
pub enum KeepFault {
    /// A call of the disk failed in this call.
    #[error("a call of the disk failed")]
    Disk,
    /// An earlier call failed, at this record, counted from 0. What the file holds is known once it is loaded again.
    #[error("stopped at record {at}")]
    Stopped { at: u64 },
    #[error("out of memory")]
    Memory,
}

/// A file of segments, each record of which keeps a root. After a fault of the disk it stops.
#[derive(Drop)]
pub struct SegStore<D: Disk> {
    pub(crate) journal: Journal<D>,
    /// Those of the nodes that the file has.
    pub(crate) ids: Ids,
    ghost marked: { mark_of journal ≡ segments_mark },
}

impl From<Memory> for KeepFault {
    ghost use Rattle.std.specs.Prelude.{◌≡◌};
    ghost use Rattle.seg_store.specs.declared.stores.KeepFault.{KeepFault};

    ghost from_gives = { λ _ fault. fault ≡ KeepFault.Memory };

    fn from(_: Memory) -> KeepFault {
        KeepFault::Memory
    }
}

impl From<JournalFault> for KeepFault {
    ghost use Rattle.std.specs.Prelude.{◌≡◌};
    ghost use Rattle.seg_store.specs.Faults.{keep_fault_of};

    ghost from_gives = { λ journal fault. fault ≡ keep_fault_of journal };

    fn from(fault: JournalFault) -> KeepFault {
        match fault {
            JournalFault::Disk => KeepFault::Disk,
            JournalFault::Stopped { at } => KeepFault::Stopped { at },
        }
    }
}

impl<D: Disk> SegStore<D> {
    ghost use Rattle.seg_store.specs.Stores.{disk_in, stop_in, count_in, next_in, StoreKeeps, KeepsOneMore};
    ghost use Rattle.seg_store.specs.declared.stores.KeepFault.{KeepFault};

    /// Keeps the trees of the entries up to c: a record is added that has each of their nodes that the file has not.
    pub fn keep(&mut self, alloc: Global, roots: &Roots, c: u32) -> Result<(), KeepFault>
        requires { HaveStorableDatoms roots.now }

        // At Ok the root is on the disk, if each node of the trees whose id the file has is that node: from then on each
        // crash leaves a file that keeps the root.
        ensures kept { OnOk result ((records : List (List ℕ))
            → StoreKeeps D.bytes D.images records self.old → Fits (nodes_of records) roots.now
            → (payload : List ℕ)
            × StoreKeeps D.bytes D.images (records ++ payload ∷ []) self.new
            × KeepsRoot records payload roots.now c) }

        // A crash at any moment of the call leaves a file that keeps the roots from before it, or this one besides.
        ensures any_moment { (records : List (List ℕ))
            → StoreKeeps D.bytes D.images records self.old → Fits (nodes_of records) roots.now
            → IfKnown (D.bytes (disk_in self.old)) (λ _. LeavesOnly D.moment D.images_since
            (disk_in self.old) (disk_in self.new)
            (KeepsOneMore (kept_roots records) (root_of roots.now c))) }
        ensures known { OnOk result
            (StaysKnown (D.bytes (disk_in self.old)) (D.bytes (disk_in self.new))) }

        // The ids are those that were there and, at Ok, those of all nodes of the trees.
        ensures ids { MatchResult result
            (λ _. self.new.ids ≡ self.old.ids ++ ids_lacking self.old.ids roots.now)
            (λ _. self.new.ids ≡ self.old.ids) }

        // It fails only where the disk did, and then stops at this record.
        ensures counted { OnOk result (D.faults (disk_in self.new) ≡ D.faults (disk_in self.old)) }
        ensures cause { IsErrOf result KeepFault.Disk
            → Rose (D.faults (disk_in self.old)) (D.faults (disk_in self.new)) }
        ensures stops { IsErrOf result KeepFault.Disk
            → stop_in self.new ≡ Some (count_in self.old) }

        // A stopped store says so, and at which record, if memory does not run out. It does nothing then, nor where memory
        // runs out.
        ensures stopped { (at : ℕ) → stop_in self.old ≡ Some at
            → IsErrOf result (KeepFault.Stopped at) ⊎ IsErrOf result KeepFault.Memory }
        ensures going { stop_in self.old ≡ None → (at : ℕ)
            → IsErrOf result (KeepFault.Stopped at) → ⊥ }
        ensures unchanged { (at : ℕ) → IsErrOf result (KeepFault.Stopped at)
            → self.new ≡ self.old }
        ensures memory { IsErrOf result KeepFault.Memory → self.new ≡ self.old }
    {
        let known = self.ids.len();
        let framed = prepared(alloc, roots, c, &mut self.ids)?;
        self.add(&framed, known)
    }

    /// Adds a record. Where it is not added, the first so many ids alone stay.
    pub(crate) fn add(&mut self, framed: &Framed, known: usize) -> Result<(), KeepFault>
        ensures added { OnOk result ((records : List (List ℕ))
            → Keeps D.bytes D.images records self.old.journal
            → Keeps D.bytes D.images (records ++ framed.now ∷ []) self.new.journal) }
        ensures ids { MatchResult result (λ _. self.new.ids ≡ self.old.ids)
            (λ _. self.new.ids ≡ take known self.old.ids) }
        ensures any_moment { (records : List (List ℕ))
            → Keeps D.bytes D.images records self.old.journal
            → IfKnown (D.bytes (disk_in self.old)) (λ _. LeavesOnly D.moment D.images_since
            (disk_in self.old) (disk_in self.new)
            (IsBeforeOrAfter (mark_of self.old.journal) records framed.now)) }
        ensures known { OnOk result
            (StaysKnown (D.bytes (disk_in self.old)) (D.bytes (disk_in self.new))) }
        ensures counted { OnOk result (D.faults (disk_in self.new) ≡ D.faults (disk_in self.old)) }
        ensures cause { IsErrOf result KeepFault.Disk
            → Rose (D.faults (disk_in self.old)) (D.faults (disk_in self.new)) }
        ensures stops { IsErrOf result KeepFault.Disk
            → stop_in self.new ≡ Some (count_in self.old) }
        ensures stopped { (at : ℕ) → stop_in self.old ≡ Some at
            → result ≡ Err (KeepFault.Stopped at) }
        ensures going { stop_in self.old ≡ None → (at : ℕ)
            → IsErrOf result (KeepFault.Stopped at) → ⊥ }
        ensures unchanged { (at : ℕ) → IsErrOf result (KeepFault.Stopped at)
            → self.new ≡ record self.old { ids = take known self.old.ids } }
        ensures memory { IsErrOf result KeepFault.Memory → ⊥ }
    {
        match self.journal.append(framed) {
            Ok(()) => Ok(()),
            Err(fault) => {
                self.ids.cut(known);
                Err(fault.into())
            }
        }
    }

    /// Starts the file anew, so that it has no root and no id. A crash before this answers Ok may leave any bytes. It takes no
    /// memory.
    pub fn reset(&mut self) -> Result<(), KeepFault>
        ensures emptied { OnOk result (StoreKeeps D.bytes D.images [] self.new) }
        ensures known { OnOk result
            (StaysKnown (D.bytes (disk_in self.old)) (D.bytes (disk_in self.new))) }

        // It fails only where the disk did, and then stops at record 0.
        ensures counted { OnOk result (D.faults (disk_in self.new) ≡ D.faults (disk_in self.old)) }
        ensures cause { IsErrOf result KeepFault.Disk
            → Rose (D.faults (disk_in self.old)) (D.faults (disk_in self.new)) }
        ensures stops { IsErrOf result KeepFault.Disk → stop_in self.new ≡ Some 0 }

        // A stopped store says so, and at which record, and does nothing.
        ensures stopped { (at : ℕ) → stop_in self.old ≡ Some at
            → result ≡ Err (KeepFault.Stopped at) }
        ensures going { stop_in self.old ≡ None → (at : ℕ)
            → IsErrOf result (KeepFault.Stopped at) → ⊥ }
        ensures unchanged { (at : ℕ) → IsErrOf result (KeepFault.Stopped at)
            → self.new ≡ self.old }
        ensures memory { IsErrOf result KeepFault.Memory → ⊥ }
    {
        self.journal.reset()?;
        self.ids.cut(0);
        Ok(())
    }

    /// The least number, from 1 on, that is above the ids of all nodes of the file.
    pub fn next_id(&self) -> u64
        ensures next { result ≡ next_in self.now }
        ensures least { (records : List (List ℕ)) → StoreKeeps D.bytes D.images records self.now
            → result ≡ next_above (ids_in (nodes_of records)) }
        ensures small { result ≤ 2 ^ 62 }
    {
        self.ids.next_above()
    }

    /// The disk, with all that was done to it.
    pub fn give_back(self) -> D
        ensures { result ≡ disk_in self }
    {
        self.journal.give_back()
    }
}

/// The record that keeps trees after nodes with these ids, and the ids after it. All memory that it needs is taken here.
pub(crate) fn prepared(
    alloc: Global,
    roots: &Roots,
    c: u32,
    ids: &mut Ids,
) -> Result<Framed, Memory>
    requires { HaveStorableDatoms roots.now }
    ensures record { IfOk result (λ payload. (records : List (List ℕ))
        → IsTrue (are_good records) → AreIdsOf ids.old (nodes_of records)
        → Fits (nodes_of records) roots.now
        → IsNextRecord ids.old records payload roots.now c) }
    ensures ids { OnOk result (ids.new ≡ ids.old ++ ids_lacking ids.old roots.now) }
    ensures memory { OnErr result (ids.new ≡ ids.old) }
{
    let framed = record(alloc, roots, c, ids)?;
    ids.add_trees(alloc, roots)?;
    Ok(framed)
}

/// The record that keeps trees after nodes with these ids.
fn record(alloc: Global, roots: &Roots, c: u32, ids: &Ids) -> Result<Framed, Memory>
    requires { HaveStorableDatoms roots.now }
    ensures { IfOk result (λ payload. (records : List (List ℕ))
        → IsTrue (are_good records) → AreIdsOf ids.now (nodes_of records)
        → Fits (nodes_of records) roots.now
        → IsNextRecord ids.now records payload roots.now c) }
{
    check_counts(alloc, roots)?;
    let bytes = record_bytes(alloc, roots, c, ids)?;
    frame_in(bytes)
}
