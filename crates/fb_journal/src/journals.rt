//! A journal over a disk.
ghost use Rattle.std.specs.Prelude.{◌≡◌, ◌≤◌, ◌<◌, ◌+◌, ◌^◌, ◌++◌, [], ◌∷◌, ℕ, List, None, Some, OnOk, IsErrOf, IsTrue, IfSome};
ghost use Rattle.std.proofs.Props.{props};
ghost use Rattle.io_faults.specs.Faults.{Rose};
ghost use Rattle.disk_model.specs.Disk.{IfKnown, LeavesOnly};
ghost use Rattle.disk_model.specs.Journal.{record_of};
ghost use Rattle.fb_journal.specs.Laying.{IsLaid, record_if};

use crate::marks::MARK;
use crate::stores::{add_record, empty};
use crate::zeros::end_behind;
use crate::{Framed, Mark};
use fb_disk::Disk;
use thiserror::Error;

/// Why a journal did not do what it was asked.
#[derive(Clone, Copy, Debug, PartialEq, Eq, Error)]
pub enum JournalFault {
    /// A call of the disk failed in this call.
    #[error("a call of the disk failed")]
    Disk,
    /// An earlier call failed, at this record, counted from 0. What the file holds is known once it is started again.
    #[error("stopped at record {at}")]
    Stopped { at: u64 },
}

/// A journal whose file is on the disk. After a fault it stops: the file then holds the records from before, or those
/// with the new one, and a new start finds out which.
#[derive(Drop)]
pub struct Journal<D: Disk> {
    pub(crate) disk: D,
    pub(crate) mark: Mark,
    pub(crate) records: u64,
    pub(crate) gate: u64,
    pub(crate) stopped: Option<u64>,
    /// What is on the disk behind the closed gate already: the record that was likely to come next. It counts for nothing.
    pub(crate) laid: Option<Framed>,
    /// Where the file ends, if zeros are laid ahead of its records.
    pub(crate) end: Option<u64>,
    ghost room: { gate + 1 < 2 ^ 64 },
    ghost few: { records ≤ gate },
    ghost lies: { IfSome laid
        (λ payload. IsLaid (D.bytes disk) (gate + 1) (record_of payload)) } by { Prim.hlevel props },
}

impl<D: Disk> Journal<D> {
    ghost use Rattle.fb_journal.specs.Journals.{disk_of, mark_of, stop_of, count_of, Keeps, StaysKnown, IsBeforeOrAfter};
    ghost use Rattle.fb_journal.specs.declared.journals.JournalFault.{JournalFault};

    /// Adds a record. At Ok it is on the disk: from then on each crash leaves a file that has it. It takes no memory.
    pub fn append(&mut self, framed: &Framed) -> Result<(), JournalFault>
        ensures acknowledged { OnOk result ((records : List (List ℕ))
            → Keeps D.bytes D.images records self.old
            → Keeps D.bytes D.images (records ++ framed.now ∷ []) self.new) }

        // A crash at any moment of the call leaves the records from before it, or those with the new one.
        ensures any_moment { (records : List (List ℕ)) → Keeps D.bytes D.images records self.old
            → IfKnown (D.bytes (disk_of self.old)) (λ _. LeavesOnly D.moment D.images_since
            (disk_of self.old) (disk_of self.new)
            (IsBeforeOrAfter (mark_of self.old) records framed.now)) }
        ensures known { OnOk result
            (StaysKnown (D.bytes (disk_of self.old)) (D.bytes (disk_of self.new))) }
        ensures mark { mark_of self.new ≡ mark_of self.old }

        // It fails only where the disk did, and then stops at this record.
        ensures counted { OnOk result (D.faults (disk_of self.new) ≡ D.faults (disk_of self.old)) }
        ensures cause { IsErrOf result JournalFault.Disk
            → Rose (D.faults (disk_of self.old)) (D.faults (disk_of self.new)) }
        ensures stops { IsErrOf result JournalFault.Disk
            → stop_of self.new ≡ Some (count_of self.old) }

        // A stopped journal says so, and at which record, and does nothing.
        ensures stopped { (at : ℕ) → stop_of self.old ≡ Some at
            → result ≡ Err (JournalFault.Stopped at) }
        ensures going { stop_of self.old ≡ None → (at : ℕ)
            → IsErrOf result (JournalFault.Stopped at) → ⊥ }
        ensures unchanged { (at : ℕ) → IsErrOf result (JournalFault.Stopped at)
            → self.new ≡ self.old }
    {
        self.append_beside(framed, None)
    }

    /// Adds a record, and lays the one that is likely to come next behind the gate that is closed then, under the same sync.
    /// If that one comes, adding it takes one sync in place of two; until then it counts for nothing. Where a long log ends,
    /// zeros are laid ahead of the records that come later. It takes no memory.
    pub fn append_beside(
        &mut self,
        framed: &Framed,
        next: Option<Framed>,
    ) -> Result<(), JournalFault>
        ensures acknowledged { OnOk result ((records : List (List ℕ))
            → Keeps D.bytes D.images records self.old
            → Keeps D.bytes D.images (records ++ framed.now ∷ []) self.new) }

        // A crash at any moment of the call leaves the records from before it, or those with the new one.
        ensures any_moment { (records : List (List ℕ)) → Keeps D.bytes D.images records self.old
            → IfKnown (D.bytes (disk_of self.old)) (λ _. LeavesOnly D.moment D.images_since
            (disk_of self.old) (disk_of self.new)
            (IsBeforeOrAfter (mark_of self.old) records framed.now)) }
        ensures known { OnOk result
            (StaysKnown (D.bytes (disk_of self.old)) (D.bytes (disk_of self.new))) }
        ensures mark { mark_of self.new ≡ mark_of self.old }

        // It fails only where the disk did, and then stops at this record.
        ensures counted { OnOk result (D.faults (disk_of self.new) ≡ D.faults (disk_of self.old)) }
        ensures cause { IsErrOf result JournalFault.Disk
            → Rose (D.faults (disk_of self.old)) (D.faults (disk_of self.new)) }
        ensures stops { IsErrOf result JournalFault.Disk
            → stop_of self.new ≡ Some (count_of self.old) }

        // A stopped journal says so, and at which record, and does nothing.
        ensures stopped { (at : ℕ) → stop_of self.old ≡ Some at
            → result ≡ Err (JournalFault.Stopped at) }
        ensures going { stop_of self.old ≡ None → (at : ℕ)
            → IsErrOf result (JournalFault.Stopped at) → ⊥ }
        ensures unchanged { (at : ℕ) → IsErrOf result (JournalFault.Stopped at)
            → self.new ≡ self.old }
    {
        if let Some(at) = self.stopped {
            return Err(JournalFault::Stopped { at });
        }
        let lies = self.has_laid(framed);
        let piece = framed.bytes();
        let beside = bytes_in(&next);
        let upto = self.zeros_upto(piece, beside);
        if add_record(&mut self.disk, self.gate, piece, lies, upto, beside).is_err() {
            self.laid = None;
            self.stopped = Some(self.records);
            return Err(JournalFault::Disk);
        }
        self.gate += piece.len() as u64;
        self.records += 1;
        self.laid = next;
        self.end = upto.or(self.end);
        Ok(())
    }

    /// Up to where zeros are laid behind a record, if the file ends before it, or before what is laid beside it.
    fn zeros_upto(&self, piece: &[u8], next: &[u8]) -> Option<u64> {
        let end = self.end?;
        let behind = (self.gate + 1).checked_add(piece.len() as u64)?;
        let needed = behind.checked_add(next.len() as u64)?;
        if end < needed {
            end_behind(needed)
        } else {
            None
        }
    }

    /// Whether this record lies behind the gate, byte for byte.
    fn has_laid(&self, framed: &Framed) -> bool
        ensures { IsTrue result → self.now.laid ≡ Some framed.now }
    {
        match &self.laid {
            Some(laid) => laid.bytes() == framed.bytes(),
            None => false,
        }
    }

    /// Starts the file anew, so that it has no record. A crash before this answers Ok may leave any bytes. It takes no
    /// memory.
    pub fn reset(&mut self) -> Result<(), JournalFault>
        ensures emptied { OnOk result (Keeps D.bytes D.images [] self.new) }
        ensures known { OnOk result
            (StaysKnown (D.bytes (disk_of self.old)) (D.bytes (disk_of self.new))) }
        ensures mark { mark_of self.new ≡ mark_of self.old }

        // It fails only where the disk did, and then stops at record 0.
        ensures counted { OnOk result (D.faults (disk_of self.new) ≡ D.faults (disk_of self.old)) }
        ensures cause { IsErrOf result JournalFault.Disk
            → Rose (D.faults (disk_of self.old)) (D.faults (disk_of self.new)) }
        ensures stops { IsErrOf result JournalFault.Disk → stop_of self.new ≡ Some 0 }

        // A stopped journal says so, and at which record, and does nothing.
        ensures stopped { (at : ℕ) → stop_of self.old ≡ Some at
            → result ≡ Err (JournalFault.Stopped at) }
        ensures going { stop_of self.old ≡ None → (at : ℕ)
            → IsErrOf result (JournalFault.Stopped at) → ⊥ }
        ensures unchanged { (at : ℕ) → IsErrOf result (JournalFault.Stopped at)
            → self.new ≡ self.old }
    {
        if let Some(at) = self.stopped {
            return Err(JournalFault::Stopped { at });
        }
        self.laid = None;
        self.end = None;
        if empty(&mut self.disk, self.mark).is_err() {
            self.stopped = Some(0);
            return Err(JournalFault::Disk);
        }
        self.gate = MARK as u64;
        self.records = 0;
        Ok(())
    }

    /// The disk, with all that was done to it.
    pub fn give_back(self) -> D
        ensures { result ≡ disk_of self }
    {
        self.disk
    }
}

/// The bytes of a record, or none.
fn bytes_in(framed: &Option<Framed>) -> &[u8]
    ensures { result.now ≡ record_if framed.now }
{
    match framed {
        Some(framed) => framed.bytes(),
        None => &[],
    }
}
