//! What a journal does to its disk. Each call leaves on the disk what it wrote before it answers Ok.
ghost use Rattle.std.specs.Prelude.{◌≡◌, ◌≤◌, ◌<◌, ◌+◌, ◌^◌, [], ◌∷◌, List, ℕ, length, OnOk, IsTrue, option_map};
ghost use Rattle.io_faults.specs.Faults.{Counts};
ghost use Rattle.disk_model.specs.Disk.{written, Torn, Only, IfKnown, LeavesOnly};
ghost use Rattle.disk_model.specs.Journal.{new_journal};
ghost use Rattle.fb_journal.specs.Laying.{IsLaid, TornOpening, TornAdding, zeros_between, opened_beside};
ghost use Rattle.fb_journal.specs.Marks.{mark_bytes};

use crate::Mark;
use crate::zeros::lay_zeros;
use fb_disk::Disk;
use io_faults::Failed;

pub(crate) fn store<D: Disk>(disk: &mut D, at: u64, piece: &[u8]) -> Result<(), Failed>
    ensures within { OnOk result (at + length piece.now < 2 ^ 64) }
    ensures bytes { OnOk result
        (D.bytes disk.new ≡ option_map (written at piece.now) (D.bytes disk.old)) }
    ensures durable { OnOk result
        (IfKnown (D.bytes disk.new) (λ file. Only file (D.images disk.new))) }
    ensures any_moment { (file : List ℕ) → Only file (D.images disk.old)
        → LeavesOnly D.moment D.images_since disk.old disk.new (Torn at (length piece.now) file) }
    ensures counted { Counts result (D.faults disk.old) (D.faults disk.new) }
{
    disk.write_at(at, piece)?;
    disk.sync()
}

/// Writes a record after its closed gate, unless it lies there, and zeros behind it up to a place, if there is one. Then it
/// opens the gate. What goes after the next gate is written under the sync that opens this one.
pub(crate) fn add_record<D: Disk>(
    disk: &mut D,
    gate: u64,
    piece: &[u8],
    lies: bool,
    upto: Option<u64>,
    next: &[u8],
) -> Result<(), Failed>
    requires room { gate + 1 < 2 ^ 64 }
    requires lies { IsTrue lies → IsLaid (D.bytes disk.old) (gate + 1) piece.now }
    ensures within { OnOk result (gate + 1 + length piece.now + length next.now < 2 ^ 64) }
    ensures bytes { OnOk result (D.bytes disk.new ≡ option_map (opened_beside gate piece.now
        (zeros_between (gate + 1 + length piece.now) upto) next.now) (D.bytes disk.old)) }
    ensures durable { OnOk result
        (IfKnown (D.bytes disk.new) (λ file. Only file (D.images disk.new))) }
    ensures any_moment { IfKnown (D.bytes disk.old) (λ file. Only file (D.images disk.old)
        → LeavesOnly D.moment D.images_since disk.old disk.new (TornAdding gate piece.now
        (zeros_between (gate + 1 + length piece.now) upto) (length next.now) file)) }
    ensures counted { Counts result (D.faults disk.old) (D.faults disk.new) }
{
    let at = gate + 1;
    write_record(disk, at, piece, lies)?;
    let behind = at + piece.len() as u64;
    lay_zeros(disk, behind, upto)?;
    open_gate(disk, gate, behind, next)
}

/// Writes a record at a place, unless it lies there.
fn write_record<D: Disk>(disk: &mut D, at: u64, piece: &[u8], lies: bool) -> Result<(), Failed>
    requires { IsTrue lies → IsLaid (D.bytes disk.old) at piece.now }
    ensures within { OnOk result (at + length piece.now < 2 ^ 64) }
    ensures bytes { OnOk result
        (D.bytes disk.new ≡ option_map (written at piece.now) (D.bytes disk.old)) }
    ensures durable { OnOk result (IfKnown (D.bytes disk.old) (λ file. Only file (D.images disk.old)
        → Only (written at piece.now file) (D.images disk.new))) }
    ensures any_moment { (file : List ℕ) → Only file (D.images disk.old)
        → LeavesOnly D.moment D.images_since disk.old disk.new (Torn at (length piece.now) file) }
    ensures counted { Counts result (D.faults disk.old) (D.faults disk.new) }
{
    if lies {
        return Ok(());
    }
    store(disk, at, piece)
}

/// Opens a gate, and writes what goes at a place after it under the same sync.
fn open_gate<D: Disk>(disk: &mut D, gate: u64, at: u64, next: &[u8]) -> Result<(), Failed>
    requires { IfKnown (D.bytes disk.old) (λ file. at ≤ length file) }
    ensures within { OnOk result (at + length next.now < 2 ^ 64) }
    ensures bytes { OnOk result (D.bytes disk.new
        ≡ option_map (λ file. written at next.now (written gate (1 ∷ []) file))
        (D.bytes disk.old)) }
    ensures durable { OnOk result
        (IfKnown (D.bytes disk.new) (λ file. Only file (D.images disk.new))) }
    ensures any_moment { (file : List ℕ) → Only file (D.images disk.old)
        → LeavesOnly D.moment D.images_since disk.old disk.new
        (TornOpening gate at (length next.now) file) }
    ensures counted { Counts result (D.faults disk.old) (D.faults disk.new) }
{
    disk.write_at(gate, &[1])?;
    if next.is_empty() {
        return disk.sync();
    }
    disk.write_at(at, next)?;
    disk.sync()
}

/// Starts the file anew. The cut is on the disk before anything is written: what a torn cut leaves could otherwise come
/// after the new journal's bytes.
pub(crate) fn empty<D: Disk>(disk: &mut D, mark: Mark) -> Result<(), Failed>
    ensures bytes { OnOk result
        (D.bytes disk.new ≡ option_map (λ _. new_journal (mark_bytes mark)) (D.bytes disk.old)) }
    ensures durable { OnOk result
        (IfKnown (D.bytes disk.new) (λ file. Only file (D.images disk.new))) }
    ensures counted { Counts result (D.faults disk.old) (D.faults disk.new) }
{
    disk.cut(0)?;
    disk.sync()?;
    store(disk, 0, mark.new_journal())
}
