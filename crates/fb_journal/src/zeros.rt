//! Zeros that are laid ahead of the records of a log. A record that is written over bytes which are on the disk already is
//! synced sooner than one that makes the file longer, since a longer file has its length and its blocks to be written too.
ghost use Rattle.std.specs.Prelude.{◌≡◌, ◌≤◌, ◌<◌, ◌+◌, ◌-◌, ◌^◌, List, ℕ, length, replicate, IfSome, OnOk, option_map};
ghost use Rattle.io_faults.specs.Faults.{Counts};
ghost use Rattle.disk_model.specs.Disk.{written, Torn, Only, IfKnown, LeavesOnly};
ghost use Rattle.fb_journal.specs.Laying.{zeros_between};

use crate::Mark;
use fb_disk::{Disk, Failed};

/// Zeros are laid in a log that has so many bytes when it is opened. A shorter one does not grow by more than its records.
const LEAST: u64 = 1 << 20;

/// Zeros are laid up to a multiple of this.
const STEP: u64 = 1 << 20;

/// How many zeros are written at a time.
const PIECE: usize = 1 << 16;

/// The end of a file of this length, if zeros are laid ahead of its records. In a file of segments they are few and long.
pub(crate) fn end_of(mark: Mark, len: u64) -> Option<u64>
    ensures { IfSome result (λ end. end ≡ len) }
{
    if mark == Mark::Log && LEAST <= len {
        Some(len)
    } else {
        None
    }
}

/// Up to where zeros are laid in a file that is to have so many bytes and is shorter.
pub(crate) fn end_behind(needed: u64) -> Option<u64>
    ensures { IfSome result (λ end. (needed < end) × (end ≤ needed + 2 ^ 20)) }
{
    (needed / STEP + 1).checked_mul(STEP)
}

/// Lays zeros from a place up to another, if there is one. They are on the disk before it answers Ok.
pub(crate) fn lay_zeros<D: Disk>(disk: &mut D, from: u64, upto: Option<u64>) -> Result<(), Failed>
    requires { IfKnown (D.bytes disk.old) (λ file. from ≤ length file) }
    ensures bytes { OnOk result (D.bytes disk.new
        ≡ option_map (written from (zeros_between from upto)) (D.bytes disk.old)) }
    ensures durable { OnOk result (IfKnown (D.bytes disk.old) (λ file. Only file (D.images disk.old)
        → Only (written from (zeros_between from upto) file) (D.images disk.new))) }
    ensures any_moment { (file : List ℕ) → Only file (D.images disk.old)
        → LeavesOnly D.moment D.images_since disk.old disk.new
        (Torn from (length (zeros_between from upto)) file) }
    ensures counted { Counts result (D.faults disk.old) (D.faults disk.new) }
{
    let Some(upto) = upto else {
        return Ok(());
    };
    write_zeros(disk, from, upto)?;
    disk.sync()
}

/// Writes zeros from a place up to another.
fn write_zeros<D: Disk>(disk: &mut D, from: u64, upto: u64) -> Result<(), Failed>
    requires { IfKnown (D.bytes disk.old) (λ file. from ≤ length file) }
    ensures bytes { OnOk result (D.bytes disk.new
        ≡ option_map (written from (replicate (upto - from) 0)) (D.bytes disk.old)) }
    ensures crash { OnOk result ((file : List ℕ) → Only file (D.images disk.old)
        → (image : List ℕ) → D.images disk.new image → Torn from (upto - from) file image) }
    ensures any_moment { (file : List ℕ) → Only file (D.images disk.old)
        → LeavesOnly D.moment D.images_since disk.old disk.new (Torn from (upto - from) file) }
    ensures counted { Counts result (D.faults disk.old) (D.faults disk.new) }
{
    let zeros = [0; PIECE];
    let mut at = from;
    while at < upto {
        let count = (upto - at).min(PIECE as u64);
        disk.write_at(at, &zeros[..count as usize])?;
        at += count;
    }
    Ok(())
}
