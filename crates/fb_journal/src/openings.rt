//! Opening the file of a journal, whose records are read later.
ghost use Rattle.std.specs.Prelude.{◌≡◌, ◌≤◌, ◌<◌, ℕ, List, [], length, take, Some, IfOk, IfErr, MatchResult};
ghost use Rattle.disk_model.specs.Disk.{Only, Within, IfKnown, LeavesOnly};
ghost use Rattle.fb_journal.specs.Marks.{mark_bytes};
ghost use Rattle.fb_journal.specs.Readings.{IsBegun, LeavesBegun, IsFirstFault};
ghost use Rattle.fb_journal.specs.Starts.{CountsStart};
ghost use Rattle.fb_journal.specs.Windows.{Shows};
ghost use Rattle.fb_journal.specs.declared.starts.StartFault.{StartFault};

use crate::marks::MARK;
use crate::reads::settle;
use crate::starts::NEW;
use crate::stores::store;
use crate::windows::Window;
use crate::{Mark, StartFault};
use fb_disk::Disk;
use std::alloc::Global;

/// Makes a new journal of a file that is no longer than one, and of a longer one reads the mark.
pub(crate) fn begin<D: Disk>(alloc: Global, disk: &mut D, mark: Mark) -> Result<Window, StartFault>
    ensures begun { IfOk result (λ _. IfKnown (D.bytes disk.old) (λ was. (now : List ℕ)
        × (D.bytes disk.new ≡ Some now) × IsBegun (mark_bytes mark) was now)) }
    ensures file { IfOk result (λ window. IfKnown (D.bytes disk.new) (λ file.
        (take 15 file ≡ mark_bytes mark) × Shows file window × Only file (D.images disk.new))) }
    ensures room { IfOk result (λ window. 15 < window.len) }
    ensures why_not { IfErr result
        (IsFirstFault (mark_bytes mark) (D.bytes disk.old) []) }
    ensures bytes { IfErr result (λ fault. (nth at : ℕ) → fault ≡ StartFault.BadLog nth at
        → D.bytes disk.new ≡ D.bytes disk.old) }
    ensures counted { MatchResult result (λ _. D.faults disk.new ≡ D.faults disk.old)
        (λ fault. CountsStart fault (D.faults disk.old) (D.faults disk.new)) }
    ensures any_moment { LeavesBegun D.bytes D.images D.moment D.images_since disk.old disk.new }
{
    let len = settle(disk)?;
    if NEW < len {
        return read_mark(alloc, disk, mark, len);
    }
    let window = Window::new(alloc, NEW)?;
    store(disk, 0, mark.new_journal())?;
    Ok(window)
}

/// A window on a file of this length, which begins with the mark.
fn read_mark<D: Disk>(
    alloc: Global,
    disk: &mut D,
    mark: Mark,
    len: u64,
) -> Result<Window, StartFault>
    requires longer { 16 < len }
    requires len { IfKnown (D.bytes disk.old) (λ file. len ≡ length file) }
    ensures file { IfOk result (λ window. IfKnown (D.bytes disk.old) (λ file.
        (take 15 file ≡ mark_bytes mark) × Shows file window)) }
    ensures len { IfOk result (λ window. window.len ≡ len) }
    ensures why_not { IfErr result
        (IsFirstFault (mark_bytes mark) (D.bytes disk.old) []) }
    ensures bytes { D.bytes disk.new ≡ D.bytes disk.old }
    ensures crash { Within (D.images disk.old) (D.images disk.new) }
    ensures any_moment { LeavesOnly D.moment D.images_since disk.old disk.new (D.images disk.old) }
    ensures counted { MatchResult result (λ _. D.faults disk.new ≡ D.faults disk.old)
        (λ fault. CountsStart fault (D.faults disk.old) (D.faults disk.new)) }
{
    let mut window = Window::new(alloc, len)?;
    let mut found = [0; MARK];
    if window.read(disk, 0, &mut found)? && found.starts_with(mark.bytes()) {
        Ok(window)
    } else {
        Err(StartFault::BadLog { nth: 0, at: 0 })
    }
}
