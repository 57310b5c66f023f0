//! What is at a gate of a file.
ghost use Rattle.std.specs.Prelude.{◌≡◌, ◌≤◌, ◌<◌, ◌+◌, drop, IfOk};
ghost use Rattle.std.specs.Int.{w64, to_be_bytes, from_be_bytes};
ghost use Rattle.io_faults.specs.Faults.{Counts};
ghost use Rattle.disk_model.specs.Disk.{IfKnown};
ghost use Rattle.fb_journal.specs.Gates.{IsAheadAt, IsAhead, HasRoom};
ghost use Rattle.fb_journal.specs.Windows.{Shows, OnlyReads};

use crate::frames::LENGTH;
use crate::windows::Window;
use fb_disk::{Disk, Failed};

/// The one byte at which a gate is open.
pub(crate) const OPEN: u8 = 1;

#[derive(Clone, Copy)]
pub(crate) enum Ahead {
    /// The gate is closed.
    Closed,
    /// After the open gate there is no length, or one that leaves no room for the payload and the next gate.
    CutShort,
    /// The gate is open, and a payload of this length follows.
    Record { len: usize },
}

/// Looks at a gate, and where it is open at the length after it.
pub(crate) fn look_ahead<D: Disk>(
    disk: &mut D,
    window: &mut Window,
    gate: u64,
) -> Result<Ahead, Failed>
    requires { gate < window.old.len }
    ensures stands { IfOk result (λ ahead. IfKnown (D.bytes disk.old) (λ file. Shows file window.old
        → IsAheadAt file gate ahead)) }
    ensures room { IfOk result (HasRoom window.old.len (gate + 1)) }
    ensures leaves { OnlyReads D.bytes D.images D.moment D.images_since disk.old disk.new
        window.old window.new }
    ensures counted { Counts result (D.faults disk.old) (D.faults disk.new) }
{
    let mut byte = [0];
    if !window.read(disk, gate, &mut byte)? {
        return Ok(Ahead::CutShort);
    }
    if byte[0] != OPEN {
        return Ok(Ahead::Closed);
    }
    look_behind(disk, window, gate + 1)
}

/// Looks at what follows an open gate.
fn look_behind<D: Disk>(disk: &mut D, window: &mut Window, at: u64) -> Result<Ahead, Failed>
    requires { at ≤ window.old.len }
    ensures stands { IfOk result (λ ahead. IfKnown (D.bytes disk.old) (λ file. Shows file window.old
        → IsAhead (drop at file) ahead)) }
    ensures room { IfOk result (HasRoom window.old.len at) }
    ensures leaves { OnlyReads D.bytes D.images D.moment D.images_since disk.old disk.new
        window.old window.new }
    ensures counted { Counts result (D.faults disk.old) (D.faults disk.new) }
{
    let rest = window.len - at;
    let Some(room) = rest.checked_sub(LENGTH as u64) else {
        return Ok(Ahead::CutShort);
    };
    let mut bytes = [0; LENGTH];
    if !window.read(disk, at, &mut bytes)? {
        return Ok(Ahead::CutShort);
    }
    let len = number(&bytes);
    if len < room {
        Ok(Ahead::Record { len: len as usize })
    } else {
        Ok(Ahead::CutShort)
    }
}

/// The number that eight bytes are.
fn number(bytes: &[u8; LENGTH]) -> u64
    ensures value { result ≡ from_be_bytes w64 bytes.now }
    ensures bytes { to_be_bytes w64 result ≡ bytes.now }
{
    u64::from_be_bytes(*bytes)
}
