//! Reading a file in bulk.
ghost use Rattle.std.specs.Prelude.{◌≡◌, ◌≤◌, ◌<◌, ◌+◌, ◌^◌, length, take, drop, IfOk, OnOk};
ghost use Rattle.io_faults.specs.Faults.{Counts};
ghost use Rattle.disk_model.specs.Disk.{Only, Within, IfKnown, LeavesOnly};

use fb_disk::{Disk, Failed};

/// Syncs, so that what a read gives is on the disk, and answers the length of the file.
pub(crate) fn settle<D: Disk>(disk: &mut D) -> Result<u64, Failed>
    ensures length { IfOk result (λ n. IfKnown (D.bytes disk.old) (λ file. n ≡ length file)) }
    ensures bytes { OnOk result (D.bytes disk.new ≡ D.bytes disk.old) }
    ensures durable { OnOk result
        (IfKnown (D.bytes disk.old) (λ file. Only file (D.images disk.new))) }
    ensures crash { Within (D.images disk.old) (D.images disk.new) }
    ensures any_moment { LeavesOnly D.moment D.images_since disk.old disk.new (D.images disk.old) }
    ensures counted { Counts result (D.faults disk.old) (D.faults disk.new) }
{
    disk.sync()?;
    disk.len()
}

/// Reads what the file has from a place on until the buffer is full, or a read gives nothing.
pub(crate) fn fill<D: Disk>(disk: &mut D, at: u64, buf: &mut [u8]) -> Result<usize, Failed>
    requires { at + length buf.old < 2 ^ 64 }
    ensures within { IfOk result (λ n. n ≤ length buf.old) }
    ensures read { IfOk result (λ n. IfKnown (D.bytes disk.old)
        (λ file. at + length buf.old ≤ length file
        → (n ≡ length buf.old) × (buf.new ≡ take (length buf.old) (drop at file)))) }
    ensures bytes { D.bytes disk.new ≡ D.bytes disk.old }
    ensures crash { Within (D.images disk.old) (D.images disk.new) }
    ensures any_moment { LeavesOnly D.moment D.images_since disk.old disk.new (D.images disk.old) }
    ensures counted { Counts result (D.faults disk.old) (D.faults disk.new) }
{
    let mut filled = 0;
    while filled < buf.len() {
        let count = disk.read_at(at + filled as u64, &mut buf[filled..])?;
        if count == 0 {
            return Ok(filled);
        }
        filled += count;
    }
    Ok(filled)
}
