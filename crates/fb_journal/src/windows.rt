//! Reading a file through a window, so that what is in memory of it does not grow with the file.
ghost use Rattle.std.specs.Prelude.{◌≡◌, ◌≤◌, ◌<◌, ◌+◌, ◌-◌, ◌↔◌, ◌^◌, List, ℕ, Some, length, take, drop, min, IsTrue, IfOk, OnOk};
ghost use Rattle.io_faults.specs.Faults.{Counts};
ghost use Rattle.disk_model.specs.Disk.{Within, IfKnown, LeavesOnly};

use crate::reads::fill;
use fb_disk::{Disk, Failed};
use std::alloc::{AllocError, Global};

/// How many bytes of the file a window has at most.
const WINDOW: usize = 1 << 20;

/// Some bytes of a file, which moves on as the file is read.
#[derive(Drop)]
pub(crate) struct Window {
    pub(crate) len: u64,
    bytes: Vec<u8>,
    start: u64,
    filled: usize,
    ghost within: { filled ≤ length bytes.items },
}

impl Window {
    ghost use Rattle.fb_journal.specs.Windows.{Shows, Has, OnlyReads};

    /// A window on a file of this length, of which it has nothing yet. It is no longer than the file.
    pub(crate) fn new(alloc: Global, len: u64) -> Result<Window, AllocError>
        ensures { IfOk result (λ w. (w.len ≡ len) × (w.filled ≡ 0)) }
    {
        let room = len.min(WINDOW as u64) as usize;
        Ok(Window {
            len,
            bytes: vec![in alloc; 0u8; room]?,
            start: 0,
            filled: 0,
        })
    }

    /// Reads what is at a place, and answers whether that fills the buffer. What does not fit into a window is read past
    /// it.
    pub(crate) fn read<D: Disk>(
        &mut self,
        disk: &mut D,
        at: u64,
        buf: &mut [u8],
    ) -> Result<bool, Failed>
        requires { at + length buf.old ≤ self.old.len }
        ensures read { IfOk result (λ whole. IfKnown (D.bytes disk.old) (λ file. Shows file self.old
            → IsTrue whole × (buf.new ≡ take (length buf.old) (drop at file)))) }
        ensures leaves { OnlyReads D.bytes D.images D.moment D.images_since disk.old disk.new
            self.old self.new }
        ensures counted { Counts result (D.faults disk.old) (D.faults disk.new) }
    {
        let _len = self.len;
        if self.bytes.len() <= buf.len() {
            return Ok(fill(disk, at, buf)? == buf.len());
        }
        self.show(disk, at, buf.len())?;
        Ok(self.copy(at, buf))
    }

    /// Moves the window to a place, where it does not have so many bytes from there on.
    fn show<D: Disk>(&mut self, disk: &mut D, at: u64, n: usize) -> Result<(), Failed>
        requires within { at + n ≤ self.old.len }
        requires room { n ≤ length self.old.bytes.items }
        ensures shown { OnOk result (IfKnown (D.bytes disk.old) (λ file. Shows file self.old
            → Has self.new at n)) }
        ensures leaves { OnlyReads D.bytes D.images D.moment D.images_since disk.old disk.new
            self.old self.new }
        ensures counted { Counts result (D.faults disk.old) (D.faults disk.new) }
    {
        if self.has(at, n) {
            return Ok(());
        }
        self.move_to(disk, at)
    }

    fn move_to<D: Disk>(&mut self, disk: &mut D, at: u64) -> Result<(), Failed>
        requires { at ≤ self.old.len }
        ensures shown { OnOk result (IfKnown (D.bytes disk.old) (λ file. Shows file self.old
            → (n : ℕ) → at + n ≤ self.old.len → n ≤ length self.old.bytes.items
            → Has self.new at n)) }
        ensures leaves { OnlyReads D.bytes D.images D.moment D.images_since disk.old disk.new
            self.old self.new }
        ensures counted { Counts result (D.faults disk.old) (D.faults disk.new) }
    {
        let room = self.bytes.len().min((self.len - at) as usize);
        self.filled = 0;
        let filled = fill_front(disk, at, &mut self.bytes, room)?;
        self.start = at;
        self.filled = filled;
        Ok(())
    }

    /// Fills the buffer from the window, where it has the bytes.
    fn copy(&self, at: u64, buf: &mut [u8]) -> bool
        ensures whole { IsTrue result ↔ Has self.now at (length buf.old) }
        ensures copied { (file : List ℕ) → Shows file self.now → IsTrue result
            → buf.new ≡ take (length buf.old) (drop at file) }
    {
        if !self.has(at, buf.len()) {
            return false;
        }
        let from = (at - self.start) as usize;
        buf.copy_from_slice(&self.bytes[from..from + buf.len()]);
        true
    }

    fn has(&self, at: u64, n: usize) -> bool
        ensures { IsTrue result ↔ Has self.now at n }
    {
        match at.checked_sub(self.start) {
            Some(from) => from <= self.filled as u64 && n <= self.filled - from as usize,
            None => false,
        }
    }
}

/// Fills the first n bytes of a buffer with what the file has from a place on.
fn fill_front<D: Disk>(disk: &mut D, at: u64, buf: &mut [u8], n: usize) -> Result<usize, Failed>
    requires within { n ≤ length buf.old }
    requires room { at + n < 2 ^ 64 }
    ensures within { IfOk result (λ filled. filled ≤ n) }
    ensures read { IfOk result (λ filled. IfKnown (D.bytes disk.old)
        (λ file. at + n ≤ length file
        → (filled ≡ n) × (take n buf.new ≡ take n (drop at file)))) }
    ensures bytes { D.bytes disk.new ≡ D.bytes disk.old }
    ensures crash { Within (D.images disk.old) (D.images disk.new) }
    ensures any_moment { LeavesOnly D.moment D.images_since disk.old disk.new (D.images disk.old) }
    ensures counted { Counts result (D.faults disk.old) (D.faults disk.new) }
{
    fill(disk, at, &mut buf[..n])
}
