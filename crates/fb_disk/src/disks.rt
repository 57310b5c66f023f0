//! A file that may crash. No call of a disk takes memory.
ghost use Rattle.std.specs.Prelude.{◌≡◌, ◌≤◌, ◌<◌, ◌+◌, ◌^◌, ℕ, List, length, take, Option, IfOk, OnOk, option_map};
ghost use Rattle.io_faults.specs.Faults.{Counts};
ghost use Rattle.disk_model.specs.Disk.{written, Torn, TornCut, Follows, Within, Only, IfKnown, Reads, Elapses};

use io_faults::Failed;

/// A file that may crash. Between two syncs each written range, each cut range and what lies past the old end may hold
/// any bytes after a crash, and the length lies between the least and the greatest since the last sync. All other bytes
/// stay. After a sync that answers Ok a crash leaves what a read gives.
pub trait Disk: Drop {
    /// How many calls have failed. At 2^64 - 1 it stays.
    ghost faults: { Self → ℕ };

    /// What a read gives, where the bytes of the disk are known.
    ghost bytes: { Self → Option (List ℕ) };

    /// What a crash now may leave.
    ghost images: { Self → List ℕ → Type 0 };

    /// The moment, as a number that does not fall.
    ghost moment: { Self → ℕ };

    /// What a crash at some moment since that one might have left, during a call or between two.
    ghost images_since: { Self → ℕ → List ℕ → Type 0 };

    fn faults(&self) -> u64
        ensures { result ≡ faults self.now };

    /// The length of the file.
    fn len(&mut self) -> Result<u64, Failed>
        ensures length { IfOk result (λ n. IfKnown (bytes self.old) (λ file. n ≡ length file)) }
        ensures bytes { bytes self.new ≡ bytes self.old }
        ensures crash { Within (images self.old) (images self.new) }
        ensures time { Elapses (moment self.old) (moment self.new) (images_since self.old)
            (images_since self.new) (images self.new) }
        ensures counted { Counts result (faults self.old) (faults self.new) };

    /// Reads what the file has from `at` on into the front of `buf`, and answers how many bytes it placed there. What lies
    /// after them in `buf` is free.
    fn read_at(&mut self, at: u64, buf: &mut [u8]) -> Result<usize, Failed>
        ensures within { IfOk result (λ n. n ≤ length buf.old) }
        ensures read { IfOk result (λ n. IfKnown (bytes self.old)
            (λ file. Reads file at (length buf.old) n (take n buf.new))) }
        ensures bytes { bytes self.new ≡ bytes self.old }
        ensures crash { Within (images self.old) (images self.new) }
        ensures time { Elapses (moment self.old) (moment self.new) (images_since self.old)
            (images_since self.new) (images self.new) }
        ensures counted { Counts result (faults self.old) (faults self.new) };

    /// Writes over what is there, and past the end. A gap after the old end reads as zeros. After a fault nothing is
    /// known of the written range.
    fn write_at(&mut self, at: u64, piece: &[u8]) -> Result<(), Failed>
        ensures within { OnOk result (at + length piece.now < 2 ^ 64) }
        ensures written { OnOk result
            (bytes self.new ≡ option_map (written at piece.now) (bytes self.old)) }
        ensures crash { Follows (Torn at (length piece.now)) (images self.old) (images self.new) }
        ensures time { Elapses (moment self.old) (moment self.new) (images_since self.old)
            (images_since self.new) (images self.new) }
        ensures counted { Counts result (faults self.old) (faults self.new) };

    /// Cuts the file to a length. One that is no longer stays as it is. After a fault nothing is known of the cut range.
    fn cut(&mut self, len: u64) -> Result<(), Failed>
        ensures cut { OnOk result (bytes self.new ≡ option_map (take len) (bytes self.old)) }
        ensures crash { Follows (TornCut len) (images self.old) (images self.new) }
        ensures time { Elapses (moment self.old) (moment self.new) (images_since self.old)
            (images_since self.new) (images self.new) }
        ensures counted { Counts result (faults self.old) (faults self.new) };

    /// After it a crash leaves what a read gives. After a fault what was written and cut since the last sync may be lost.
    fn sync(&mut self) -> Result<(), Failed>
        ensures bytes { OnOk result (bytes self.new ≡ bytes self.old) }
        ensures durable { OnOk result
            (IfKnown (bytes self.old) (λ file. Only file (images self.new))) }
        ensures crash { Within (images self.old) (images self.new) }
        ensures time { Elapses (moment self.old) (moment self.new) (images_since self.old)
            (images_since self.new) (images self.new) }
        ensures counted { Counts result (faults self.old) (faults self.new) };

    /// What a read gives, a crash may leave.
    ghost reads_an_image: { (disk : Self) → IfKnown (bytes disk) (images disk) };

    /// This moment is one of those since an earlier one.
    ghost counts_now: { (disk : Self) (t : ℕ) (image : List ℕ) → t ≤ moment disk → images disk image
        → images_since disk t image };

    /// Since this moment there is no other.
    ghost only_now: { (disk : Self) (image : List ℕ) → images_since disk (moment disk) image
        → images disk image };
}
