//! Bytes that come in and bytes that go out. No call of a source or a sink takes memory.
ghost use Rattle.std.specs.Prelude.{◌≡◌, ◌≤◌, ◌<◌, ℕ, List, length, take, Option, IfOk, OnErr};
ghost use Rattle.std.specs.Io.KnownBytes.{prepend_known, append_known, IsAtEnd};
ghost use Rattle.fb_ports.specs.Faults.{Counts};

use crate::Failed;

/// Where bytes come from.
pub trait Source: Drop {
    /// How many calls have failed. At 2^64 - 1 it stays.
    ghost faults: { Self → ℕ };

    /// The bytes still to be read, where they are known.
    ghost left: { Self → Option (List ℕ) };

    fn faults(&self) -> u64
        ensures { result ≡ faults self.now };

    /// Reads into the front of `buf` and answers how many bytes it placed there. What lies after them in `buf` is free.
    /// It takes no memory.
    fn read(&mut self, buf: &mut [u8]) -> Result<usize, Failed>
        ensures within { IfOk result (λ n. n ≤ length buf.old) }
        ensures taken { IfOk result
            (λ n. left self.old ≡ prepend_known (take n buf.new) (left self.new)) }

        // A read of nothing, with room for a byte, is the end.
        ensures end { IfOk result (λ n. n ≡ 0 → 0 < length buf.old → IsAtEnd (left self.new)) }
        ensures kept { OnErr result (left self.new ≡ left self.old) }
        ensures counted { Counts result (faults self.old) (faults self.new) };
}

/// Where bytes go.
pub trait Sink: Drop {
    /// How many calls have failed. At 2^64 - 1 it stays.
    ghost faults: { Self → ℕ };

    /// The bytes that it has taken, where they are known.
    ghost contents: { Self → Option (List ℕ) };

    fn faults(&self) -> u64
        ensures { result ≡ faults self.now };

    /// Takes bytes from the front of `piece` and answers how many: no others were taken.
    /// It takes no memory.
    fn write(&mut self, piece: &[u8]) -> Result<usize, Failed>
        ensures within { IfOk result (λ n. n ≤ length piece.now) }

        // To take nothing of a piece is to fail.
        ensures some { IfOk result (λ n. 0 < length piece.now → 0 < n) }
        ensures taken { IfOk result
            (λ n. contents self.new ≡ append_known (contents self.old) (take n piece.now)) }
        ensures kept { OnErr result (contents self.new ≡ contents self.old) }
        ensures counted { Counts result (faults self.old) (faults self.new) };
}
