//! A source in memory: bytes that are read once, from front to back.
ghost use Rattle.std.specs.Prelude.{◌≡◌, ◌≤◌, ◌<◌, Some, IfOk, OnErr, is_err, length, take, drop, min};
ghost use Rattle.std.specs.Io.KnownBytes.{prepend_known, IsAtEnd};
ghost use Rattle.fb_ports.specs.Faults.{Counts};
ghost use Rattle.mem_ports.specs.Calls.{no_calls, fails_next, after_call, after_fault};

use crate::plan::CallPlan;
use fb_ports::{Failed, Source};
use std::marker::Model;

/// A source in memory.
#[derive(Drop)]
pub struct MemSource {
    bytes: Vec<u8>,
    next: usize,
    plan: CallPlan,
}

impl Model for MemSource {
    ghost use Rattle.std.specs.Prelude.{◌≤◌, drop, vec_len};
    ghost use Rattle.mem_ports.specs.InMemory.{Supply};

    ghost Value = { Supply };

    ghost view = { λ s. record { left = drop s.next s.bytes.items; calls = s.plan } };

    ghost invariant = { λ s. s.next ≤ vec_len s.bytes };
}

impl MemSource {
    /// A source of these bytes. The reads that are numbered in `fails`, from 1, fail and leave it as it was.
    pub fn new(bytes: Vec<u8>, fails: Vec<u64>) -> MemSource
        ensures bytes { result.left ≡ bytes.items }
        ensures calls { result.calls ≡ no_calls fails.items }
    {
        MemSource {
            bytes,
            next: 0,
            plan: CallPlan::new(fails),
        }
    }
}

impl Source for MemSource {
    ghost faults = { λ s. s.calls.faults };

    ghost left = { λ s. Some s.left };

    fn faults(&self) -> u64 {
        self.plan.faults()
    }

    fn read(&mut self, buf: &mut [u8]) -> Result<usize, Failed>
        ensures within { IfOk result (λ n. n ≤ length buf.old) }
        ensures taken { IfOk result
            (λ n. Some self.old.left ≡ prepend_known (take n buf.new) (Some self.new.left)) }
        ensures end { IfOk result (λ n. n ≡ 0 → 0 < length buf.old → IsAtEnd (Some self.new.left)) }
        ensures kept { OnErr result (Some self.new.left ≡ Some self.old.left) }
        ensures counted { Counts result self.old.calls.faults self.new.calls.faults }

        // It fails where it was made to, and else reads all that is left and fits.
        ensures fails { is_err result ≡ fails_next self.old.calls }
        ensures most { IfOk result (λ n. n ≡ min (length buf.old) (length self.old.left)) }
        ensures placed { IfOk result (λ n. take n buf.new ≡ take n self.old.left) }
        ensures ok { IfOk result (λ n. self.new
            ≡ record { left = drop n self.old.left; calls = after_call self.old.calls }) }
        ensures fault { OnErr result
            (self.new ≡ record self.old { calls = after_fault self.old.calls }) }
    {
        self.plan.begin()?;
        let rest = &self.bytes[self.next..];
        let count = copy_to_front(buf, rest);
        self.next += count;
        Ok(count)
    }
}

/// Copies what fits of `from` to the front of `buf`, and answers how much that was.
fn copy_to_front(buf: &mut [u8], from: &[u8]) -> usize
    ensures most { result ≡ min (length buf.old) (length from.now) }
    ensures copied { take result buf.new ≡ take result from.now }
{
    let count = buf.len().min(from.len());
    buf[..count].copy_from_slice(&from[..count]);
    count
}
