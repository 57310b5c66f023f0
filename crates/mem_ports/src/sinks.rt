//! A sink in memory, with room for a fixed number of bytes.
ghost use Rattle.std.specs.Prelude.{◌≡◌, ◌≤◌, ◌<◌, ◌-◌, ◌++◌, [], Some, IfOk, OnErr, is_err, length, take, min};
ghost use Rattle.std.specs.Io.KnownBytes.{append_known};
ghost use Rattle.fb_ports.specs.Faults.{Counts};
ghost use Rattle.mem_ports.specs.Calls.{no_calls, after_call, after_fault};
ghost use Rattle.mem_ports.specs.InMemory.{fails_write};

use crate::plan::CallPlan;
use fb_memory::Memory;
use fb_ports::{Failed, Sink};
use std::alloc::Global;
use std::marker::Model;

/// A sink in memory.
#[derive(Drop)]
pub struct MemSink {
    bytes: Vec<u8>,
    room: usize,
    plan: CallPlan,
}

impl Model for MemSink {
    ghost use Rattle.std.specs.Prelude.{◌≤◌, vec_len, vec_capacity};
    ghost use Rattle.mem_ports.specs.InMemory.{Store};

    ghost Value = { Store };

    ghost view = { λ s. record { bytes = s.bytes.items; room = s.room; calls = s.plan } };

    ghost invariant = { λ s. (vec_len s.bytes ≤ s.room) × (s.room ≤ vec_capacity s.bytes) };
}

impl MemSink {
    /// An empty sink for `room` bytes, whose memory is taken here. The writes that are numbered in `fails`, from 1,
    /// fail and leave it as it was.
    pub fn new(alloc: Global, room: usize, fails: Vec<u64>) -> Result<MemSink, Memory>
        ensures { IfOk result
            (λ s. s ≡ record { bytes = []; room = room; calls = no_calls fails.items }) }
    {
        Ok(MemSink {
            bytes: Vec::with_capacity(alloc, room)?,
            room,
            plan: CallPlan::new(fails),
        })
    }

    pub fn bytes(&self) -> &[u8]
        ensures { result.now ≡ self.now.bytes }
    {
        &self.bytes
    }
}

impl Sink for MemSink {
    ghost faults = { λ s. s.calls.faults };

    ghost contents = { λ s. Some s.bytes };

    fn faults(&self) -> u64 {
        self.plan.faults()
    }

    /// Of a piece that does not fit whole it takes what fits. Where not one byte fits it fails.
    fn write(&mut self, piece: &[u8]) -> Result<usize, Failed>
        ensures within { IfOk result (λ n. n ≤ length piece.now) }
        ensures some { IfOk result (λ n. 0 < length piece.now → 0 < n) }
        ensures taken { IfOk result
            (λ n. Some self.new.bytes ≡ append_known (Some self.old.bytes) (take n piece.now)) }
        ensures kept { OnErr result (Some self.new.bytes ≡ Some self.old.bytes) }
        ensures counted { Counts result self.old.calls.faults self.new.calls.faults }

        ensures fails { is_err result ≡ fails_write self.old (length piece.now) }
        ensures most { IfOk result
            (λ n. n ≡ min (length piece.now) (self.old.room - length self.old.bytes)) }
        ensures ok { IfOk result (λ n. self.new
            ≡ record self.old
            { bytes = self.old.bytes ++ take n piece.now; calls = after_call self.old.calls }) }
        ensures fault { OnErr result
            (self.new ≡ record self.old { calls = after_fault self.old.calls }) }
    {
        self.plan.begin()?;
        let count = piece.len().min(self.room - self.bytes.len());
        if count == 0 && !piece.is_empty() {
            return Err(self.plan.fault());
        }
        self.bytes.extend_from_slice(&piece[..count]).unwrap();
        Ok(count)
    }
}
