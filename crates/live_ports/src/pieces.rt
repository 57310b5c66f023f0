//! Streams in memory that give and take their bytes in pieces, as pipes do.
ghost use Rattle.std.specs.Prelude.{◌≡◌, ◌≤◌, ◌<◌, ◌-◌, ◌++◌, [], ℕ, true, false, Some, IfOk, OnErr, is_err, length, take, drop, min};
ghost use Rattle.std.specs.Io.KnownBytes.{prepend_known, append_known, IsAtEnd};
ghost use Rattle.fb_ports.specs.Faults.{Counts};
ghost use Rattle.mem_ports.specs.Calls.{no_calls, fails_next, after_call, after_fault};
ghost use Rattle.mem_ports.specs.InMemory.{fails_write};
ghost use Rattle.live_ports.specs.Pieces.{next_size, later_sizes};

use crate::{LiveSink, LiveSource};
use fb_memory::Memory;
use fb_ports::{Failed, Sink, Source};
use mem_ports::{MemSink, MemSource};
use std::alloc::Global;
use std::marker::Model;

/// How large the next pieces may be. Behind the last, a piece may have any size.
#[derive(Drop)]
struct Sizes {
    sizes: Vec<usize>,
    used: usize,
}

impl Model for Sizes {
    ghost use Rattle.std.specs.Prelude.{◌≤◌, List, ℕ, drop, vec_len};

    ghost Value = { List ℕ };

    ghost view = { λ s. drop s.used s.sizes.items };

    ghost invariant = { λ s. s.used ≤ vec_len s.sizes };
}

impl Sizes {
    fn new(sizes: Vec<usize>) -> Sizes
        ensures { result ≡ sizes.items }
    {
        Sizes { sizes, used: 0 }
    }

    /// How much of `len` bytes the next piece may have: one at least, if there are any.
    fn of(&self, len: usize) -> usize
        ensures next { result ≡ next_size self.now len }
        ensures within { result ≤ len }
        ensures some { 0 < len → 0 < result }
    {
        match self.sizes.get(self.used) {
            Some(size) => len.min((*size).max(1)),
            None => len,
        }
    }

    fn pass(&mut self)
        ensures { self.new ≡ later_sizes self.old }
    {
        if self.used < self.sizes.len() {
            self.used += 1;
        }
    }
}

/// A source in memory that gives its bytes in pieces.
#[derive(Drop)]
pub struct PieceSource {
    source: MemSource,
    sizes: Sizes,
    hung_up: bool,
}

impl Model for PieceSource {
    ghost use Rattle.live_ports.specs.Pieces.{PieceSupply};

    ghost Value = { PieceSupply };

    ghost view = { λ s. record { supply = s.source; sizes = s.sizes; hung_up = s.hung_up } };
}

impl PieceSource {
    /// A source of these bytes, of which the n-th read gives at most the n-th of `sizes`. The reads that are numbered in
    /// `fails`, from 1, fail, give nothing and use no size.
    pub fn new(bytes: Vec<u8>, sizes: Vec<usize>, fails: Vec<u64>) -> PieceSource
        ensures { result ≡ record {
          supply = record { left = bytes.items; calls = no_calls fails.items };
          sizes = sizes.items;
          hung_up = false;
        } }
    {
        PieceSource {
            source: MemSource::new(bytes, fails),
            sizes: Sizes::new(sizes),
            hung_up: false,
        }
    }

    pub fn hung_up(&self) -> bool
        ensures { result ≡ self.now.hung_up }
    {
        self.hung_up
    }
}

impl Source for PieceSource {
    ghost faults = { λ s. s.supply.calls.faults };

    ghost left = { λ s. Some s.supply.left };

    fn faults(&self) -> u64 {
        self.source.faults()
    }

    fn read(&mut self, buf: &mut [u8]) -> Result<usize, Failed>
        ensures within { IfOk result (λ n. n ≤ length buf.old) }
        ensures taken { IfOk result (λ n. Some self.old.supply.left
            ≡ prepend_known (take n buf.new) (Some self.new.supply.left)) }
        ensures end { IfOk result
            (λ n. n ≡ 0 → 0 < length buf.old → IsAtEnd (Some self.new.supply.left)) }
        ensures kept { OnErr result (Some self.new.supply.left ≡ Some self.old.supply.left) }
        ensures counted { Counts result self.old.supply.calls.faults self.new.supply.calls.faults }

        // It fails where it was made to, and else reads all that is left, fits and is of the piece.
        ensures fails { is_err result ≡ fails_next self.old.supply.calls }
        ensures most { IfOk result (λ n. n
            ≡ min (next_size self.old.sizes (length buf.old)) (length self.old.supply.left)) }
        ensures placed { IfOk result (λ n. take n buf.new ≡ take n self.old.supply.left) }
        ensures ok { IfOk result (λ n. self.new ≡ record self.old {
          supply = record {
            left = drop n self.old.supply.left;
            calls = after_call self.old.supply.calls;
          };
          sizes = later_sizes self.old.sizes;
        }) }
        ensures fault { OnErr result (self.new ≡ record self.old {
          supply = record self.old.supply { calls = after_fault self.old.supply.calls };
        }) }
    {
        let most = self.sizes.of(buf.len());
        let count = self.source.read(&mut buf[..most])?;
        self.sizes.pass();
        Ok(count)
    }
}

impl LiveSource for PieceSource {
    ghost has_hung_up = { λ s. s.hung_up };

    /// What is left can still be read.
    fn hang_up(&mut self)
        ensures { self.new ≡ record self.old { hung_up = true } }
    {
        self.hung_up = true;
    }
}

/// A sink in memory that takes what it is given in pieces.
#[derive(Drop)]
pub struct PieceSink {
    sink: MemSink,
    sizes: Sizes,
    hung_up: bool,
}

impl Model for PieceSink {
    ghost use Rattle.live_ports.specs.Pieces.{PieceStore};

    ghost Value = { PieceStore };

    ghost view = { λ s. record { store = s.sink; sizes = s.sizes; hung_up = s.hung_up } };
}

impl PieceSink {
    /// An empty sink for `room` bytes, of which the n-th write takes at most the n-th of `sizes`. The writes that are
    /// numbered in `fails`, from 1, fail, take nothing and use no size.
    pub fn new(
        alloc: Global,
        room: usize,
        sizes: Vec<usize>,
        fails: Vec<u64>,
    ) -> Result<PieceSink, Memory>
        ensures { IfOk result (λ s. s ≡ record {
          store = record { bytes = []; room = room; calls = no_calls fails.items };
          sizes = sizes.items;
          hung_up = false;
        }) }
    {
        Ok(PieceSink {
            sink: MemSink::new(alloc, room, fails)?,
            sizes: Sizes::new(sizes),
            hung_up: false,
        })
    }

    pub fn bytes(&self) -> &[u8]
        ensures { result.now ≡ self.now.store.bytes }
    {
        self.sink.bytes()
    }

    pub fn hung_up(&self) -> bool
        ensures { result ≡ self.now.hung_up }
    {
        self.hung_up
    }
}

impl Sink for PieceSink {
    ghost faults = { λ s. s.store.calls.faults };

    ghost contents = { λ s. Some s.store.bytes };

    fn faults(&self) -> u64 {
        self.sink.faults()
    }

    fn write(&mut self, piece: &[u8]) -> Result<usize, Failed>
        ensures within { IfOk result (λ n. n ≤ length piece.now) }
        ensures some { IfOk result (λ n. 0 < length piece.now → 0 < n) }
        ensures taken { IfOk result (λ n. Some self.new.store.bytes
            ≡ append_known (Some self.old.store.bytes) (take n piece.now)) }
        ensures kept { OnErr result (Some self.new.store.bytes ≡ Some self.old.store.bytes) }
        ensures counted { Counts result self.old.store.calls.faults self.new.store.calls.faults }

        ensures fails { is_err result
            ≡ fails_write self.old.store (next_size self.old.sizes (length piece.now)) }
        ensures most { IfOk result (λ n. n ≡ min (next_size self.old.sizes (length piece.now))
            (self.old.store.room - length self.old.store.bytes)) }
        ensures ok { IfOk result (λ n. self.new ≡ record self.old {
          store = record self.old.store {
            bytes = self.old.store.bytes ++ take n piece.now;
            calls = after_call self.old.store.calls;
          };
          sizes = later_sizes self.old.sizes;
        }) }
        ensures fault { OnErr result (self.new ≡ record self.old {
          store = record self.old.store { calls = after_fault self.old.store.calls };
        }) }
    {
        let most = self.sizes.of(piece.len());
        let count = self.sink.write(&piece[..most])?;
        self.sizes.pass();
        Ok(count)
    }
}

impl LiveSink for PieceSink {
    ghost has_hung_up = { λ s. s.hung_up };

    /// It still takes bytes.
    fn hang_up(&mut self)
        ensures { self.new ≡ record self.old { hung_up = true } }
    {
        self.hung_up = true;
    }
}
