//! The lines of reads wait for one another, and go out together.
ghost use Rattle.std.specs.Prelude.{◌≡◌, ◌<◌, true, ◌-◌, ◌++◌, ◌∷◌, [], ℕ, List, if◌then◌else◌, is_ok, OnOk, OnErr, length, nat_le};
ghost use Rattle.std.specs.List.{prefix_len};
ghost use Rattle.std.specs.Io.KnownBytes.{append_known};
ghost use Rattle.fb_ports.specs.Faults.{Counts};
ghost use Rattle.fb_session.specs.Sessions.{DiffersInWaiting, KeepsPlaces, places_in, waiting_in, waiting_bytes};
ghost use Rattle.fb_session.specs.WaitingLines.{most_waiting, Waits, CutsOff};

use crate::session::Session;
use crate::writing::write_bytes;
use fb_ports::{Failed, Sink};
use fb_preds::Selector;
use std::alloc::{AllocError, Global};

/// Where so many bytes wait, no line is put behind them, and a line of so many does not wait.
const MOST_WAITING: usize = 1 << 16;

/// Lines that wait, one behind the other.
#[derive(Drop)]
pub(crate) struct Waiting {
    pub(crate) bytes: Vec<u8>,
    /// Where each of them ends.
    pub(crate) ends: Vec<usize>,
}

impl Waiting {
    pub(crate) fn none(alloc: Global) -> Waiting
        ensures { Waits result [] }
    {
        Waiting {
            bytes: Vec::new(alloc),
            ends: Vec::new(alloc),
        }
    }

    /// Puts the line behind the others, if it is to wait and there is memory for it.
    pub(crate) fn keep(&mut self, line: &[u8]) -> bool
        ensures waits { (lines : List (List ℕ)) → Waits self.old lines
            → Waits self.new (if result then lines ++ line.now ∷ [] else lines) }
        ensures few { result ≡ true → (length self.old.bytes.items < most_waiting)
            × (length line.now < most_waiting) }
    {
        if self.bytes.len() >= MOST_WAITING || line.len() >= MOST_WAITING {
            return false;
        }
        self.add(line).is_ok()
    }

    fn add(&mut self, line: &[u8]) -> Result<(), AllocError>
        ensures { (lines : List (List ℕ)) → Waits self.old lines
            → Waits self.new (if is_ok result then lines ++ line.now ∷ [] else lines) }
    {
        self.ends.reserve(1)?;
        self.bytes.extend_from_slice(line)?;
        self.ends.push_reserved(self.bytes.len());
        Ok(())
    }

    /// How many of the lines have not gone out whole, where so many of their bytes have gone out.
    fn left_behind(&self, out: usize) -> usize
        ensures { result ≡ length self.now.ends.items
            - prefix_len (λ end. nat_le end out) self.now.ends.items }
    {
        self.ends.len() - ends_reached(self.ends.as_slice(), out)
    }

    pub(crate) fn clear(&mut self)
        ensures { Waits self.new [] }
    {
        self.bytes.clear();
        self.ends.clear();
    }
}

/// How many of these ends so many bytes reach.
fn ends_reached(ends: &[usize], out: usize) -> usize
    ensures { result ≡ prefix_len (λ end. nat_le end out) ends.now }
{
    ends.iter().take_while(|end| **end <= out).count()
}

impl<S: Selector> Session<S> {
    /// Writes the lines that wait. Where the sink fails, the places of those are dropped that it
    /// has not taken whole.
    pub fn write_waiting<O: Sink>(&mut self, sink: &mut O) -> Result<(), Failed>
        ensures rest { DiffersInWaiting self.old self.new }
        ensures places { OnOk result (KeepsPlaces self.old self.new) }
        ensures none { OnOk result (Waits (waiting_in self.new) []) }
        ensures whole { OnOk result (O.contents sink.new
            ≡ append_known (O.contents sink.old) (waiting_bytes self.old)) }
        ensures part { OnErr result ((lines : List (List ℕ)) → Waits (waiting_in self.old) lines
            → CutsOff lines (places_in self.old) (places_in self.new) (O.contents sink.old)
            (O.contents sink.new)) }
        ensures counted { Counts result (O.faults sink.old) (O.faults sink.new) }
    {
        if let Err(broken) = write_bytes(sink, self.waiting.bytes.as_slice()) {
            let left = self.waiting.left_behind(broken.out);
            self.places.truncate(self.places.len().saturating_sub(left));
            return Err(Failed);
        }
        self.waiting.clear();
        Ok(())
    }
}
