//! A sink of the system that is opened at its first write.
ghost use Rattle.std.specs.Prelude.{◌≡◌, ◌≤◌, ◌<◌, true, length, IfOk};
ghost use Rattle.fb_ports.specs.Faults.{Counts};
ghost use Rattle.live_ports.specs.Late.{unused, is_outlet_left};

use crate::LiveSink;
use fb_ports::{Failed, Sink};
use io_faults::raise;
use real_ports::FileSink;
use std::marker::Model;

/// What is written to.
#[derive(Drop)]
enum Outlet {
    Named(String),
    Open(FileSink),
    HungUp,
}

impl Outlet {
    /// Opens what has a name only. The opening of a pipe waits until somebody opens it for reading.
    fn open(&mut self, rt: &HostRuntime) -> Result<(), Failed>
        ensures { is_outlet_left self.new ≡ is_outlet_left self.old }
    {
        let Outlet::Named(name) = self else {
            return Ok(());
        };
        match FileSink::create(rt, name) {
            Ok(sink) => {
                *self = Outlet::Open(sink);
                Ok(())
            }
            Err(_) => Err(Failed),
        }
    }

    fn write(&mut self, piece: &[u8]) -> Result<usize, Failed>
        ensures within { IfOk result (λ n. n ≤ length piece.now) }
        ensures some { IfOk result (λ n. 0 < length piece.now → 0 < n) }
        ensures same { is_outlet_left self.new ≡ is_outlet_left self.old }
    {
        match self {
            Outlet::Open(sink) => sink.write(piece),
            _ => Err(Failed),
        }
    }
}

/// A file that is opened when it is first written to; where that fails, the next write tries again. A contract sees its count of faults,
/// and whether it was let go of.
#[derive(Drop)]
pub struct LateSink {
    rt: HostRuntime,
    outlet: Outlet,
    faults: u64,
}

impl Model for LateSink {
    ghost use Rattle.live_ports.specs.Late.{LateStream, is_outlet_left};

    ghost Value = { LateStream };

    ghost view = { λ s. record { faults = s.faults; hung_up = is_outlet_left s.outlet } };
}

impl LateSink {
    /// The file of this name, which is not opened yet.
    pub(crate) fn named(rt: HostRuntime, name: String) -> LateSink
        ensures { result ≡ unused }
    {
        LateSink {
            rt,
            outlet: Outlet::Named(name),
            faults: 0,
        }
    }

    pub(crate) fn opened(rt: HostRuntime, sink: FileSink) -> LateSink
        ensures { result ≡ unused }
    {
        LateSink {
            rt,
            outlet: Outlet::Open(sink),
            faults: 0,
        }
    }

    fn write_some(&mut self, piece: &[u8]) -> Result<usize, Failed>
        ensures within { IfOk result (λ n. n ≤ length piece.now) }
        ensures some { IfOk result (λ n. 0 < length piece.now → 0 < n) }
        ensures same { self.new ≡ self.old }
    {
        self.outlet.open(&self.rt)?;
        self.outlet.write(piece)
    }
}

impl Sink for LateSink {
    ghost use Rattle.std.specs.Prelude.{None};

    ghost faults = { λ s. s.faults };

    ghost contents = { λ _. None };

    fn faults(&self) -> u64 {
        self.faults
    }

    fn write(&mut self, piece: &[u8]) -> Result<usize, Failed>
        ensures within { IfOk result (λ n. n ≤ length piece.now) }
        ensures some { IfOk result (λ n. 0 < length piece.now → 0 < n) }
        ensures counted { Counts result self.old.faults self.new.faults }
        ensures same { self.new.hung_up ≡ self.old.hung_up }
    {
        match self.write_some(piece) {
            Ok(count) => Ok(count),
            Err(_) => {
                raise(&mut self.faults);
                Err(Failed)
            }
        }
    }
}

impl LiveSink for LateSink {
    ghost has_hung_up = { λ s. s.hung_up };

    /// The file is closed, and each write from then on fails. Standard output stays open.
    fn hang_up(&mut self)
        ensures { self.new ≡ record self.old { hung_up = true } }
    {
        self.outlet = Outlet::HungUp;
    }
}
