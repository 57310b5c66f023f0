//! A source of the system that is opened at its first read.
ghost use Rattle.std.specs.Prelude.{◌≡◌, ◌≤◌, true, length, IfOk, OnOk};
ghost use Rattle.fb_ports.specs.Faults.{Counts};
ghost use Rattle.live_ports.specs.Late.{unused, is_inlet_left};

use crate::LiveSource;
use fb_ports::{Failed, Source};
use io_faults::raise;
use real_ports::FileSource;
use std::marker::Model;

/// What is read from.
#[derive(Drop)]
enum Inlet {
    Named(String),
    Open(FileSource),
    HungUp,
}

impl Inlet {
    /// Opens what has a name only. The opening of a pipe waits until somebody opens it for writing.
    fn open(&mut self, rt: &HostRuntime) -> Result<(), Failed>
        ensures { is_inlet_left self.new ≡ is_inlet_left self.old }
    {
        let Inlet::Named(name) = self else {
            return Ok(());
        };
        match FileSource::open(rt, name) {
            Ok(source) => {
                *self = Inlet::Open(source);
                Ok(())
            }
            Err(_) => Err(Failed),
        }
    }

    fn read(&mut self, buf: &mut [u8]) -> Result<usize, Failed>
        ensures within { IfOk result (λ n. n ≤ length buf.old) }
        ensures same { is_inlet_left self.new ≡ is_inlet_left self.old }
    {
        match self {
            Inlet::Open(source) => source.read(buf),
            _ => Err(Failed),
        }
    }
}

/// A file that is opened when it is first read; where that fails, the next read tries again. A contract sees its count of faults, and
/// whether it was let go of.
#[derive(Drop)]
pub struct LateSource {
    rt: HostRuntime,
    inlet: Inlet,
    faults: u64,
}

impl Model for LateSource {
    ghost use Rattle.live_ports.specs.Late.{LateStream, is_inlet_left};

    ghost Value = { LateStream };

    ghost view = { λ s. record { faults = s.faults; hung_up = is_inlet_left s.inlet } };
}

impl LateSource {
    /// The file of this name, which is not opened yet.
    pub(crate) fn named(rt: HostRuntime, name: String) -> LateSource
        ensures { result ≡ unused }
    {
        LateSource {
            rt,
            inlet: Inlet::Named(name),
            faults: 0,
        }
    }

    pub(crate) fn opened(rt: HostRuntime, source: FileSource) -> LateSource
        ensures { result ≡ unused }
    {
        LateSource {
            rt,
            inlet: Inlet::Open(source),
            faults: 0,
        }
    }

    fn read_some(&mut self, buf: &mut [u8]) -> Result<usize, Failed>
        ensures within { IfOk result (λ n. n ≤ length buf.old) }
        ensures same { self.new ≡ self.old }
    {
        self.inlet.open(&self.rt)?;
        self.inlet.read(buf)
    }
}

impl Source for LateSource {
    ghost use Rattle.std.specs.Prelude.{None};

    ghost faults = { λ s. s.faults };

    ghost left = { λ _. None };

    fn faults(&self) -> u64 {
        self.faults
    }

    fn read(&mut self, buf: &mut [u8]) -> Result<usize, Failed>
        ensures within { IfOk result (λ n. n ≤ length buf.old) }
        ensures counted { Counts result self.old.faults self.new.faults }
        ensures same { self.new.hung_up ≡ self.old.hung_up }
    {
        match self.read_some(buf) {
            Ok(count) => Ok(count),
            Err(_) => {
                raise(&mut self.faults);
                Err(Failed)
            }
        }
    }
}

impl LiveSource for LateSource {
    ghost has_hung_up = { λ s. s.hung_up };

    /// The file is closed, and each read from then on fails. Standard input stays open.
    fn hang_up(&mut self)
        ensures { self.new ≡ record self.old { hung_up = true } }
    {
        self.inlet = Inlet::HungUp;
    }
}
