//! The host that opens real files, standard input and standard output.
ghost use Rattle.std.specs.Prelude.{◌≡◌, None, IfOk, IfErr, IsTrue};
ghost use Rattle.fb_ports.specs.Faults.{CountsOpening};
ghost use Rattle.fb_ports.specs.HostCalls.{Alike};
ghost use Rattle.real_ports.specs.AnyDisks.{faults_of, bytes_of, may_leave, moment_at, is_memory, held_in, may_leave_in, opened_in};

use crate::in_use::InUse;
use crate::{AnyDisk, FileSink, FileSource};
use fb_ports::{Host, OpenFail, Part};
use io_faults::raise;
use std::alloc::Global;
use std::io;
use std::marker::Model;

/// The file system, and the standard streams by the name `-`. A file that it hands out as a sink it hands out as nothing else, whatever the
/// names. Terminals, the null device and sockets are free. A contract sees its count of faults.
#[derive(Drop)]
pub struct RealHost {
    rt: HostRuntime,
    in_use: InUse,
    faults: u64,
}

impl Model for RealHost {
    ghost use Rattle.std.specs.Prelude.{ℕ};

    ghost Value = { ℕ };

    ghost view = { λ h. h.faults };
}

impl RealHost {
    pub fn new(rt: HostRuntime) -> RealHost
        ensures { result ≡ 0 }
    {
        RealHost {
            rt,
            in_use: InUse::new(),
            faults: 0,
        }
    }

    /// A source whose file is no sink.
    fn open_source(&mut self, name: &str) -> io::Result<FileSource>
        ensures count { IfOk result (λ s. s ≡ 0) }
        ensures faults { self.new ≡ self.old }
    {
        let source = FileSource::open(&self.rt, name)?;
        if let Some(node) = source.node()? {
            self.in_use.add(node)?;
        }
        Ok(source)
    }

    /// A sink whose file is nothing else that was opened. Only then is the file emptied.
    fn open_sink(&mut self, name: &str) -> io::Result<FileSink>
        ensures count { IfOk result (λ s. s ≡ 0) }
        ensures faults { self.new ≡ self.old }
    {
        let sink = FileSink::open(&self.rt, name)?;
        if let Some(node) = sink.node()? {
            self.in_use.add_sink(node)?;
        }
        sink.empty()?;
        Ok(sink)
    }
}

impl Host for RealHost {
    ghost use Rattle.real_ports.specs.AnyDisks.{held_in, may_leave_in};

    type In = FileSource;

    type Out = FileSink;

    type Disk = AnyDisk;

    ghost spec = { λ faults. record {
      sources = λ _. None;
      source_faults = λ _. 0;
      sinks = λ _. None;
      sink_faults = λ _. 0;
      disks = held_in;
      disk_faults = λ _ _. 0;
      disk_images = may_leave_in;
      disk_moment = λ _ _. 0;
      faults = faults;
    } };

    fn faults(&self) -> u64 {
        self.faults
    }

    fn source(&mut self, _alloc: Global, name: &str) -> Result<FileSource, OpenFail>
        ensures count { IfOk result (λ s. s ≡ 0) }
        ensures counted { CountsOpening result self.old self.new }

        // Opening takes no memory.
        ensures fault { IfErr result (λ e. e ≡ OpenFail.Failed) }
    {
        match self.open_source(name) {
            Ok(source) => Ok(source),
            Err(_) => {
                raise(&mut self.faults);
                Err(OpenFail::Failed)
            }
        }
    }

    fn sink(&mut self, _alloc: Global, name: &str) -> Result<FileSink, OpenFail>
        ensures count { IfOk result (λ s. s ≡ 0) }
        ensures counted { CountsOpening result self.old self.new }

        // Opening takes no memory.
        ensures fault { IfErr result (λ e. e ≡ OpenFail.Failed) }
    {
        match self.open_sink(name) {
            Ok(sink) => Ok(sink),
            Err(_) => {
                raise(&mut self.faults);
                Err(OpenFail::Failed)
            }
        }
    }

    fn disk(&mut self, alloc: Global, dir: &str, part: Part) -> Result<AnyDisk, OpenFail>
        ensures bytes { IfOk result (λ d. bytes_of d ≡ held_in dir.now part) }
        ensures count { IfOk result (λ d. faults_of d ≡ 0) }
        ensures images { IfOk result (λ d. Alike (may_leave_in dir.now part) (may_leave d)) }
        ensures moment { IfOk result (λ d. moment_at d ≡ 0) }
        ensures counted { CountsOpening result self.old self.new }

        ensures opened { IfOk result (λ d. d ≡ opened_in dir.now) }

        // In memory only memory can be wanting.
        ensures in_memory { IsTrue (is_memory dir.now) → IfErr result (λ e. e ≡ OpenFail.Memory) }
    {
        match AnyDisk::open(&self.rt, &mut self.in_use, alloc, dir, part) {
            Err(OpenFail::Failed) => {
                raise(&mut self.faults);
                Err(OpenFail::Failed)
            }
            other => other,
        }
    }
}
