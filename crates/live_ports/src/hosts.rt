//! The host of live sessions.
ghost use Rattle.std.specs.Prelude.{◌≡◌, None, IfOk, IfErr, IsTrue};
ghost use Rattle.fb_ports.specs.Faults.{CountsOpening};
ghost use Rattle.fb_ports.specs.HostCalls.{Alike};
ghost use Rattle.fb_ports.specs.declared.fails.OpenFail.{OpenFail};
ghost use Rattle.real_ports.specs.AnyDisks.{faults_of, bytes_of, may_leave, moment_at, is_memory, held_in, may_leave_in, opened_in};
ghost use Rattle.live_ports.specs.Late.{unused};

use crate::{LateSink, LateSource};
use fb_ports::{Host, OpenFail, Part};
use io_faults::raise;
use real_ports::{AnyDisk, RealHost};
use std::alloc::Global;
use std::fs;
use std::marker::Model;
use std::os::unix::fs::FileTypeExt;

/// The name of standard input and standard output.
const STANDARD: &str = "-";

/// Named pipes as sources and sinks, and the standard streams by the name `-`; the disks are those of a `RealHost`. A pipe is opened when it
/// is first used, in the thread that uses it. A contract sees its count of faults.
#[derive(Drop)]
pub struct LiveHost {
    rt: HostRuntime,
    real: RealHost,
    faults: u64,
}

impl Model for LiveHost {
    ghost use Rattle.std.specs.Prelude.{ℕ};

    ghost Value = { ℕ };

    ghost view = { λ h. h.faults };
}

impl LiveHost {
    pub fn new(rt: HostRuntime) -> LiveHost
        ensures { result ≡ 0 }
    {
        LiveHost {
            rt,
            real: RealHost::new(rt),
            faults: 0,
        }
    }

    fn late_source(&mut self, alloc: Global, name: &str) -> Result<LateSource, OpenFail>
        ensures unused { IfOk result (λ s. s ≡ unused) }
        ensures faults { self.new ≡ self.old }
    {
        if name == STANDARD {
            let source = self.real.source(alloc, name)?;
            return Ok(LateSource::opened(self.rt, source));
        }
        Ok(LateSource::named(self.rt, pipe_name(&self.rt, alloc, name)?))
    }

    fn late_sink(&mut self, alloc: Global, name: &str) -> Result<LateSink, OpenFail>
        ensures unused { IfOk result (λ s. s ≡ unused) }
        ensures faults { self.new ≡ self.old }
    {
        if name == STANDARD {
            let sink = self.real.sink(alloc, name)?;
            return Ok(LateSink::opened(self.rt, sink));
        }
        Ok(LateSink::named(self.rt, pipe_name(&self.rt, alloc, name)?))
    }
}

/// A name that leads to a named pipe. With any other it fails, so that no name of a client's can empty a file.
fn pipe_name(rt: &HostRuntime, alloc: Global, name: &str) -> Result<String, OpenFail> {
    match fs::metadata(rt, name) {
        Ok(found) if found.file_type().is_fifo() => {}
        _ => return Err(OpenFail::Failed),
    }
    match String::from_str(alloc, name) {
        Ok(kept) => Ok(kept),
        Err(_) => Err(OpenFail::Memory),
    }
}

impl Host for LiveHost {
    ghost use Rattle.real_ports.specs.AnyDisks.{held_in, may_leave_in};

    type In = LateSource;

    type Out = LateSink;

    type Disk = AnyDisk;

    ghost spec = { λ faults. record {
      sources = λ _. None;
      source_faults = λ _. 0;
      sinks = λ _. None;
      sink_faults = λ _. 0;
      disks = held_in;
      disk_faults = λ _ _. 0;
      disk_images = may_leave_in;
      disk_moment = λ _ _. 0;
      faults = faults;
    } };

    fn faults(&self) -> u64 {
        self.faults
    }

    fn source(&mut self, alloc: Global, name: &str) -> Result<LateSource, OpenFail>
        ensures unused { IfOk result (λ s. s ≡ unused) }
        ensures counted { CountsOpening result self.old self.new }
    {
        match self.late_source(alloc, name) {
            Err(OpenFail::Failed) => {
                raise(&mut self.faults);
                Err(OpenFail::Failed)
            }
            other => other,
        }
    }

    fn sink(&mut self, alloc: Global, name: &str) -> Result<LateSink, OpenFail>
        ensures unused { IfOk result (λ s. s ≡ unused) }
        ensures counted { CountsOpening result self.old self.new }
    {
        match self.late_sink(alloc, name) {
            Err(OpenFail::Failed) => {
                raise(&mut self.faults);
                Err(OpenFail::Failed)
            }
            other => other,
        }
    }

    fn disk(&mut self, alloc: Global, dir: &str, part: Part) -> Result<AnyDisk, OpenFail>
        ensures bytes { IfOk result (λ d. bytes_of d ≡ held_in dir.now part) }
        ensures count { IfOk result (λ d. faults_of d ≡ 0) }
        ensures images { IfOk result (λ d. Alike (may_leave_in dir.now part) (may_leave d)) }
        ensures moment { IfOk result (λ d. moment_at d ≡ 0) }
        ensures counted { CountsOpening result self.old self.new }

        ensures opened { IfOk result (λ d. d ≡ opened_in dir.now) }

        // In memory only memory can be wanting.
        ensures in_memory { IsTrue (is_memory dir.now) → IfErr result (λ e. e ≡ OpenFail.Memory) }
    {
        match self.real.disk(alloc, dir, part) {
            Err(OpenFail::Failed) => {
                raise(&mut self.faults);
                Err(OpenFail::Failed)
            }
            other => other,
        }
    }
}
