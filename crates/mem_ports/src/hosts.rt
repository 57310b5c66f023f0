//! A host in memory: sources, sinks and disks under the names that its maker gave them.
ghost use Rattle.std.specs.Prelude.{◌≡◌, ℕ, List, [], None, Some, IfOk, IfErr, OnOk, OnErr};
ghost use Rattle.std.specs.Result.{result_ok};
ghost use Rattle.mem_ports.specs.MemDisks.{known_bytes, images_of, moment_of};
ghost use Rattle.mem_ports.specs.Calls.{no_calls};
ghost use Rattle.mem_ports.specs.MemHosts.{handed_of};
ghost use Rattle.fb_ports.specs.Faults.{CountsOpening, raised};
ghost use Rattle.fb_ports.specs.HostCalls.{Same, SameBut, SameParts, SameButPart, Alike, StaysButSource, StaysButDisk};
ghost use Rattle.fb_ports.specs.declared.hosts.Part.{Part};

use crate::{MemDisk, MemSink, MemSource};
use fb_memory::Memory;
use fb_ports::{Host, OpenFail, Part};
use io_faults::raise;
use std::alloc::Global;
use std::collections::BTreeMap;

/// The room of a sink or a disk that a host in memory makes: 64 MiB.
const ROOM: usize = 67_108_864;

/// A host in memory. Its sources and disks are those that were added, each of which it hands out once. A sink of any name
/// is made empty as it is asked for, and so is a disk that was not added.
#[derive(Drop)]
pub struct MemHost {
    alloc: Global,
    sources: BTreeMap<String, MemSource>,
    logs: BTreeMap<String, MemDisk>,
    segments: BTreeMap<String, MemDisk>,
    faults: u64,
}

impl MemHost {
    ghost use Rattle.mem_ports.specs.MemHosts.{source_at, disk_at, host_faults};

    pub fn new(alloc: Global) -> MemHost
        ensures empty { (name : List ℕ) → source_at result name ≡ None }
        ensures no_disk { (dir : List ℕ) (part : Part) → disk_at result dir part ≡ None }
        ensures faults { host_faults result ≡ 0 }
    {
        MemHost {
            alloc,
            sources: BTreeMap::new(alloc),
            logs: BTreeMap::new(alloc),
            segments: BTreeMap::new(alloc),
            faults: 0,
        }
    }

    /// A source that was added under this name before and not handed out is dropped.
    pub fn add_source(&mut self, name: &str, s: MemSource) -> Result<(), Memory>
        ensures added { OnOk result (source_at self.new name.now ≡ Some s) }
        ensures others { SameBut name.now (source_at self.old) (source_at self.new) }
        ensures err { OnErr result (Same (source_at self.old) (source_at self.new)) }
        ensures disks { SameParts (disk_at self.old) (disk_at self.new) }
        ensures faults { host_faults self.new ≡ host_faults self.old }
    {
        let key = String::from_str(self.alloc, name)?;
        self.sources.insert(key, s)?;
        Ok(())
    }

    /// A disk that was added for this part of the directory before and not handed out is dropped.
    pub fn add_disk(&mut self, dir: &str, part: Part, d: MemDisk) -> Result<(), Memory>
        ensures added { OnOk result (disk_at self.new dir.now part ≡ Some d) }
        ensures others { SameButPart dir.now part (disk_at self.old) (disk_at self.new) }
        ensures err { OnErr result (SameParts (disk_at self.old) (disk_at self.new)) }
        ensures sources { Same (source_at self.old) (source_at self.new) }
        ensures faults { host_faults self.new ≡ host_faults self.old }
    {
        let key = String::from_str(self.alloc, dir)?;
        match part {
            Part::Log => {
                self.logs.insert(key, d)?;
                Ok(())
            }
            Part::Segments => {
                self.segments.insert(key, d)?;
                Ok(())
            }
        }
    }

    /// The disk that was added for this part, which is then no longer there.
    fn take_disk(&mut self, dir: &str, part: Part) -> Option<MemDisk>
        ensures taken { result ≡ disk_at self.old dir.now part }
        ensures others { SameButPart dir.now part (disk_at self.old) (disk_at self.new) }
        ensures sources { Same (source_at self.old) (source_at self.new) }
        ensures faults { host_faults self.new ≡ host_faults self.old }
    {
        match part {
            Part::Log => self.logs.remove(dir),
            Part::Segments => self.segments.remove(dir),
        }
    }
}

impl Host for MemHost {
    type In = MemSource;

    type Out = MemSink;

    type Disk = MemDisk;

    ghost use Rattle.mem_ports.specs.MemHosts.{source_at, left_at, faults_at, disk_at, handed_at, held_at, disk_faults_at, images_at, moment_at, host_faults, spec_of};

    ghost spec = { spec_of };

    fn faults(&self) -> u64 {
        self.faults
    }

    fn source(&mut self, _alloc: Global, name: &str) -> Result<MemSource, OpenFail>
        ensures bytes { IfOk result (λ s. Some s.left ≡ left_at self.old name.now) }
        ensures count { IfOk result (λ s. s.calls.faults ≡ faults_at self.old name.now) }
        ensures others { StaysButSource name.now (spec_of self.old) (spec_of self.new) }
        ensures parts { SameParts (disk_at self.old) (disk_at self.new) }
        ensures counted { CountsOpening result (host_faults self.old) (host_faults self.new) }

        // The source that was added is handed out once, and only a name without one fails.
        ensures handed { result_ok result ≡ source_at self.old name.now }
        ensures gone { source_at self.new name.now ≡ None }
        ensures kept { SameBut name.now (source_at self.old) (source_at self.new) }
        ensures fault { IfErr result (λ e. e ≡ OpenFail.Failed) }
        ensures by_one { OnErr result (host_faults self.new ≡ raised (host_faults self.old)) }
    {
        match self.sources.remove(name) {
            Some(s) => Ok(s),
            None => {
                raise(&mut self.faults);
                Err(OpenFail::Failed)
            }
        }
    }

    fn sink(&mut self, alloc: Global, _name: &str) -> Result<MemSink, OpenFail>
        ensures empty { IfOk result
            (λ s. s ≡ record { bytes = []; room = 67_108_864; calls = no_calls [] }) }
        ensures unchanged { self.new ≡ self.old }
        ensures memory { IfErr result (λ e. e ≡ OpenFail.Memory) }
    {
        let fails = Vec::new(alloc);
        Ok(MemSink::new(alloc, ROOM, fails)?)
    }

    fn disk(&mut self, alloc: Global, dir: &str, part: Part) -> Result<MemDisk, OpenFail>
        ensures bytes { IfOk result (λ d. known_bytes d ≡ held_at self.old dir.now part) }
        ensures count { IfOk result (λ d. d.calls.faults ≡ disk_faults_at self.old dir.now part) }
        ensures images { IfOk result (λ d. Alike (images_at self.old dir.now part) (images_of d)) }
        ensures moment { IfOk result (λ d. moment_of d ≡ moment_at self.old dir.now part) }
        ensures others { StaysButDisk dir.now part (spec_of self.old) (spec_of self.new) }
        ensures counted { CountsOpening result (host_faults self.old) (host_faults self.new) }

        // The disk that was added is handed out once, and else an empty one is made.
        ensures handed { IfOk result (λ d. d ≡ handed_at self.old dir.now part) }
        ensures kept { SameButPart dir.now part (disk_at self.old) (disk_at self.new) }
        ensures memory { IfErr result (λ e. e ≡ OpenFail.Memory) }
    {
        let added = self.take_disk(dir, part);
        handed_out(alloc, added)
    }
}

/// The disk that was added, or an empty one.
fn handed_out(alloc: Global, added: Option<MemDisk>) -> Result<MemDisk, OpenFail>
    ensures handed { IfOk result (λ d. d ≡ handed_of added) }
    ensures memory { IfErr result (λ e. e ≡ OpenFail.Memory) }
{
    match added {
        Some(d) => Ok(d),
        None => Ok(MemDisk::new(alloc, ROOM, Vec::new(alloc))?),
    }
}
