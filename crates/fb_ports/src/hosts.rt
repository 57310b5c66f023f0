//! What opens sources, sinks and disks by name.
ghost use Rattle.std.specs.Prelude.{◌≡◌, IfOk};
ghost use Rattle.fb_ports.specs.Faults.{CountsOpening};
ghost use Rattle.fb_ports.specs.HostSpec.{HostSpec};
ghost use Rattle.fb_ports.specs.HostCalls.{Alike, StaysButSource, StaysButSink, StaysButDisk};

use crate::{Disk, OpenFail, Sink, Source};
use std::alloc::Global;

/// The two files of a directory.
#[derive(Clone, Copy, Debug, PartialEq, Eq)]
pub enum Part {
    Log,
    Segments,
}

/// What opens sources and sinks by name, and disks by directory and part. A call for one of these changes nothing that
/// the record has of another.
pub trait Host {
    type In: Source + Send;

    type Out: Sink + Send;

    type Disk: Disk + Send;

    /// The record of all that it may hand out, and of its own faults.
    ghost spec: { Self → HostSpec };

    fn faults(&self) -> u64
        ensures { result ≡ (spec self.now).faults };

    fn source(&mut self, alloc: Global, name: &str) -> Result<Self::In, OpenFail>
        ensures bytes { IfOk result (λ s. Self.In.left s ≡ (spec self.old).sources name.now) }
        ensures count { IfOk result
            (λ s. Self.In.faults s ≡ (spec self.old).source_faults name.now) }
        ensures counted { CountsOpening result (spec self.old).faults (spec self.new).faults }
        ensures others { StaysButSource name.now (spec self.old) (spec self.new) };

    fn sink(&mut self, alloc: Global, name: &str) -> Result<Self::Out, OpenFail>
        ensures bytes { IfOk result (λ s. Self.Out.contents s ≡ (spec self.old).sinks name.now) }
        ensures count { IfOk result
            (λ s. Self.Out.faults s ≡ (spec self.old).sink_faults name.now) }
        ensures counted { CountsOpening result (spec self.old).faults (spec self.new).faults }
        ensures others { StaysButSink name.now (spec self.old) (spec self.new) };

    /// The disk of a part of a directory.
    fn disk(&mut self, alloc: Global, dir: &str, part: Part) -> Result<Self::Disk, OpenFail>
        ensures bytes { IfOk result
            (λ d. Self.Disk.bytes d ≡ (spec self.old).disks dir.now part) }
        ensures count { IfOk result
            (λ d. Self.Disk.faults d ≡ (spec self.old).disk_faults dir.now part) }
        ensures images { IfOk result
            (λ d. Alike ((spec self.old).disk_images dir.now part) (Self.Disk.images d)) }
        ensures moment { IfOk result
            (λ d. Self.Disk.moment d ≡ (spec self.old).disk_moment dir.now part) }
        ensures counted { CountsOpening result (spec self.old).faults (spec self.new).faults }
        ensures others { StaysButDisk dir.now part (spec self.old) (spec self.new) };
}
