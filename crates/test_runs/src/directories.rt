//! A directory in memory: a log and its segments, each on a disk of which a call may fail.
use anyhow::Result;
use fb_disk::Disk;
use fb_ports::Part;
use mem_ports::{MemDisk, MemHost};
use std::alloc::Global;

/// The name that it has in a host.
pub(crate) const DIRECTORY: &str = "db";

/// No disk here comes near it.
const ROOM: usize = 65_536;

/// So many calls put its bytes onto a disk.
const CALLS_TO_FILL: u64 = 2;

/// What a directory has.
#[derive(Drop)]
pub(crate) struct Parts {
    pub(crate) log: MemDisk,
    pub(crate) segments: MemDisk,
}

impl Parts {
    /// A log of these bytes, and no segments.
    pub(crate) fn of(alloc: Global, log: &[u8]) -> Result<Parts> {
        Parts::with_log(alloc, disk(alloc, log, None)?)
    }

    /// A log, and no segments.
    pub(crate) fn with_log(alloc: Global, log: MemDisk) -> Result<Parts> {
        let segments = disk(alloc, &[], None)?;
        Ok(Parts { log, segments })
    }
}

/// The bytes that a directory has.
#[derive(Clone, Copy)]
pub(crate) struct Contents<'a> {
    pub(crate) log: &'a [u8],
    pub(crate) segments: &'a [u8],
}

impl Contents<'_> {
    /// Disks with these bytes, no call of which fails.
    pub(crate) fn parts(&self, alloc: Global) -> Result<Parts> {
        Ok(Parts {
            log: disk(alloc, self.log, None)?,
            segments: disk(alloc, self.segments, None)?,
        })
    }
}

/// A disk with these bytes. The call with this number fails, from 1 on.
pub(crate) fn disk(alloc: Global, bytes: &[u8], failing: Option<u64>) -> Result<MemDisk> {
    let mut disk = MemDisk::new(alloc, ROOM, failing_calls(alloc, failing)?)?;
    fill(&mut disk, bytes)?;
    Ok(disk)
}

/// The numbers of the calls that fail, among which the calls that put the bytes onto the disk come first.
fn failing_calls(alloc: Global, failing: Option<u64>) -> Result<Vec<u64>> {
    let mut calls = Vec::new(alloc);
    if let Some(call) = failing {
        calls.push(call.saturating_add(CALLS_TO_FILL))?;
    }
    Ok(calls)
}

fn fill(disk: &mut MemDisk, bytes: &[u8]) -> Result<()> {
    disk.write_at(0, bytes)?;
    disk.sync()?;
    Ok(())
}

/// A host that has the directory.
pub(crate) fn host_with(alloc: Global, parts: Parts) -> Result<MemHost> {
    let mut host = MemHost::new(alloc);
    add_parts(&mut host, parts)?;
    Ok(host)
}

fn add_parts(host: &mut MemHost, parts: Parts) -> Result<()> {
    let Parts { log, segments } = parts;
    host.add_disk(DIRECTORY, Part::Log, log)?;
    host.add_disk(DIRECTORY, Part::Segments, segments)?;
    Ok(())
}
