//! Copies of a database that goes on.
use anyhow::{Result, bail};
use fb_backup::backup;
use fb_disk::Disk;
use fb_recover::reopen;
use fb_view::Snapshot;
use mem_ports::MemDisk;
use std::alloc::Global;

/// No copy here comes near it.
const ROOM: usize = 4_096;

/// What a copy of the snapshot's log is opened as.
pub(crate) fn copied(alloc: Global, snapshot: &Snapshot) -> Result<Snapshot> {
    match backup(alloc, snapshot, disk(alloc, &[])?) {
        Ok(copy) => opened(alloc, copy.log.bytes()),
        Err(_) => bail!("a copy is not made"),
    }
}

fn opened(alloc: Global, log: &[u8]) -> Result<Snapshot> {
    let log = disk(alloc, log)?;
    let segments = disk(alloc, &[])?;
    match reopen(alloc, log, segments) {
        Ok(opened) => Ok(opened.core.snapshot().share()?),
        Err(_) => bail!("a copy does not open"),
    }
}

fn disk(alloc: Global, bytes: &[u8]) -> Result<MemDisk> {
    let mut disk = MemDisk::new(alloc, ROOM, Vec::new(alloc))?;
    disk.write_at(0, bytes)?;
    Ok(disk)
}
