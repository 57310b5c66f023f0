//! A store of roots on a disk in memory: two roots are kept, and loaded again from the file, from one with a byte changed, and from
//! what a crash leaves.
ghost use Rattle.seg_store.specs.Trees.{HaveStorableDatoms};

use crate::trees::hi_trees;
use fb_disk::Disk;
use fb_memory::Memory;
use mem_ports::MemDisk;
use seg_store::{Loaded, SegStore};
use seg_tree::Roots;
use std::alloc::Global;
use std::test::Fail;

/// More than the file of two roots takes.
const ROOM: usize = 1_000;

/// A file without a record.
const NEW: &[u8] = b"FACTBASE SEG 1\n\0";

/// Keeps two roots, up to a failure, and says how many were kept.
fn keep_both(alloc: Global, store: &mut SegStore<MemDisk>, first: &Roots, second: &Roots) -> usize
    requires first { HaveStorableDatoms first.now }
    requires second { HaveStorableDatoms second.now }
{
    if store.keep(alloc, first, 1).is_err() {
        0
    } else if store.keep(alloc, second, 2).is_err() {
        1
    } else {
        2
    }
}

/// Two roots are kept on a disk, as far as it does not fail. It says how many were.
fn kept_on(alloc: Global, disk: MemDisk, first: &Roots, second: &Roots) -> (usize, MemDisk)
    requires first { HaveStorableDatoms first.now }
    requires second { HaveStorableDatoms second.now }
{
    match SegStore::load(alloc, disk) {
        Ok(Loaded { mut store, .. }) => {
            let count = keep_both(alloc, &mut store, first, second);
            (count, store.give_back())
        }
        Err(stop) => (0, stop.disk),
    }
}

/// The same on a new disk whose n-th call fails.
fn kept_on_failing(
    alloc: Global,
    n: u64,
    first: &Roots,
    second: &Roots,
) -> Result<(usize, MemDisk), Memory>
    requires first { HaveStorableDatoms first.now }
    requires second { HaveStorableDatoms second.now }
{
    let disk = MemDisk::new(alloc, ROOM, vec![in alloc; n]?)?;
    Ok(kept_on(alloc, disk, first, second))
}

/// The same with roots that share no node.
fn keep_two(alloc: Global, n: u64) -> Result<(usize, MemDisk), Memory> {
    let first = hi_trees(alloc, 1)?;
    let second = hi_trees(alloc, 3)?;
    kept_on_failing(alloc, n, &first, &second)
}

/// How many roots a file keeps, the c of the newest, the store's next id, and whether the file has no record once it was loaded.
type Told = (usize, Option<u32>, u64, bool);

fn load(alloc: Global, disk: MemDisk) -> Option<Told> {
    match SegStore::load(alloc, disk) {
        Ok(Loaded { store, kept }) => {
            let newest = kept.last().map(|root| root.c);
            let next_id = store.next_id();
            let disk = store.give_back();
            Some((kept.len(), newest, next_id, disk.bytes() == NEW))
        }
        Err(_) => None,
    }
}

#[test]
fn what_was_kept_is_loaded(rt: HostRuntime) -> Result<(), Fail> {
    let (count, disk) = keep_two(rt.alloc(), 0)?;
    assert_eq!(rt; count, 2);
    assert_eq!(rt; load(rt.alloc(), disk), Some((2, Some(2), 5, false)));
    Ok(())
}

/// A place in the file of two roots, its new byte, and what is loaded then. After a bad record and after a fault of the journal the
/// file starts anew.
const ROWS: &[(usize, u8, Told)] = &[
    (0, 0, (0, None, 1, true)),
    (15, 0, (0, None, 1, false)),
    (23, 255, (0, None, 1, true)),
    (24, 9, (0, None, 1, true)),
    (121, 0, (1, Some(1), 3, false)),
    (129, 255, (1, Some(1), 1, true)),
    (130, 9, (1, Some(1), 1, true)),
];

/// A disk with these bytes, of which one is changed.
fn changed(alloc: Global, bytes: &[u8], place: usize, byte: u8) -> Result<MemDisk, Fail> {
    let mut bytes = Vec::from_slice(alloc, bytes)?;
    if let Some(old) = bytes.get_mut(place) {
        *old = byte;
    }
    let mut disk = MemDisk::new(alloc, ROOM, Vec::new(alloc))?;
    disk.write_at(0, &bytes)?;
    Ok(disk)
}

fn load_changed(alloc: Global, bytes: &[u8], place: usize, byte: u8) -> Result<Option<Told>, Fail> {
    let disk = changed(alloc, bytes, place, byte)?;
    Ok(load(alloc, disk))
}

#[test]
fn what_stands_before_a_fault_is_loaded(rt: HostRuntime) -> Result<(), Fail> {
    let (_, disk) = keep_two(rt.alloc(), 0)?;
    for (place, byte, told) in ROWS {
        let loaded = load_changed(rt.alloc(), disk.bytes(), *place, *byte)?;
        assert_eq!(rt; loaded, Some(*told), "byte {place}");
    }
    Ok(())
}

/// A call of the disk that fails, and how many bytes of what was being written a crash leaves then.
const CRASHES: &[(u64, u64)] = &[(6, 30), (8, 0), (10, 0), (12, 0)];

/// How many roots more are loaded after the crash than were kept before the n-th call failed, unless they are fewer.
fn more_after_crash(alloc: Global, n: u64, cut: u64) -> Result<Option<usize>, Memory> {
    let (before, disk) = keep_two(alloc, n)?;
    let image = disk.image(alloc, &[cut])?;
    Ok(match load(alloc, image) {
        Some((after, ..)) => after.checked_sub(before),
        None => None,
    })
}

#[test]
fn a_crash_leaves_the_roots_that_were_kept(rt: HostRuntime) -> Result<(), Fail> {
    for (n, cut) in CRASHES {
        let more = more_after_crash(rt.alloc(), *n, *cut)?;
        assert!(rt; matches!(more, Some(0 | 1)), "call {n}");
    }
    Ok(())
}
