//! The newest root of a file of segments, loaded without the leaves that only older roots have.
use crate::fb_recover_tests::{NO_ROOTS, ROOM, disk_of, file_of, flipped};
use fb_disk::Disk;
use fb_memory::Memory;
use mem_ports::MemDisk;
use seg_store::{Loaded, Newest, NewestRoot, SegStore};
use seg_tree::{Roots, Tree};
use std::alloc::Global;
use std::test::Fail;

/// How far the newest root goes, how many datoms its leaves have, tree by tree, and the store's next id.
type Told = (u32, [usize; 4], u64);

fn datoms_in(alloc: Global, tree: &Tree) -> Result<usize, Memory> {
    let leaves = tree.leaves(alloc)?;
    let mut count: usize = 0;
    for leaf in leaves.iter() {
        count = count.saturating_add(leaf.datoms().len());
    }
    Ok(count)
}

fn counts_of(alloc: Global, roots: &Roots) -> Result<[usize; 4], Memory> {
    Ok([
        datoms_in(alloc, &roots.eavt)?,
        datoms_in(alloc, &roots.aevt)?,
        datoms_in(alloc, &roots.avet)?,
        datoms_in(alloc, &roots.vaet)?,
    ])
}

/// What is told of a file all of whose roots are loaded.
fn told_of_all(alloc: Global, disk: MemDisk) -> Result<Option<Told>, Memory> {
    let Ok(Loaded { store, kept }) = SegStore::load(alloc, disk) else {
        return Err(Memory);
    };
    match kept.last() {
        Some(trees) => {
            let counts = counts_of(alloc, &trees.roots)?;
            Ok(Some((trees.c, counts, store.next_id())))
        }
        None => Ok(None),
    }
}

/// What is told of a file whose newest root is loaded alone.
fn told_alone(alloc: Global, disk: MemDisk) -> Result<Option<Told>, Memory> {
    match SegStore::load_newest(alloc, disk) {
        Ok(Newest::Root(NewestRoot { store, trees })) => {
            let counts = counts_of(alloc, &trees.roots)?;
            Ok(Some((trees.c, counts, store.next_id())))
        }
        Ok(Newest::Whole(_)) => Ok(None),
        Err(_) => Err(Memory),
    }
}

#[test]
fn the_newest_root_is_loaded_alone(rt: HostRuntime) -> Result<(), Fail> {
    let alloc = rt.alloc();
    for times in 0..4 {
        let disk = file_of(&rt, alloc, times)?;
        let all = told_of_all(alloc, disk_of(alloc, disk.bytes())?)?;
        let alone = told_alone(alloc, disk)?;
        assert!(rt; all.is_some() && alone == all, "{times} times");
    }
    Ok(())
}

/// Files without a record: an empty one, one that was cut short, and a new one.
const WITHOUT: &[&[u8]] = &[b"", b"FACT", NO_ROOTS];

#[test]
fn a_file_with_a_fault_or_no_root_is_loaded_whole(rt: HostRuntime) -> Result<(), Fail> {
    let alloc = rt.alloc();
    for file in WITHOUT {
        assert_eq!(rt; told_alone(alloc, disk_of(alloc, file)?)?, None);
    }
    let disk = file_of(&rt, alloc, 1)?;
    let other = flipped(alloc, disk.bytes(), 24)?;
    assert_eq!(rt; told_alone(alloc, disk_of(alloc, &other)?)?, None);
    Ok(())
}

/// Whether the newest root of a file is loaded where the call of this number fails.
fn loads_despite(alloc: Global, file: &[u8], fails: u64) -> Result<bool, Memory> {
    let mut disk = MemDisk::new(alloc, ROOM, vec![in alloc; fails; 1]?)?;
    if disk.write_at(0, file).is_err() {
        return Ok(false);
    }
    let loaded = SegStore::load_newest(alloc, disk);
    Ok(loaded.is_ok())
}

/// The calls of the disk until a file without a record is loaded: the one that writes the file, a sync and its length, its mark and a
/// sync, and a look at its gate.
const LOADED: u64 = 6;

#[test]
fn a_file_without_a_record_is_opened_once(rt: HostRuntime) -> Result<(), Fail> {
    for file in WITHOUT {
        assert!(rt; !loads_despite(rt.alloc(), file, LOADED)?);
        assert!(rt; loads_despite(rt.alloc(), file, LOADED + 1)?);
    }
    Ok(())
}
