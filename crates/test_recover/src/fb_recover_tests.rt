//! The documented log, as it is and with bytes changed, opened as a database, by itself and beside a file of segments.
use fb_disk::Disk;
use fb_memory::Memory;
use fb_merge::merged;
use fb_recover::{OpenFault, Opened, reopen};
use fb_view::Snapshot;
use mem_ports::MemDisk;
use seg_store::{SegStore, trees_of_a_lawful_history_are_storable};
use std::alloc::Global;
use std::test::Fail;
use std::thread::Threads;

/// A log of one entry, in the older format. Its record begins at byte 15, and the payload at byte 24.
pub(crate) const LOG: &[u8; 92] = &[
    0x46, 0x41, 0x43, 0x54, 0x42, 0x41, 0x53, 0x45, 0x20, 0x4c, 0x4f, 0x47, 0x20, 0x31, 0x0a, 0x01,
    0x00, 0x00, 0x00, 0x00, 0x00, 0x00, 0x00, 0x43, 0x01, 0x00, 0x00, 0x00, 0x01, 0x00, 0x00, 0x01,
    0x8c, 0xc2, 0x51, 0xf4, 0x00, 0x00, 0x00, 0x00, 0x02, 0x00, 0x00, 0x0c, 0x00, 0x00, 0x00, 0x00,
    0x01, 0x00, 0x00, 0x00, 0x00, 0x00, 0x00, 0x00, 0x08, 0x06, 0x00, 0x00, 0x01, 0x8c, 0xc2, 0x51,
    0xf4, 0x00, 0x01, 0x00, 0x00, 0x10, 0x00, 0x00, 0x00, 0x00, 0x01, 0x00, 0x00, 0x00, 0x00, 0x00,
    0x00, 0x00, 0x07, 0x02, 0x00, 0x00, 0x00, 0x02, 0x68, 0x69, 0x01, 0x00,
];

/// The places that are changed, each with its new byte, and what opening then answers: the t of the last entry, or the fault.
type Row = (&'static [(usize, u8)], Result<u32, OpenFault>);

const ROWS: &[Row] = &[
    (&[], Ok(1)),
    (&[(24, 2)], Ok(1)),
    (&[(15, 0)], Ok(0)),
    (&[(91, 7)], Ok(1)),
    (&[(0, 0)], Err(OpenFault::BadLog { nth: 0, at: 0 })),
    (&[(23, 0x44)], Err(OpenFault::BadLog { nth: 0, at: 16 })),
    (&[(23, 0x42)], Err(OpenFault::BadLog { nth: 1, at: 91 })),
    (&[(24, 9)], Err(OpenFault::BadLog { nth: 0, at: 24 })),
    (&[(57, 0)], Err(OpenFault::BadLog { nth: 0, at: 57 })),
    (&[(66, 2)], Err(OpenFault::BadLog { nth: 0, at: 66 })),
    (
        &[(24, 9), (91, 1)],
        Err(OpenFault::BadLog { nth: 1, at: 92 }),
    ),
    (
        &[(28, 2), (91, 1)],
        Err(OpenFault::BadLog { nth: 1, at: 92 }),
    ),
    (&[(28, 2)], Err(OpenFault::Unlawful { t: 1, law: 1 })),
    (
        &[(31, 0), (32, 0), (33, 0), (34, 0), (35, 0)],
        Err(OpenFault::Unlawful { t: 1, law: 2 }),
    ),
    (&[(82, 9)], Err(OpenFault::Unlawful { t: 1, law: 3 })),
    (&[(90, 0)], Err(OpenFault::Unlawful { t: 1, law: 3 })),
    (&[(83, 1)], Err(OpenFault::Unlawful { t: 1, law: 4 })),
];

pub(crate) fn changed(changes: &[(usize, u8)]) -> [u8; 92] {
    let mut log = *LOG;
    for (place, byte) in changes {
        if let Some(old) = log.get_mut(*place) {
            *old = *byte;
        }
    }
    log
}

/// More than any of these files takes.
pub(crate) const ROOM: usize = 100_000;

pub(crate) fn disk_of(alloc: Global, bytes: &[u8]) -> Result<MemDisk, Memory> {
    let mut disk = MemDisk::new(alloc, ROOM, Vec::new(alloc))?;
    match disk.write_at(0, bytes) {
        Ok(()) => Ok(disk),
        Err(_) => Err(Memory),
    }
}

/// What opening a disk with these bytes answers.
fn told(alloc: Global, bytes: &[u8]) -> Result<Result<u32, OpenFault>, Memory> {
    let log = disk_of(alloc, bytes)?;
    let segments = disk_of(alloc, &[])?;
    Ok(recovered(alloc, log, segments))
}

pub(crate) fn recovered(alloc: Global, log: MemDisk, segments: MemDisk) -> Result<u32, OpenFault> {
    match reopen(alloc, log, segments) {
        Ok(opened) => Ok(opened.recovered),
        Err(stop) => Err(stop.fault),
    }
}

#[test]
fn the_first_fault_of_a_log_is_told(rt: HostRuntime) -> Result<(), Fail> {
    for (n, (changes, expected)) in ROWS.iter().enumerate() {
        let log = changed(changes);
        let told = told(rt.alloc(), &log)?;
        assert_eq!(rt; told, *expected, "row {n}");
    }
    Ok(())
}

// ---- beside a file of segments

/// A file of segments without a record.
pub(crate) const NO_ROOTS: &[u8] = b"FACTBASE SEG 1\n\0";

/// How far the history of an opened database goes and how far its trees, and the least number that a new node may have.
pub(crate) type Reach = (u32, u32, u64);

/// What an opening answers: its reach, and the file of segments that it leaves.
#[derive(Drop)]
struct Opening {
    reach: Reach,
    segments: MemDisk,
}

/// What opening the log beside these segments answers, if it is no fault.
fn opened(alloc: Global, log: &[u8], segments: &[u8]) -> Result<Option<Opening>, Memory> {
    let log = disk_of(alloc, log)?;
    let segments = disk_of(alloc, segments)?;
    match reopen(alloc, log, segments) {
        Ok(opened) => Ok(Some(opening_of(opened))),
        Err(_) => Ok(None),
    }
}

fn opening_of(opened: Opened<MemDisk>) -> Opening {
    let store = opened.store;
    let reach = (opened.recovered, opened.covered, store.next_id());
    Opening {
        reach,
        segments: store.give_back(),
    }
}

/// Whether opening the log beside these segments answers this, and leaves this file of segments.
pub(crate) fn opens_as(
    alloc: Global,
    log: &[u8],
    segments: &[u8],
    reach: Reach,
    left: &[u8],
) -> Result<bool, Memory> {
    let opening = opened(alloc, log, segments)?;
    Ok(match &opening {
        Some(told) => told.reach == reach && told.segments.bytes() == left,
        None => false,
    })
}

/// Keeps the value's trees. It answers whether they are kept.
fn keep_own(alloc: Global, value: &Snapshot, store: &mut SegStore<MemDisk>) -> bool {
    trees_of_a_lawful_history_are_storable();
    store.keep(alloc, value.roots(), value.covered()).is_ok()
}

/// Keeps trees of all entries of the value. Each node that they don't share with the value's own trees is new.
fn keep_merged<R: Threads + Sync>(
    rt: &R,
    alloc: Global,
    value: &Snapshot,
    store: &mut SegStore<MemDisk>,
) -> bool {
    trees_of_a_lawful_history_are_storable();
    let first_id = store.next_id().max(value.roots().next_id());
    match merged(rt, alloc, value, first_id) {
        Ok(roots) => store.keep(alloc, &roots, value.basis()).is_ok(),
        Err(_) => false,
    }
}

/// Keeps the value's own trees, and so many times those of all its entries. It answers whether all are kept.
fn keep_all<R: Threads + Sync>(
    rt: &R,
    alloc: Global,
    value: &Snapshot,
    store: &mut SegStore<MemDisk>,
    times: usize,
) -> bool {
    let mut kept = keep_own(alloc, value, store);
    for _ in 0..times {
        kept = kept && keep_merged(rt, alloc, value, store);
    }
    kept
}

/// A file of segments that keeps the trees of the first entry, and so many times those of the whole documented log.
pub(crate) fn file_of<R: Threads + Sync>(
    rt: &R,
    alloc: Global,
    times: usize,
) -> Result<MemDisk, Memory> {
    let log = disk_of(alloc, LOG)?;
    let segments = disk_of(alloc, &[])?;
    let Ok(opened) = reopen(alloc, log, segments) else {
        return Err(Memory);
    };
    file_with(rt, alloc, opened, times)
}

fn file_with<R: Threads + Sync>(
    rt: &R,
    alloc: Global,
    opened: Opened<MemDisk>,
    times: usize,
) -> Result<MemDisk, Memory> {
    let mut store = opened.store;
    if keep_all(rt, alloc, opened.core.snapshot(), &mut store, times) {
        Ok(store.give_back())
    } else {
        Err(Memory)
    }
}

/// The places of the log that are changed, each with its new byte, and the reach of the opening beside a file that keeps the trees of
/// both entries. One log ends before the second entry, and one has another text in it.
///
/// The trees of the first entry have 8 nodes, a leaf and a directory for each order. Those of both entries have 7 new ones and the same
/// leaf of VAET. Of these 15 nodes 8 are theirs.
const BESIDE: &[(&[(usize, u8)], Reach)] = &[
    (&[], (1, 1, 16)),
    (&[(15, 0)], (0, 0, 16)),
    (&[(89, 0x6a)], (1, 0, 16)),
];

#[test]
fn a_kept_root_is_found_again(rt: HostRuntime) -> Result<(), Fail> {
    let disk = file_of(&rt, rt.alloc(), 1)?;
    let file = disk.bytes();
    for (n, (changes, reach)) in BESIDE.iter().enumerate() {
        let is_so = opens_as(rt.alloc(), &changed(changes), file, *reach, file)?;
        assert!(rt; is_so, "row {n}");
    }
    Ok(())
}

#[test]
fn without_a_file_of_segments_there_is_no_root(rt: HostRuntime) -> Result<(), Fail> {
    let alloc = rt.alloc();
    assert!(rt; opens_as(alloc, LOG, &[], (1, 0, 1), NO_ROOTS)?);
    let disk = file_of(&rt, alloc, 1)?;
    let other = flipped(alloc, disk.bytes(), 0)?;
    assert!(rt; opens_as(alloc, LOG, &other, (1, 0, 1), NO_ROOTS)?);
    Ok(())
}

/// Whether an opening of the documented log has this reach and makes the file shorter, and the next one leaves it as it then is.
fn starts_anew(alloc: Global, file: &[u8], reach: Reach) -> Result<bool, Memory> {
    let Some(first) = opened(alloc, LOG, file)? else {
        return Ok(false);
    };
    let left = first.segments.bytes();
    let is_left = opens_as(alloc, LOG, left, reach, left)?;
    Ok(left.len() < file.len() && first.reach == reach && is_left)
}

#[test]
fn a_file_of_mostly_dead_nodes_starts_anew(rt: HostRuntime) -> Result<(), Fail> {
    // Each time there are 7 nodes more, and the newest root has 8.
    for (times, next_id) in [(2, 23), (5, 44)] {
        let disk = file_of(&rt, rt.alloc(), times)?;
        let is_so = starts_anew(rt.alloc(), disk.bytes(), (1, 1, next_id))?;
        assert!(rt; is_so, "{times} times");
    }
    Ok(())
}

/// The file with a byte changed.
pub(crate) fn flipped(alloc: Global, file: &[u8], place: usize) -> Result<Vec<u8>, Memory> {
    let mut bytes = Vec::from_slice(alloc, file)?;
    if let Some(byte) = bytes.get_mut(place) {
        *byte ^= 1;
    }
    Ok(bytes)
}

/// The reach of an opening of the documented log beside the file with a byte changed.
fn reach_with(alloc: Global, file: &[u8], place: usize) -> Result<Reach, Memory> {
    let other = flipped(alloc, file, place)?;
    match opened(alloc, LOG, &other)? {
        Some(opening) => Ok(opening.reach),
        None => Err(Memory),
    }
}

#[test]
fn a_changed_byte_of_the_segments_is_no_fault(rt: HostRuntime) -> Result<(), Fail> {
    let alloc = rt.alloc();
    let disk = file_of(&rt, alloc, 1)?;
    let file = disk.bytes();
    let count = file.len() / 211;
    let mut newest: usize = 0;
    for nth in 0..count {
        let (recovered, covered, _) = reach_with(alloc, file, 211 * nth)?;
        assert_eq!(rt; recovered, 1, "place {nth}");
        if covered == 1 {
            newest += 1;
        }
    }
    assert_eq!(rt; (newest, count), (15, 39));
    Ok(())
}
