//! The documented log copied to targets of several kinds, and reopened from the copy.
use crate::fb_recover_tests::{
    LOG, NO_ROOTS, ROOM, changed, disk_of, file_of, opens_as, recovered,
};
use fb_backup::{BackupFault, backup, copy_roots_if_new};
use fb_disk::Disk;
use fb_memory::Memory;
use fb_recover::reopen;
use fb_view::Snapshot;
use mem_ports::MemDisk;
use std::alloc::Global;
use std::test::Fail;

/// A log without a record.
const NO_ENTRIES: &[u8] = b"FACTBASE LOG 1\n\0";

/// The database value of a log beside a file of segments.
fn value_of(alloc: Global, log: &[u8], segments: &[u8]) -> Result<Snapshot, Memory> {
    let log = disk_of(alloc, log)?;
    let segments = disk_of(alloc, segments)?;
    match reopen(alloc, log, segments) {
        Ok(opened) => opened.core.snapshot().share(),
        Err(_) => Err(Memory),
    }
}

/// How many entries a backup copies, or why it stops, and the target's bytes after it.
#[derive(Drop)]
struct Outcome {
    copied: Result<u32, BackupFault>,
    target: MemDisk,
}

fn told(alloc: Global, value: &Snapshot, target: MemDisk) -> Outcome {
    match backup(alloc, value, target) {
        Ok(backed) => Outcome {
            copied: Ok(backed.copied),
            target: backed.log,
        },
        Err(stop) => Outcome {
            copied: Err(stop.fault),
            target: stop.log,
        },
    }
}

/// The places of the documented log that are changed in the target, each with its new byte, and what a backup of that log then
/// answers. Byte 15 is the gate of its one record, and byte 91 the next gate.
type Row = (&'static [(usize, u8)], Result<u32, BackupFault>);

const ROWS: &[Row] = &[
    (&[], Ok(0)),
    (&[(24, 2)], Ok(0)),
    (&[(91, 7)], Ok(0)),
    (&[(15, 0)], Ok(1)),
    (&[(0, 0)], Err(BackupFault::BadLog { nth: 0, at: 0 })),
    (&[(23, 0x44)], Err(BackupFault::BadLog { nth: 0, at: 16 })),
    (&[(23, 0x42)], Err(BackupFault::BadLog { nth: 1, at: 91 })),
    (&[(24, 9)], Err(BackupFault::BadLog { nth: 0, at: 24 })),
    (&[(57, 0)], Err(BackupFault::BadLog { nth: 0, at: 57 })),
    (&[(66, 2)], Err(BackupFault::BadLog { nth: 0, at: 66 })),
    (
        &[(24, 9), (91, 1)],
        Err(BackupFault::BadLog { nth: 1, at: 92 }),
    ),
    (
        &[(89, 0x6f), (91, 1)],
        Err(BackupFault::BadLog { nth: 1, at: 92 }),
    ),
    (&[(28, 2)], Err(BackupFault::Other { t: 1 })),
    (&[(32, 0x8d)], Err(BackupFault::Other { t: 1 })),
    (&[(74, 2)], Err(BackupFault::Other { t: 1 })),
    (&[(82, 9)], Err(BackupFault::Other { t: 1 })),
    (&[(83, 1)], Err(BackupFault::Other { t: 1 })),
    (&[(89, 0x6f)], Err(BackupFault::Other { t: 1 })),
    (&[(90, 0)], Err(BackupFault::Other { t: 1 })),
];

#[test]
fn a_target_is_a_beginning_or_refused(rt: HostRuntime) -> Result<(), Fail> {
    let alloc = rt.alloc();
    let value = value_of(alloc, LOG, &[])?;
    for (n, (changes, expected)) in ROWS.iter().enumerate() {
        let target = disk_of(alloc, &changed(changes))?;
        let told = told(alloc, &value, target);
        assert_eq!(rt; told.copied, *expected, "row {n}");
    }
    Ok(())
}

#[test]
fn a_longer_target_is_refused(rt: HostRuntime) -> Result<(), Fail> {
    let alloc = rt.alloc();
    let value = value_of(alloc, NO_ENTRIES, &[])?;
    let told = told(alloc, &value, disk_of(alloc, LOG)?);
    assert_eq!(rt; told.copied, Err(BackupFault::Other { t: 1 }));
    Ok(())
}

#[test]
fn a_new_target_gets_the_written_format(rt: HostRuntime) -> Result<(), Fail> {
    let alloc = rt.alloc();
    let value = value_of(alloc, LOG, &[])?;
    let copy = changed(&[(24, 2)]);
    for (n, target) in [&[], NO_ENTRIES].iter().enumerate() {
        let first = told(alloc, &value, disk_of(alloc, target)?);
        assert_eq!(rt; first.copied, Ok(1), "target {n}");
        assert!(rt; first.target.bytes() == copy.as_slice(), "target {n}");
        let again = told(alloc, &value, first.target);
        assert_eq!(rt; again.copied, Ok(0), "target {n}");
        assert!(rt; again.target.bytes() == copy.as_slice(), "target {n}");
    }
    Ok(())
}

// ---- stops

/// So many entries a backup copies here.
const ENTRIES: u8 = 4;

/// A log of entries that have their own instant alone, in the older format.
fn long_log(alloc: Global) -> Result<Vec<u8>, Memory> {
    let mut log = Vec::from_slice(alloc, b"FACTBASE LOG 1\n")?;
    for t in 1..ENTRIES + 1 {
        log.extend_from_slice(&record(t))?;
    }
    log.push(0)?;
    Ok(log)
}

/// An open gate, a length of 43, and the entry of this t.
fn record(t: u8) -> [u8; 52] {
    [
        1, 0, 0, 0, 0, 0, 0, 0, 43, 1, 0, 0, 0, t, 0, 0, 1, 0x8c, 0xc2, 0x51, 0xf4, t, 0, 0, 0, 1,
        0, 0, 0x0c, 0, 0, 0, 0, t, 0, 0, 0, 0, 0, 0, 0, 8, 6, 0, 0, 1, 0x8c, 0xc2, 0x51, 0xf4, t,
        1,
    ]
}

/// A new log takes a sync, a write and a sync, and each entry two writes and two syncs. What is read comes besides.
const LEAST_CALLS: u64 = 19;

/// A new disk whose call of this number fails.
fn failing_at(alloc: Global, call: u64) -> Result<MemDisk, Memory> {
    let fails = Vec::from_slice(alloc, &[call])?;
    MemDisk::new(alloc, ROOM, fails)
}

/// The least and the greatest number of entries with which an image of a target opens. Its last write is cut off at its first byte,
/// within its length, at its middle, or not.
fn opens_within(alloc: Global, target: &MemDisk) -> Result<(u32, u32), Memory> {
    let mut least = u32::MAX;
    let mut most = 0;
    for cut in [0, 8, 26, 52] {
        let image = target.image(alloc, &[cut])?;
        let segments = disk_of(alloc, &[])?;
        let t = match recovered(alloc, image, segments) {
            Ok(t) => t,
            Err(_) => u32::MAX,
        };
        least = least.min(t);
        most = most.max(t);
    }
    Ok((least, most))
}

#[test]
fn a_stop_leaves_a_beginning(rt: HostRuntime) -> Result<(), Fail> {
    let alloc = rt.alloc();
    let log = long_log(alloc)?;
    let value = value_of(alloc, &log, &[])?;
    let mut reached = 0;
    for call in 1..48 {
        let told = told(alloc, &value, failing_at(alloc, call)?);
        let is_needed = call <= LEAST_CALLS;
        assert!(rt;
            !is_needed || told.copied == Err(BackupFault::Disk),
            "call {call}"
        );
        let (least, most) = opens_within(alloc, &told.target)?;
        // With each call more that was made, no fewer entries are there, and one more at most.
        assert!(rt; reached <= least && most <= 4, "call {call}");
        assert!(rt; most <= least.saturating_add(1), "call {call}");
        reached = least;
    }
    assert_eq!(rt; reached, 4);
    Ok(())
}

// ---- trees

/// A copy of the value's trees, made of a target with these bytes.
fn copied(alloc: Global, value: &Snapshot, target: &[u8]) -> Result<MemDisk, Memory> {
    match copy_roots_if_new(alloc, value, disk_of(alloc, target)?) {
        Ok(copy) => Ok(copy),
        Err(_) => Err(Memory),
    }
}

#[test]
fn a_copy_keeps_the_newest_trees_alone(rt: HostRuntime) -> Result<(), Fail> {
    let alloc = rt.alloc();
    let file = file_of(&rt, alloc, 1)?;
    let value = value_of(alloc, LOG, file.bytes())?;
    for (n, target) in [&[], NO_ROOTS].iter().enumerate() {
        let copy = copied(alloc, &value, target)?;
        assert!(rt; copy.bytes().len() < file.bytes().len(), "target {n}");
        assert!(rt;
            opens_as(alloc, LOG, copy.bytes(), (1, 1, 16), copy.bytes())?,
            "target {n}"
        );
        let again = copied(alloc, &value, copy.bytes())?;
        assert!(rt; again.bytes() == copy.bytes(), "target {n}");
    }
    Ok(())
}

#[test]
fn a_file_with_records_is_left_as_it_is(rt: HostRuntime) -> Result<(), Fail> {
    let alloc = rt.alloc();
    let value = value_of(alloc, LOG, &[])?;
    let left = copied(alloc, &value, &[7; 17])?;
    assert!(rt; left.bytes() == [7; 17].as_slice());
    Ok(())
}
