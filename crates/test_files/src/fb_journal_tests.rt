//! A journal in a file of the system, whose bytes no contract knows, and one that is begun again.
use fb_disk::Disk;
use fb_journal::{Framed, Journal, Mark, Reading, frame, frame_in};
use fb_memory::Memory;
use fb_ports::{Host, Part};
use mem_ports::MemDisk;
use real_ports::RealHost;
use std::alloc::Global;
use std::test::Fail;

const PAYLOADS: &[&[u8]] = &[b"hi", b"", b"x"];

/// A log of these three payloads as it is documented: the mark, the gate of record 0, and for each record the length, the payload and
/// the next gate, of which the last is closed.
const FILE: &str =
    "FACTBASE LOG 1\n\x01\0\0\0\0\0\0\0\x02hi\x01\0\0\0\0\0\0\0\0\x01\0\0\0\0\0\0\0\x01x\0";

/// Begins a log in the directory, and adds a record for each payload. It says whether all calls succeed.
fn add_all<H: Host>(host: &mut H, alloc: Global, dir: &str) -> Result<bool, Memory> {
    let Ok(disk) = host.disk(alloc, dir, Part::Log) else {
        return Ok(false);
    };
    let Ok(mut journal) = Journal::anew(disk, Mark::Log) else {
        return Ok(false);
    };
    for payload in PAYLOADS {
        let framed = frame(alloc, payload)?;
        if journal.append(&framed).is_err() {
            return Ok(false);
        }
    }
    Ok(true)
}

#[test]
fn a_log_in_a_file_has_the_documented_bytes(rt: HostRuntime) -> Result<(), Fail> {
    std::fs::create_dir(&rt, "journal")?;
    let mut host = RealHost::new(rt);
    assert!(rt; add_all(&mut host, rt.alloc(), "journal")?);
    let file = std::fs::read_to_string(&rt, "journal/log")?;
    assert_eq!(rt; file.as_str(), FILE);
    std::fs::remove_file(&rt, "journal/log")?;
    std::fs::remove_dir(&rt, "journal")?;
    Ok(())
}

/// Adds a record to a journal, empties it and adds two more. It says whether each call succeeds.
fn is_reset_and_goes_on(journal: &mut Journal<MemDisk>, framed: &Framed) -> bool {
    journal.append(framed).is_ok()
        && journal.reset().is_ok()
        && journal.append(framed).is_ok()
        && journal.append(framed).is_ok()
}

/// How many records the log of the disk has, if there are fewer than ten.
fn count_in(alloc: Global, disk: MemDisk) -> Option<u32> {
    let Ok(mut reading) = Journal::open(alloc, disk, Mark::Log) else {
        return None;
    };
    let mut payload = Vec::new(alloc);
    for count in 0..10 {
        match reading.next(&mut payload) {
            Ok(Some(_)) => {}
            Ok(None) => return Some(count),
            Err(_) => return None,
        }
    }
    None
}

/// How many records a journal has that is begun and emptied, and goes on, and is given back and read.
fn count_after_a_reset(alloc: Global) -> Result<Option<u32>, Memory> {
    let framed = frame(alloc, b"hi")?;
    let disk = MemDisk::new(alloc, 1_000, Vec::new(alloc))?;
    let Ok(mut journal) = Journal::anew(disk, Mark::Log) else {
        return Ok(None);
    };
    let is_added = is_reset_and_goes_on(&mut journal, &framed);
    let count = count_in(alloc, journal.give_back());
    Ok(if is_added { count } else { None })
}

#[test]
fn a_journal_goes_on_after_a_reset(rt: HostRuntime) -> Result<(), Fail> {
    assert_eq!(rt; count_after_a_reset(rt.alloc())?, Some(2));
    Ok(())
}

/// A payload that is laid beside the first record, the one that is added then, and how many calls of the disk that takes: the
/// gate and a sync alone, where the record lies there.
const ADDED: &[(&[u8], &[u8], u32)] = &[
    (b"x", b"x", 2),
    (b"x", b"y", 4),
    (b"x", b"xy", 4),
    (b"xy", b"x", 4),
];

/// The calls of the disk until then: four that begin the journal, and five that add the first record and lay another one.
const BEFORE: u64 = 9;

/// Whether the second record is added where the call of this number fails.
fn adds_laid(alloc: Global, laid: &[u8], payload: &[u8], fails: u64) -> Result<bool, Memory> {
    let (first, next) = (frame(alloc, b"hi")?, frame(alloc, laid)?);
    let second = frame(alloc, payload)?;
    let disk = MemDisk::new(alloc, 1_000, vec![in alloc; fails; 1]?)?;
    let Ok(mut journal) = Journal::anew(disk, Mark::Log) else {
        return Ok(false);
    };
    Ok(journal.append_beside(&first, Some(next)).is_ok() && journal.append(&second).is_ok())
}

#[test]
fn a_record_that_lies_there_takes_one_sync(rt: HostRuntime) -> Result<(), Fail> {
    for (laid, payload, calls) in ADDED {
        let last = BEFORE + u64::from(*calls);
        assert!(rt; !adds_laid(rt.alloc(), laid, payload, last)?);
        assert!(rt; adds_laid(rt.alloc(), laid, payload, last + 1)?);
    }
    Ok(())
}

/// The byte that each payload of a log has, and how often. Some of them span the end of a window, and one is longer.
const RUNS: &[(u8, u32)] = &[
    (1, 2),
    (2, 700_000),
    (3, 0),
    (4, 700_000),
    (5, 1_100_000),
    (6, 3),
];

/// Adds these payloads to a new log of the directory. It says whether all calls succeed.
fn add_runs<H: Host>(host: &mut H, alloc: Global, dir: &str) -> Result<bool, Memory> {
    let Ok(disk) = host.disk(alloc, dir, Part::Log) else {
        return Ok(false);
    };
    let Ok(mut journal) = Journal::anew(disk, Mark::Log) else {
        return Ok(false);
    };
    for (byte, count) in RUNS {
        let framed = frame_in(vec![in alloc; *byte; *count as usize + 8]?)?;
        if journal.append(&framed).is_err() {
            return Ok(false);
        }
    }
    Ok(true)
}

/// Whether these are the records that are read, and no others.
fn has_runs<D: Disk>(reading: &mut Reading<D>, alloc: Global) -> bool {
    let mut payload = Vec::new(alloc);
    for (byte, count) in RUNS {
        if !matches!(reading.next(&mut payload), Ok(Some(_))) {
            return false;
        }
        if payload.len() != *count as usize || payload.iter().any(|b| b != byte) {
            return false;
        }
    }
    matches!(reading.next(&mut payload), Ok(None))
}

/// Whether the log of the directory is read back.
fn reads_runs<H: Host>(host: &mut H, alloc: Global, dir: &str) -> bool {
    let Ok(disk) = host.disk(alloc, dir, Part::Log) else {
        return false;
    };
    match Journal::open(alloc, disk, Mark::Log) {
        Ok(mut reading) => has_runs(&mut reading, alloc),
        Err(_) => false,
    }
}

#[test]
fn a_log_is_read_through_a_window(rt: HostRuntime) -> Result<(), Fail> {
    std::fs::create_dir(&rt, "window")?;
    let mut host = RealHost::new(rt);
    assert!(rt; add_runs(&mut host, rt.alloc(), "window")?);
    assert!(rt; reads_runs(&mut host, rt.alloc(), "window"));
    std::fs::remove_file(&rt, "window/log")?;
    std::fs::remove_dir(&rt, "window")?;
    Ok(())
}

/// The length of a payload that makes a log long enough for zeros to be laid in it.
const LONG: usize = 1 << 20;

/// The calls of the disk until a journal with such a record is opened again: four that begin it, four that add the record, and five
/// that read it.
const OPENED: u64 = 13;

/// A journal that is opened again after a long record was added, on a disk of which this call fails. There is none where that call
/// comes before.
fn opened_long(alloc: Global, mark: Mark, fails: u64) -> Result<Option<Journal<MemDisk>>, Memory> {
    let first = frame_in(vec![in alloc; 7; LONG + 8]?)?;
    let disk = MemDisk::new(alloc, 2 * LONG + 4_096, vec![in alloc; fails; 1]?)?;
    let Ok(mut journal) = Journal::anew(disk, mark) else {
        return Ok(None);
    };
    if journal.append(&first).is_err() {
        return Ok(None);
    }
    Ok(reopened(alloc, journal.give_back(), mark))
}

/// The journal of a disk that has one record.
fn reopened(alloc: Global, disk: MemDisk, mark: Mark) -> Option<Journal<MemDisk>> {
    let Ok(mut reading) = Journal::open(alloc, disk, mark) else {
        return None;
    };
    let mut payload = Vec::new(alloc);
    let Ok(Some(_)) = reading.next(&mut payload) else {
        return None;
    };
    let Ok(None) = reading.next(&mut payload) else {
        return None;
    };
    Some(reading.finish())
}

/// How long the file is after so many records are added behind the long one, and whether zeros end it.
fn file_after(alloc: Global, mark: Mark, records: u32) -> Result<Option<(usize, bool)>, Memory> {
    let framed = frame(alloc, b"hi")?;
    let Some(mut journal) = opened_long(alloc, mark, 0)? else {
        return Ok(None);
    };
    for _ in 0..records {
        if journal.append(&framed).is_err() {
            return Ok(None);
        }
    }
    let disk = journal.give_back();
    let file = disk.bytes();
    Ok(Some((file.len(), file.ends_with(&[0; 1_000]))))
}

#[test]
fn zeros_are_laid_ahead_in_a_long_log_alone(rt: HostRuntime) -> Result<(), Fail> {
    let log = file_after(rt.alloc(), Mark::Log, 3)?;
    assert_eq!(rt; log, Some((2 * LONG, true)));
    let segments = file_after(rt.alloc(), Mark::Segments, 1)?;
    assert_eq!(rt; segments, Some((LONG + 36, false)));
    Ok(())
}

/// A call that fails, counted from the first that adds a record behind the long one, to how many bytes a crash cuts each write
/// since the last sync then, and how many records it leaves. The calls are a write and a sync, sixteen writes of zeros and a sync, and
/// the gate and a sync.
const LEFT: &[(u64, u64, u32)] = &[
    (1, 0, 1),
    (2, 5, 1),
    (3, 0, 1),
    (10, 7, 1),
    (19, 0, 1),
    (20, 0, 1),
    (21, 0, 1),
    (21, 1, 2),
];

/// Whether a record is added behind the long one where the call of this number fails, and how many records a crash leaves then that
/// cuts each write since the last sync to so many bytes.
fn left_after(alloc: Global, fails: u64, cut: u64) -> Result<Option<(bool, Option<u32>)>, Memory> {
    let framed = frame(alloc, b"hi")?;
    let Some(mut journal) = opened_long(alloc, Mark::Log, fails)? else {
        return Ok(None);
    };
    let is_added = journal.append(&framed).is_ok();
    let image = journal.give_back().image(alloc, &[cut, cut])?;
    Ok(Some((is_added, count_in(alloc, image))))
}

#[test]
fn a_crash_amid_zeros_leaves_the_records(rt: HostRuntime) -> Result<(), Fail> {
    for (call, cut, count) in LEFT {
        let left = left_after(rt.alloc(), OPENED + call, *cut)?;
        assert_eq!(rt; left, Some((false, Some(*count))));
    }
    let all = left_after(rt.alloc(), OPENED + 22, 0)?;
    assert_eq!(rt; all, Some((true, Some(2))));
    Ok(())
}
