//! Ports of the system, on files of the test itself.
use fb_ports::{Clock, Disk, Host, Part, Sink, Source};
use real_ports::{FileSink, FileSource, RealHost, SystemClock};
use std::alloc::Global;
use std::io;
use std::test::Fail;

/// Hands the first four bytes of a source to a sink, and answers how many it took.
fn copied<H: Host>(host: &mut H, alloc: Global, from: &str, to: &str) -> Option<usize> {
    let mut source = host.source(alloc, from).ok()?;
    let mut sink = host.sink(alloc, to).ok()?;
    let mut buf = [0u8; 4];
    let count = source.read(&mut buf).ok()?;
    sink.write(&buf[..count]).ok()
}

/// From where to where, and how many bytes are copied.
const COPIES: &[(&str, &str, Option<usize>)] = &[
    ("missing", "script.out", None),
    ("script", "missing/out", None),
    ("script", "script.out", Some(4)),
];

fn write_two(rt: &HostRuntime) -> io::Result<()> {
    std::fs::write(rt, "script", "hello")?;
    std::fs::write(rt, "script.out", "what was there before")
}

fn remove_two(rt: &HostRuntime) -> io::Result<()> {
    std::fs::remove_file(rt, "script")?;
    std::fs::remove_file(rt, "script.out")
}

#[test]
fn a_file_is_read_and_another_is_replaced(rt: HostRuntime) -> Result<(), Fail> {
    write_two(&rt)?;
    let mut host = RealHost::new(rt);
    for (from, to, want) in COPIES {
        assert_eq!(rt;
            copied(&mut host, rt.alloc(), from, to),
            *want,
            "{from} to {to}"
        );
    }
    assert_eq!(rt; host.faults(), 2);
    let replaced = std::fs::read_to_string(&rt, "script.out")?;
    assert_eq!(rt; replaced.as_str(), "hell");
    remove_two(&rt)?;
    Ok(())
}

/// The faults of a source that is a folder, after a read.
fn faults_of_a_folder(rt: &HostRuntime) -> io::Result<u64> {
    let mut folder = FileSource::open(rt, ".")?;
    let is_read = folder.read(&mut [0u8; 4]).is_ok();
    Ok(if is_read { 0 } else { folder.faults() })
}

/// The faults of a sink on a full device, after a write.
fn faults_of_a_full_device(rt: &HostRuntime) -> io::Result<u64> {
    let mut full = FileSink::create(rt, "/dev/full")?;
    let is_written = full.write(b"x").is_ok();
    Ok(if is_written { 0 } else { full.faults() })
}

#[test]
fn a_read_or_write_that_the_system_refuses_is_a_fault(rt: HostRuntime) -> Result<(), Fail> {
    assert_eq!(rt; faults_of_a_folder(&rt)?, 1);
    assert_eq!(rt; faults_of_a_full_device(&rt)?, 1);
    Ok(())
}

fn reading<K: Clock + Sync>(clock: &K) -> i64 {
    clock.now()
}

#[test]
fn the_clock_reads_the_time_in_milliseconds(rt: HostRuntime) -> Result<(), Fail> {
    let (begin_of_2025, begin_of_2125) = (1_735_689_600_000, 4_891_363_200_000);
    let now = reading(&SystemClock::new(rt));
    assert!(rt; begin_of_2025 < now && now < begin_of_2125);
    Ok(())
}

/// Writes `abcdef` to the disk of a directory, cuts it to five bytes and closes it. It says whether each call succeeded.
fn is_written<H: Host>(host: &mut H, alloc: Global, dir: &str) -> bool {
    match host.disk(alloc, dir, Part::Log) {
        Ok(mut disk) => {
            disk.write_at(2, b"cdef").is_ok()
                && disk.write_at(0, b"ab").is_ok()
                && disk.cut(5).is_ok()
                && disk.cut(9).is_ok()
                && disk.sync().is_ok()
        }
        Err(_) => false,
    }
}

/// Whether a read of the disk of a directory, from its second byte on, gives these bytes.
fn reads_again<H: Host>(host: &mut H, alloc: Global, dir: &str, want: &[u8]) -> bool {
    let mut buf = [0u8; 8];
    match host.disk(alloc, dir, Part::Log) {
        Ok(mut disk) => match disk.read_at(1, &mut buf) {
            Ok(count) => &buf[..count] == want,
            Err(_) => false,
        },
        Err(_) => false,
    }
}

/// A directory, whether its log can be written, and what is read of it after it was closed.
const LOGS: &[(&str, bool, &[u8])] = &[
    ("store", true, b"bcde"),
    (":memory:", true, b""),
    ("missing", false, b""),
    ("no_directory", false, b""),
    ("", false, b""),
];

fn make_places(rt: &HostRuntime) -> io::Result<()> {
    std::fs::create_dir(rt, "store")?;
    std::fs::write(rt, "no_directory", "")
}

fn remove_places(rt: &HostRuntime) -> io::Result<()> {
    std::fs::remove_file(rt, "store/log")?;
    std::fs::remove_dir(rt, "store")?;
    std::fs::remove_file(rt, "no_directory")
}

#[test]
fn a_log_is_there_at_the_next_opening(rt: HostRuntime) -> Result<(), Fail> {
    make_places(&rt)?;
    let mut host = RealHost::new(rt);
    for (dir, opens, bytes) in LOGS {
        assert_eq!(rt; is_written(&mut host, rt.alloc(), dir), *opens, "{dir}");
        assert_eq!(rt;
            reads_again(&mut host, rt.alloc(), dir, bytes),
            *opens,
            "{dir}"
        );
    }
    assert_eq!(rt; host.faults(), 6);
    remove_places(&rt)?;
    Ok(())
}

/// Whether the log of a directory opens while it is open, and once it was closed.
fn opens_beside_and_behind<H: Host>(host: &mut H, alloc: Global, dir: &str) -> (bool, bool) {
    let held = host.disk(alloc, dir, Part::Log);
    let beside = held.is_ok() && host.disk(alloc, dir, Part::Log).is_ok();
    drop(held);
    (beside, host.disk(alloc, dir, Part::Log).is_ok())
}

#[test]
fn a_directory_is_open_once_at_a_time(rt: HostRuntime) -> Result<(), Fail> {
    std::fs::create_dir(&rt, "held")?;
    let mut host = RealHost::new(rt);
    let opens = opens_beside_and_behind(&mut host, rt.alloc(), "held");
    assert_eq!(rt; opens, (false, true));
    assert_eq!(rt; host.faults(), 1);
    std::fs::remove_file(&rt, "held/log")?;
    std::fs::remove_dir(&rt, "held")?;
    Ok(())
}

/// The faults of a file after a write past the greatest place.
fn faults_past_the_end<H: Host>(host: &mut H, alloc: Global, dir: &str) -> u64 {
    match host.disk(alloc, dir, Part::Segments) {
        Ok(mut disk) => {
            let is_written = disk.write_at(u64::MAX, b"x").is_ok();
            if is_written { 0 } else { disk.faults() }
        }
        Err(_) => 0,
    }
}

#[test]
fn a_write_past_the_greatest_place_is_a_fault(rt: HostRuntime) -> Result<(), Fail> {
    std::fs::create_dir(&rt, "past")?;
    let mut host = RealHost::new(rt);
    assert_eq!(rt; faults_past_the_end(&mut host, rt.alloc(), "past"), 1);
    std::fs::remove_file(&rt, "past/segments")?;
    std::fs::remove_dir(&rt, "past")?;
    Ok(())
}
