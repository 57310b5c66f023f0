//! The host and the disk in memory, and clocks, whose readings no contract orders.
use fb_disk::Disk;
use fb_memory::Memory;
use fb_ports::{Clock, Host, Part};
use mem_ports::{FixedClock, MemDisk, MemHost, MemSource, StepClock};
use std::alloc::Global;
use std::test::Fail;

fn add_one(alloc: Global, host: &mut MemHost) -> Result<(), Memory> {
    host.add_source("one", MemSource::new(b"1".to_vec(alloc)?, Vec::new(alloc)))?;
    let disk = MemDisk::new(alloc, 100, Vec::new(alloc))?;
    host.add_disk("one", Part::Segments, disk)
}

fn hands_out(alloc: Global, host: &mut MemHost) -> bool {
    host.source(alloc, "one").is_ok()
        && host.disk(alloc, "one", Part::Segments).is_ok()
        && host.disk(alloc, "one", Part::Log).is_ok()
        && host.sink(alloc, "-").is_ok()
}

#[test]
fn a_host_in_memory_hands_out_what_it_was_given(rt: HostRuntime) -> Result<(), Fail> {
    let mut host = MemHost::new(rt.alloc());
    add_one(rt.alloc(), &mut host)?;
    assert!(rt; hands_out(rt.alloc(), &mut host));
    Ok(())
}

/// Writes `abc`, which is synced, and `defg` after it, which is not. It says whether each call succeeds.
fn is_written(disk: &mut MemDisk) -> bool {
    disk.write_at(0, b"abc").is_ok() && disk.sync().is_ok() && disk.write_at(3, b"defg").is_ok()
}

/// Whether that is left of the two where the second is cut to so many bytes.
fn leaves(alloc: Global, cut: u64, want: &[u8]) -> Result<bool, Memory> {
    let mut disk = MemDisk::new(alloc, 200, Vec::new(alloc))?;
    let is_written = is_written(&mut disk);
    let image = disk.image(alloc, &[cut])?;
    Ok(is_written && image.bytes() == want)
}

const ROWS: &[(u64, &[u8])] = &[(0, b"abc\0\0\0\0"), (2, b"abcde\0\0"), (9, b"abcdefg")];

#[test]
fn an_image_can_be_made_of_each_crash(rt: HostRuntime) -> Result<(), Fail> {
    for (cut, want) in ROWS {
        assert!(rt; leaves(rt.alloc(), *cut, want)?, "cut to {cut}");
    }
    Ok(())
}

fn readings<K: Clock + Sync>(clock: &K) -> [i64; 3] {
    [clock.now(), clock.now(), clock.now()]
}

/// The first reading of a clock, its step, and what it reads: it stops at either end.
const STEPS: &[(i64, i64, [i64; 3])] = &[
    (5, 3, [5, 8, 11]),
    (5, -3, [5, 2, -1]),
    (i64::MAX - 1, 1, [i64::MAX - 1, i64::MAX, i64::MAX]),
    (i64::MIN + 1, i64::MIN, [i64::MIN + 1, i64::MIN, i64::MIN]),
    (i64::MIN, i64::MAX, [i64::MIN, -1, i64::MAX - 1]),
];

#[test]
fn a_clock_in_memory_stands_still_or_steps(rt: HostRuntime) -> Result<(), Fail> {
    assert_eq!(rt; readings(&FixedClock::new(-5)), [-5, -5, -5]);
    for (first, step, want) in STEPS {
        assert_eq!(rt;
            readings(&StepClock::new(*first, *step)),
            *want,
            "{first} by {step}"
        );
    }
    Ok(())
}
