//! Logs with bytes changed, and logs that end too early. Each says what it says by the format, and is left as it is.
use crate::directories::disk;
use crate::runs::{Ended, ends_so, is_answered, run_over};
use anyhow::{Result, bail};
use std::alloc::Global;
use std::sync::Wait;
use std::thread::Threads;

/// The log of one transaction that gives a new entity the `:db/doc` "hi". Its record begins at byte 16, its payload at byte 24.
pub(crate) const LOG: [u8; 92] = [
    0x46, 0x41, 0x43, 0x54, 0x42, 0x41, 0x53, 0x45, 0x20, 0x4c, 0x4f, 0x47, 0x20, 0x31, 0x0a, 0x01,
    0x00, 0x00, 0x00, 0x00, 0x00, 0x00, 0x00, 0x43, 0x02, 0x00, 0x00, 0x00, 0x01, 0x00, 0x00, 0x01,
    0x8c, 0xc2, 0x51, 0xf4, 0x00, 0x00, 0x00, 0x00, 0x02, 0x00, 0x00, 0x0c, 0x00, 0x00, 0x00, 0x00,
    0x01, 0x00, 0x00, 0x00, 0x00, 0x00, 0x00, 0x00, 0x08, 0x06, 0x00, 0x00, 0x01, 0x8c, 0xc2, 0x51,
    0xf4, 0x00, 0x01, 0x00, 0x00, 0x10, 0x00, 0x00, 0x00, 0x00, 0x01, 0x00, 0x00, 0x00, 0x00, 0x00,
    0x00, 0x00, 0x07, 0x02, 0x00, 0x00, 0x00, 0x02, 0x68, 0x69, 0x01, 0x00,
];

const WHOLE: &str = "[:tx-range 1 nil]";

/// The reply of a new log, and the reply of this one around the text.
const EMPTY: &str = "{:basis 0 :txs []}\n";

const BEFORE: &str = concat!(
    "{:basis 1 :txs [{:t 1 :data [",
    "[13194139533313 :db/txInstant #inst \"2024-01-01T00:00:00.000-00:00\" 13194139533313 true] ",
    "[17592186044417 :db/doc "
);

const BEHIND: &str = " 13194139533313 true]]}]}\n";

/// A log of at most so many bytes is new.
const NEW: usize = 16;

/// Opens the logs of a table. It says how many there are.
pub(crate) fn open_changed<R: Threads + Wait + Sync>(
    rt: &R,
    alloc: Global,
    table: &str,
) -> Result<usize> {
    let mut logs: usize = 0;
    for row in table.lines() {
        if let Some((changes, says)) = row.split_once(" -> ") {
            logs = logs.saturating_add(open_row(rt, alloc, changes, says)?);
        }
    }
    Ok(logs)
}

fn open_row<R: Threads + Wait + Sync>(
    rt: &R,
    alloc: Global,
    changes: &str,
    says: &str,
) -> Result<usize> {
    if let Some((places, masks)) = changes.split_once(" by ") {
        return open_range(
            rt,
            alloc,
            places,
            hex::decode(alloc, masks)?.as_slice(),
            says,
        );
    }
    open(rt, alloc, &replaced(alloc, changes)?, says)?;
    Ok(1)
}

/// Each byte of a range is changed alone.
fn open_range<R: Threads + Wait + Sync>(
    rt: &R,
    alloc: Global,
    places: &str,
    masks: &[u8],
    says: &str,
) -> Result<usize> {
    let Some((first, last)) = places.split_once(" to ") else {
        bail!("{places} is no range");
    };
    let mut logs: usize = 0;
    for place in first.parse::<usize>()?..=last.parse::<usize>()? {
        for mask in masks {
            open(rt, alloc, &masked(place, *mask), says)?;
            logs = logs.saturating_add(1);
        }
    }
    Ok(logs)
}

/// The log with a byte combined with a mask.
fn masked(place: usize, mask: u8) -> [u8; 92] {
    let mut log = LOG;
    if let Some(byte) = log.get_mut(place) {
        *byte ^= mask;
    }
    log
}

/// The log with bytes replaced from some places on.
pub(crate) fn replaced(alloc: Global, changes: &str) -> Result<[u8; 92]> {
    let mut log = LOG;
    for change in changes.split(", ") {
        if let Some((place, bytes)) = change.split_once(' ') {
            let bytes = hex::decode(alloc, bytes)?;
            replace(&mut log, place.parse::<usize>()?, bytes.as_slice());
        }
    }
    Ok(log)
}

fn replace(log: &mut [u8], place: usize, bytes: &[u8]) {
    for (number, byte) in bytes.iter().enumerate() {
        if let Some(old) = log.get_mut(place.saturating_add(number)) {
            *old = *byte;
        }
    }
}

/// A log that ends too early has no room for its record, unless it is new. It says how many there are.
pub(crate) fn open_cut<R: Threads + Wait + Sync>(rt: &R, alloc: Global) -> Result<usize> {
    for len in 0..LOG.len() {
        let log = LOG.get(..len).unwrap_or(&[]);
        if len > NEW {
            open(rt, alloc, log, "record 0 at byte 16")?;
        } else if !is_answered(rt, alloc, disk(alloc, log, None)?, WHOLE, EMPTY.as_bytes())? {
            bail!("a log of {len} bytes is not new");
        }
    }
    Ok(LOG.len())
}

/// A log of these bytes has to say so, and to keep them.
fn open<R: Threads + Wait + Sync>(rt: &R, alloc: Global, bytes: &[u8], says: &str) -> Result<()> {
    let ended = run_over(rt, alloc, &[WHOLE], disk(alloc, bytes, None)?)?;
    judge(alloc, &ended, bytes, says)
}

fn judge(alloc: Global, ended: &Ended, bytes: &[u8], says: &str) -> Result<()> {
    if !is_said(alloc, ended, says)? || ended.parts()?.log.bytes() != bytes {
        bail!("a log does not say {says}");
    }
    Ok(())
}

fn is_said(alloc: Global, ended: &Ended, says: &str) -> Result<bool> {
    if says == "new" {
        return Ok(ends_so(ended, 0, "", EMPTY.as_bytes()));
    }
    if says.starts_with('"') {
        let lines = format!(in alloc; "{BEFORE}{says}{BEHIND}")?;
        return Ok(ends_so(ended, 0, "", lines.as_str().as_bytes()));
    }
    let line = format!(in alloc; "factbase: bad log: {says}")?;
    Ok(ends_so(ended, 4, line.as_str(), &[]))
}
