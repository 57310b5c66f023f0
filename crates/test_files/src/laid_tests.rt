//! A log whose next records are laid with the syncs of those before them: what a crash leaves of it, where each call of the disk fails,
//! what was written since the last sync is cut at each byte, and another record comes than the one that was laid.
use fb_journal::{Framed, Journal, Mark, Reading, frame};
use fb_memory::Memory;
use mem_ports::MemDisk;
use std::alloc::Global;
use std::test::Fail;

/// What is added, one behind the other.
const PAYLOADS: &[&[u8]] = &[b"one", b"the second", b"", b"four"];

/// What is laid for the record that comes next.
#[derive(Clone, Copy)]
enum Guess {
    Nothing,
    Itself,
    /// As many bytes, of which none is right.
    Another,
    Longer,
    Shorter,
}

const GUESSES: &[Guess] = &[
    Guess::Nothing,
    Guess::Itself,
    Guess::Another,
    Guess::Longer,
    Guess::Shorter,
];

/// Bytes that a longer one has behind the record's own.
const MORE: &[u8] = b" and more";

/// The first call of the disk that adds a record, behind four that begin the log; and more calls than all of them take.
const FIRST_CALL: u64 = 5;

const MOST_CALLS: u64 = 100;

/// More bytes than any write has.
const MOST_CUTS: u64 = 40;

impl Guess {
    fn of(self, alloc: Global, payload: &[u8]) -> Result<Option<Framed>, Memory> {
        let mut bytes = Vec::new(alloc);
        match self {
            Guess::Nothing => return Ok(None),
            Guess::Itself => bytes.extend_from_slice(payload)?,
            Guess::Another => {
                for byte in payload {
                    bytes.push(!*byte)?;
                }
            }
            Guess::Longer => {
                bytes.extend_from_slice(payload)?;
                bytes.extend_from_slice(MORE)?;
            }
            Guess::Shorter => bytes.extend_from_slice(&payload[..payload.len() / 2])?,
        }
        Ok(Some(frame(alloc, bytes.as_slice())?))
    }
}

/// A record, and what is laid beside it.
#[derive(Drop)]
struct Step {
    record: Framed,
    next: Option<Framed>,
}

/// The records in their order.
fn steps(alloc: Global, guess: Guess) -> Result<Vec<Step>, Memory> {
    let mut steps = Vec::new(alloc);
    for (place, payload) in PAYLOADS.iter().enumerate() {
        let next = match PAYLOADS.get(place + 1) {
            Some(next) => guess.of(alloc, next)?,
            None => None,
        };
        let record = frame(alloc, payload)?;
        steps.push(Step { record, next })?;
    }
    Ok(steps)
}

/// How many records were added, and the disk.
#[derive(Drop)]
struct Added {
    count: usize,
    disk: MemDisk,
}

/// Begins a log, and adds the records until this call fails.
fn add_until(alloc: Global, steps: Vec<Step>, fails: u64) -> Result<Option<Added>, Memory> {
    let disk = MemDisk::new(alloc, 1_000, vec![in alloc; fails; 1]?)?;
    let Ok(mut journal) = Journal::anew(disk, Mark::Log) else {
        return Ok(None);
    };
    let mut count: usize = 0;
    for step in steps {
        let Step { record, next } = step;
        if journal.append_beside(&record, next).is_err() {
            break;
        }
        count = count.saturating_add(1);
    }
    let disk = journal.give_back();
    Ok(Some(Added { count, disk }))
}

/// How many of the records a log has, where it has no others.
fn count_in(alloc: Global, disk: MemDisk) -> Option<usize> {
    match Journal::open(alloc, disk, Mark::Log) {
        Ok(mut reading) => count_read(alloc, &mut reading),
        Err(_) => None,
    }
}

fn count_read(alloc: Global, reading: &mut Reading<MemDisk>) -> Option<usize> {
    let mut payload = Vec::new(alloc);
    for (count, expected) in PAYLOADS.iter().enumerate() {
        match reading.next(&mut payload) {
            Ok(Some(_)) if payload.as_slice() == *expected => {}
            Ok(None) => return Some(count),
            _ => return None,
        }
    }
    match reading.next(&mut payload) {
        Ok(None) => Some(PAYLOADS.len()),
        _ => None,
    }
}

/// Whether each image that a crash may leave has the records that were added, and at most the one that met the fault.
fn keeps_added(alloc: Global, added: &Added) -> Result<bool, Memory> {
    for first in 0..MOST_CUTS {
        for second in 0..MOST_CUTS {
            let image = added.disk.image(alloc, &[first, second])?;
            match count_in(alloc, image) {
                Some(count) if count == added.count => {}
                Some(count) if count == added.count.saturating_add(1) => {}
                _ => return Ok(false),
            }
        }
    }
    Ok(true)
}

/// Whether that holds whichever call fails.
fn keeps_all(alloc: Global, guess: Guess) -> Result<bool, Memory> {
    for fails in FIRST_CALL..MOST_CALLS {
        let Some(added) = add_until(alloc, steps(alloc, guess)?, fails)? else {
            return Ok(false);
        };
        if !keeps_added(alloc, &added)? {
            return Ok(false);
        }
        if added.count == PAYLOADS.len() {
            return Ok(true);
        }
    }
    Ok(false)
}

#[test]
fn a_crash_leaves_what_was_added_whatever_was_laid(rt: HostRuntime) -> Result<(), Fail> {
    for guess in GUESSES {
        assert!(rt; keeps_all(rt.alloc(), *guess)?);
    }
    Ok(())
}
