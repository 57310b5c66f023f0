//! The journal: `bench journal append DIR COUNT` begins the log of a directory anew and adds so many records of 92 bytes, and
//! `bench journal read DIR COUNT` reads its log so often.

use crate::common::number;
use anyhow::{Result, bail};
use fb_journal::{Journal, Mark, Reading, frame};
use fb_ports::{Disk, Host, Part};
use real_ports::RealHost;

/// The payload of each record: with its length and the gate after it a record takes 92 bytes.
const PAYLOAD: [u8; 83] = [7; 83];

#[derive(Clone, Copy)]
enum Task {
    Append,
    Read,
}

fn task_of(word: &str) -> Option<Task> {
    match word {
        "append" => Some(Task::Append),
        "read" => Some(Task::Read),
        _ => None,
    }
}

pub(crate) fn perform(rt: &HostRuntime, words: &[String]) -> Result<bool> {
    let [task, dir, count] = words else {
        return Ok(false);
    };
    let (Some(task), Some(count)) = (task_of(task.as_str()), number(count.as_str())) else {
        return Ok(false);
    };
    let mut host = RealHost::new(*rt);
    let done = match task {
        Task::Append => append_all(rt, &mut host, dir.as_str(), count),
        Task::Read => read_all(rt, &mut host, dir.as_str(), count),
    };
    if !done {
        bail!("the journal failed");
    }
    Ok(true)
}

fn append_all<H: Host>(rt: &HostRuntime, host: &mut H, dir: &str, count: u32) -> bool {
    let Ok(disk) = host.disk(rt.alloc(), dir, Part::Log) else {
        return false;
    };
    match Journal::anew(disk, Mark::Log) {
        Ok(mut journal) => append_each(rt, &mut journal, count),
        Err(_) => false,
    }
}

fn append_each<D: Disk>(rt: &HostRuntime, journal: &mut Journal<D>, count: u32) -> bool {
    for _ in 0..count {
        if !append(rt, journal) {
            return false;
        }
    }
    true
}

fn append<D: Disk>(rt: &HostRuntime, journal: &mut Journal<D>) -> bool {
    match frame(rt.alloc(), &PAYLOAD) {
        Ok(framed) => journal.append(&framed).is_ok(),
        Err(_) => false,
    }
}

fn read_all<H: Host>(rt: &HostRuntime, host: &mut H, dir: &str, count: u32) -> bool {
    for _ in 0..count {
        if !read(rt, host, dir) {
            return false;
        }
    }
    true
}

/// Opens the log, and reads its records to the end.
fn read<H: Host>(rt: &HostRuntime, host: &mut H, dir: &str) -> bool {
    let Ok(disk) = host.disk(rt.alloc(), dir, Part::Log) else {
        return false;
    };
    match Journal::open(rt.alloc(), disk, Mark::Log) {
        Ok(mut reading) => read_each(rt, &mut reading),
        Err(_) => false,
    }
}

fn read_each<D: Disk>(rt: &HostRuntime, reading: &mut Reading<D>) -> bool {
    let mut payload = Vec::new(rt.alloc());
    for _ in 0..u64::MAX {
        match reading.next(&mut payload) {
            Ok(Some(_)) => {}
            Ok(None) => return true,
            Err(_) => return false,
        }
    }
    false
}
