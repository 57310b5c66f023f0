//! The board: `bench board turns THREADS COUNT` makes that many turns with an empty body on each thread, and `bench board looks COUNT`
//! as many looks at the mail on one.

mod fixed;
mod laps;

use crate::common::number;
use anyhow::{Result, bail};
use std::alloc::Global;
use std::sync::Wait;
use std::thread::Threads;

/// As many threads as the board has sessions.
const MOST_THREADS: u32 = 64;

#[derive(Clone, Copy)]
enum Task {
    Turns { threads: u32, count: u32 },
    Looks { count: u32 },
}

fn task_of(words: &[String]) -> Option<Task> {
    match words {
        [kind, threads, count] if kind.as_str() == "turns" => Some(Task::Turns {
            threads: number(threads.as_str())?,
            count: number(count.as_str())?,
        }),
        [kind, count] if kind.as_str() == "looks" => Some(Task::Looks {
            count: number(count.as_str())?,
        }),
        _ => None,
    }
}

pub(crate) fn perform<R: Threads + Wait + Sync>(
    alloc: Global,
    rt: &R,
    words: &[String],
) -> Result<bool> {
    match task_of(words) {
        Some(Task::Turns { threads, count }) => {
            if threads == 0 || threads > MOST_THREADS {
                return Ok(false);
            }
            laps::turns(alloc, rt, threads, count)?;
        }
        Some(Task::Looks { count }) => {
            if laps::looks(alloc, count)? != count {
                bail!("a look found no snapshot");
            }
        }
        None => return Ok(false),
    }
    Ok(true)
}
