//! Drives cores through the transactions of `rows.txt`. At each place between them a merge begins, and at each place from there on its
//! trees are adopted. Then, and at the end, a core's indexes have to be those that the plain program has.
#![tactic(auto)]

mod course;
mod indexes;
mod onto;
mod plain;
mod rows;
mod run;

use anyhow::Result;
use course::Course;
use fb_view::Snapshot;
use indexes::Indexes;
use rows::{Row, rows_of};
use std::alloc::Global;
use std::fs;
use std::thread::Threads;

/// Compiles only where a value of the type may be sent to another thread and shared with it.
fn crosses_threads<T: Send + Sync>(_value: &T) {}

fn snapshots_cross_threads(alloc: Global) -> Result<()> {
    crosses_threads(&Snapshot::first(alloc)?);
    Ok(())
}

fn main(rt: HostRuntime) -> Result<()> {
    let alloc = rt.alloc();
    snapshots_cross_threads(alloc)?;
    let rows = rows_in_file(&rt)?;
    let runs = run_all(&rt, alloc, &rows)?;
    println!(rt; "{runs} runs end in the indexes of the plain program")?;
    Ok(())
}

fn rows_in_file(rt: &HostRuntime) -> Result<Vec<Row>> {
    let text = fs::read_to_string(rt, "rows.txt")?;
    rows_of(rt.alloc(), text.as_str())
}

/// How many courses there are, each of which is followed.
fn run_all<R: Threads + Sync>(rt: &R, alloc: Global, rows: &[Row]) -> Result<u64> {
    let wanted = plain::indexes_after(alloc, rows)?;
    follow_all(rt, alloc, rows, &wanted)
}

fn follow_all<R: Threads + Sync>(
    rt: &R,
    alloc: Global,
    rows: &[Row],
    wanted: &[Indexes],
) -> Result<u64> {
    let mut runs = 0_u64;
    for begin in 0..wanted.len() {
        for adopt in begin..wanted.len() {
            let course = Course { begin, adopt };
            course.follow(rt, alloc, rows, wanted)?;
            runs = runs.saturating_add(1);
        }
    }
    Ok(runs)
}
