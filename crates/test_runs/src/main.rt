//! Whole runs of the program. On real threads first: the worker is held at each of its points while two sessions go on. Then scripts that
//! are drawn from a seed run in as many threads: whatever these did, a plain session has to answer each line at its place in the one
//! history. Then what a guard on a composite bars. Last what a directory keeps: when calls of its disks fail, after a crash at any moment,
//! and when bytes were changed.
#![tactic(auto)]

mod chain;
mod directories;
mod drawn;
mod logs;
mod plain;
mod play;
mod plays;
mod replays;
mod runs;
mod stage;
mod tuples;

use anyhow::Result;
use std::alloc::Global;
use std::rt::Files;
use std::sync::Wait;
use std::thread::Threads;

fn main(rt: HostRuntime) -> Result<()> {
    run_all(&rt, rt.alloc())
}

fn run_all<R: Files + Alloc + Print + Threads + Wait + Sync>(rt: &R, alloc: Global) -> Result<()> {
    plays::perform_at_each_point(rt, alloc)?;
    replays::replay_drawn(rt, alloc)?;
    replays::replay_barred(rt, alloc)?;
    tuples::run_rows(rt, alloc)?;
    replays::compare_bytes(rt, alloc)?;
    chain::pull_chains(rt, alloc)?;
    logs::run_over_logs(rt, alloc)
}
