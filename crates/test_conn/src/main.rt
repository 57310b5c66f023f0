//! Two sessions at one connection, in one thread: every order of short lists of their calls, over a log that fails at one of its
//! records or at none. What each call is answered, what a copy has that is made between two commits, and what is left when the worker has
//! merged the rest, has to be what a plain model says.
#![tactic(auto)]

mod answers;
mod calls;
mod copies;
mod forms;
mod logs;
mod model;
mod orders;
mod runs;
mod stores;

use anyhow::Result;
use calls::Call;
use forms::Forms;
use model::Counts;
use orders::Script;
use runs::run_orders;
use std::alloc::Global;
use std::sync::Wait;
use std::thread::Threads;

/// What the sessions ask.
const SCRIPTS: &[Script] = &[
    Script {
        first: &[Call::Good, Call::Db, Call::Bad, Call::Good],
        second: &[Call::Sync, Call::Good, Call::Db, Call::Good],
    },
    Script {
        first: &[Call::Good, Call::Good, Call::Db, Call::Bad],
        second: &[Call::Db, Call::Bad, Call::Good, Call::Sync],
    },
];

/// Runs all orders of all scripts, and counts the answers.
fn run_scripts<R: Threads + Wait + Sync>(rt: &R, alloc: Global) -> Result<Counts> {
    let forms = Forms::new(alloc)?;
    let mut counts = Counts::none();
    for script in SCRIPTS {
        run_orders(rt, alloc, &forms, script, &mut counts)?;
    }
    Ok(counts)
}

fn main(rt: HostRuntime) -> Result<()> {
    let counts = run_scripts(&rt, rt.alloc())?;
    println!(rt;
        "{} runs: {} receipts, {} refusals, {} log faults, {} times stopped, {} looks",
        counts.runs,
        counts.receipts,
        counts.refusals,
        counts.log_faults,
        counts.stopped,
        counts.looks
    )?;
    Ok(())
}
