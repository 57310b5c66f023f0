//! Benchmarks of Factbase's parts, a module for each. The first word names one, and the others say what it does and how often:
//!
//!     bench edn read | print
//!     bench board turns THREADS COUNT | looks COUNT
//!     bench live COUNT ROUNDS [install]
//!     bench segments COUNT MERGED SOUGHT
//!     bench deciding FILE ROUNDS
//!     bench journal append | start DIR COUNT
//!     bench core
#![tactic(auto)]

mod board;
mod common;
mod cores;
mod deciding;
mod edn;
mod journal;
mod live;
mod segments;

use anyhow::Result;
use std::env;
use std::process::ExitCode;

const USAGE: &str = "usage: bench edn|board|live|segments|deciding|journal|core ..";

/// The status where the words name nothing to do.
const NO_TASK: u8 = 2;

fn main(rt: HostRuntime) -> Result<ExitCode> {
    let words: Vec<String> = env::args(&rt)?.skip(1).collect(rt.alloc())?;
    let Some((name, words)) = words.split_first() else {
        return no_task(&rt);
    };
    let done = match name.as_str() {
        "edn" => edn::perform(&rt, words),
        "board" => board::perform(rt.alloc(), &rt, words),
        "live" => live::perform(rt.alloc(), words),
        "segments" => segments::perform(rt.alloc(), &rt, words),
        "deciding" => deciding::perform(&rt, words),
        "journal" => journal::perform(&rt, words),
        "core" => cores::perform(rt.alloc(), &rt, words),
        _ => Ok(false),
    };
    if done? {
        Ok(ExitCode::SUCCESS)
    } else {
        no_task(&rt)
    }
}

/// The words name nothing to do.
fn no_task(rt: &HostRuntime) -> Result<ExitCode> {
    eprintln!(rt; "{USAGE}")?;
    Ok(ExitCode::from(NO_TASK))
}
