//! What a directory keeps, through whole runs of the program: when calls of its log's disk fail, after a crash at any moment, from one
//! run to the next, and when bytes of the log were changed.
mod backups;
mod bad_logs;
mod calls;
mod crossed;
mod failing;
mod gates;
mod kept;
mod left;
mod rows;
mod segments;

use crate::directories::{Parts, disk};
use crate::plain::{answers_of, plain_session};
use crate::runs::run_over;
use anyhow::Result;
use backups::fail_backups;
use bad_logs::{open_changed, open_cut};
use calls::{Tally, fail_each_call};
use crossed::cross_images;
use kept::{Kept, kept_by_each};
use left::Case;
use plain_session::PlainSession;
use rows::run_rows;
use segments::histories_in;
use std::alloc::Global;
use std::fs;
use std::rt::Files;
use std::sync::Wait;
use std::thread::Threads;

pub(crate) fn run_over_logs<R: Files + Alloc + Print + Threads + Wait + Sync>(
    rt: &R,
    alloc: Global,
) -> Result<()> {
    run_examples(rt, alloc)?;
    one_session(rt, alloc)?;
    several_sessions(rt, alloc)?;
    damage_logs(rt, alloc)?;
    open_beside_segments(rt, alloc)?;
    cross_images(rt, alloc)
}

fn run_examples<R: Files + Alloc + Threads + Wait + Sync>(rt: &R, alloc: Global) -> Result<()> {
    let rows = fs::read_to_string(rt, "rows.txt")?;
    run_rows(rt, alloc, rows.as_str())
}

fn one_session<R: Files + Alloc + Print + Threads + Wait + Sync>(
    rt: &R,
    alloc: Global,
) -> Result<()> {
    let alone = fs::read_to_string(rt, "alone.edn")?;
    let later = fs::read_to_string(rt, "later.edn")?;
    fail_one(rt, alloc, alone.as_str(), later.as_str())
}

fn fail_one<R: Print + Threads + Wait + Sync>(
    rt: &R,
    alloc: Global,
    alone: &str,
    later: &str,
) -> Result<()> {
    let one = fail_at_first(rt, alloc, &[alone])?;
    println!(rt;
        "one session: {} calls at the opening and {} behind it, {} images",
        one.opening, one.adding, one.images
    )?;
    let next = fail_later(rt, alloc, alone, later)?;
    println!(rt;
        "one that goes on from it: {} calls, {} images",
        next.adding, next.images
    )?;
    Ok(())
}

fn several_sessions<R: Files + Alloc + Print + Threads + Wait + Sync>(
    rt: &R,
    alloc: Global,
) -> Result<()> {
    let ann = fs::read_to_string(rt, "ann.edn")?;
    let bob = fs::read_to_string(rt, "bob.edn")?;
    fail_several(rt, alloc, ann.as_str(), bob.as_str())
}

/// Which entries two leave, and so how many images, is up to the threads. Of three, so is how many calls they take.
fn fail_several<R: Print + Threads + Wait + Sync>(
    rt: &R,
    alloc: Global,
    ann: &str,
    bob: &str,
) -> Result<()> {
    let two = fail_at_first(rt, alloc, &[ann, bob])?;
    println!(rt; "two sessions: {} calls", two.adding)?;
    fail_at_first(rt, alloc, &[ann, bob, ann])?;
    println!(rt; "three sessions: each call")?;
    Ok(())
}

/// Fails each call of scripts that begin with an empty directory.
fn fail_at_first<R: Threads + Wait + Sync>(
    rt: &R,
    alloc: Global,
    scripts: &[&str],
) -> Result<Tally> {
    let plain = plain_session(alloc)?;
    let case = Case {
        log: &[],
        plain: &plain,
        scripts,
    };
    fail_each_call(rt, alloc, case)
}

/// Fails each call of a script that goes on where another one ended.
fn fail_later<R: Threads + Wait + Sync>(
    rt: &R,
    alloc: Global,
    script: &str,
    later: &str,
) -> Result<Tally> {
    let plain = plain_after(alloc, script)?;
    let left = left_by(rt, alloc, script)?;
    let case = Case {
        log: left.log.bytes(),
        plain: &plain,
        scripts: &[later],
    };
    fail_each_call(rt, alloc, case)
}

/// A plain session that has answered a script.
fn plain_after(alloc: Global, script: &str) -> Result<PlainSession> {
    let mut plain = plain_session(alloc)?;
    answers_of(alloc, &mut plain, script)?;
    Ok(plain)
}

/// What a script leaves of an empty directory.
fn left_by<R: Threads + Wait + Sync>(rt: &R, alloc: Global, script: &str) -> Result<Parts> {
    run_over(rt, alloc, &[script], disk(alloc, &[], None)?)?.into_parts()
}

fn damage_logs<R: Files + Alloc + Print + Threads + Wait + Sync>(
    rt: &R,
    alloc: Global,
) -> Result<()> {
    let table = fs::read_to_string(rt, "bytes.txt")?;
    open_damaged(rt, alloc, table.as_str())
}

fn open_damaged<R: Print + Threads + Wait + Sync>(
    rt: &R,
    alloc: Global,
    table: &str,
) -> Result<()> {
    let changed = open_changed(rt, alloc, table)?;
    let cut = open_cut(rt, alloc)?;
    println!(rt; "{changed} logs with bytes changed, {cut} that end too early")?;
    Ok(())
}

fn open_beside_segments<R: Print + Threads + Wait + Sync>(rt: &R, alloc: Global) -> Result<()> {
    let kept = kept_by_each(rt, alloc)?;
    open_histories(rt, alloc, kept.as_slice())
}

fn open_histories<R: Print + Threads + Wait + Sync>(
    rt: &R,
    alloc: Global,
    kept: &[Kept],
) -> Result<()> {
    let histories = histories_in(kept)?;
    let pairs = histories.pair(rt, alloc)?;
    let bytes = histories.change_bytes(rt, alloc)?;
    println!(rt; "{pairs} logs beside segments, {bytes} files of segments with a byte changed")?;
    histories.fail_calls(rt, alloc)?;
    let calls = fail_backups(rt, alloc, kept)?;
    println!(rt; "backups: {calls} calls")?;
    Ok(())
}
