//! A core: `bench core` begins with a new database of two attributes, and then does what each line of standard input asks and
//! answers it with a line of its own, so that its rounds can be timed one by one. `accept N` decides and accepts N transactions of
//! one new entity with two values, and merges what is live each time that is due; its answer is the last t. `share N` takes the
//! database value N times; `holds N`, `holder N` and `values N` ask N facts, of an even spread and in no order. Their answers tell
//! how many were found.

mod asking;
mod database;
mod forms;

use crate::common::number;
use anyhow::{Result, bail};
use asking::{held, holders, shares, valued};
use database::Database;
use std::alloc::Global;
use std::thread::Threads;

#[derive(Clone, Copy)]
enum Task {
    Accept,
    Share,
    Holds,
    Holder,
    Values,
}

fn task_of(word: &str) -> Option<Task> {
    Some(match word {
        "accept" => Task::Accept,
        "share" => Task::Share,
        "holds" => Task::Holds,
        "holder" => Task::Holder,
        "values" => Task::Values,
        _ => return None,
    })
}

/// What a line asks, and how often.
fn ask_of(line: &str) -> Option<(Task, u32)> {
    let (word, count) = line.split_once(' ')?;
    Some((task_of(word)?, number(count)?))
}

pub(crate) fn perform<R: Input + Print + Threads + Sync>(
    alloc: Global,
    rt: &R,
    words: &[String],
) -> Result<bool> {
    if !words.is_empty() {
        return Ok(false);
    }
    measure(alloc, rt)?;
    Ok(true)
}

fn measure<R: Input + Print + Threads + Sync>(alloc: Global, rt: &R) -> Result<()> {
    let mut database = Database::new(alloc)?;
    answer_lines(alloc, rt, &mut database)
}

/// Does what each line of standard input asks, and prints its answer.
fn answer_lines<R: Input + Print + Threads + Sync>(
    alloc: Global,
    rt: &R,
    database: &mut Database,
) -> Result<()> {
    for line in rt.lines(alloc) {
        answer_line(rt, database, line?.as_str())?;
    }
    Ok(())
}

fn answer_line<R: Print + Threads + Sync>(
    rt: &R,
    database: &mut Database,
    line: &str,
) -> Result<()> {
    let Some((task, count)) = ask_of(line) else {
        bail!("no such task");
    };
    println!(rt; "{}", answer(rt, database, task, count)?)?;
    Ok(())
}

fn answer<R: Threads + Sync>(
    rt: &R,
    database: &mut Database,
    task: Task,
    count: u32,
) -> Result<u32> {
    match task {
        Task::Accept => database.accept(rt, count),
        Task::Share => shares(database, count),
        Task::Holds => Ok(held(database, count)),
        Task::Holder => Ok(holders(database, count)),
        Task::Values => valued(database, count),
    }
}
