//! Worked examples as a text has them: in front of each run its clock, then each command with its answer after an arrow.
use crate::directories::{Parts, disk};
use crate::logs::bad_logs::{LOG, replaced};
use crate::runs::{Ended, Terms, ends_so, run_in, run_over};
use anyhow::{Result, bail};
use std::alloc::Global;
use std::sync::Wait;
use std::thread::Threads;

#[derive(Drop)]
struct Row {
    clock: i64,
    script: String,
    lines: String,
}

impl Row {
    /// A row without a line.
    fn at(alloc: Global, clock: &str) -> Result<Row> {
        Ok(Row {
            clock: clock.parse()?,
            script: String::new(alloc),
            lines: String::new(alloc),
        })
    }

    fn judge(&self, ended: &Ended) -> Result<()> {
        if !ends_so(ended, 0, "", self.lines.as_str().as_bytes()) {
            bail!("{} is answered otherwise", self.script.as_str());
        }
        Ok(())
    }
}

fn rows_in(alloc: Global, text: &str) -> Result<Vec<Row>> {
    let mut rows = Vec::new(alloc);
    for line in text.lines() {
        match line.split_once(" -> ") {
            Some((command, answer)) => add_line(&mut rows, command, answer)?,
            None => rows.push(Row::at(alloc, line)?)?,
        }
    }
    Ok(rows)
}

fn add_line(rows: &mut Vec<Row>, command: &str, answer: &str) -> Result<()> {
    let Some(row) = rows.last_mut() else {
        bail!("a line stands in no run");
    };
    writeln!(row.script, "{command}")?;
    writeln!(row.lines, "{answer}")?;
    Ok(())
}

pub(crate) fn run_rows<R: Threads + Wait + Sync>(rt: &R, alloc: Global, text: &str) -> Result<()> {
    let rows = rows_in(alloc, text)?;
    run_each(rt, alloc, rows.as_slice())
}

/// The first row leaves the documented log, and the second goes on with that in its older format. In the third the log stops. The others
/// go on from one another, whenever merges are due.
fn run_each<R: Threads + Wait + Sync>(rt: &R, alloc: Global, rows: &[Row]) -> Result<()> {
    let [first, older, stopped, chain @ ..] = rows else {
        bail!("rows are missing");
    };
    leave_documented(rt, alloc, first)?;
    go_on_with_older(rt, alloc, older)?;
    stop_at_second(rt, alloc, stopped)?;
    go_on(rt, alloc, chain, "65536")?;
    go_on(rt, alloc, chain, "1")
}

fn leave_documented<R: Threads + Wait + Sync>(rt: &R, alloc: Global, row: &Row) -> Result<()> {
    let left = run_row(rt, alloc, row, Parts::of(alloc, &[])?, "65536")?;
    if left.log.bytes() != LOG.as_slice() {
        bail!("the log is not the documented one");
    }
    Ok(())
}

fn go_on_with_older<R: Threads + Wait + Sync>(rt: &R, alloc: Global, row: &Row) -> Result<()> {
    let older = replaced(alloc, "24 01")?;
    run_row(rt, alloc, row, Parts::of(alloc, &older)?, "65536")?;
    Ok(())
}

/// Runs a row over disks, and hands these back.
fn run_row<R: Threads + Wait + Sync>(
    rt: &R,
    alloc: Global,
    row: &Row,
    parts: Parts,
    merge_at: &str,
) -> Result<Parts> {
    let terms = Terms {
        clock: row.clock,
        ..Terms::in_directory(merge_at)
    };
    let ended = run_in(rt, alloc, terms, &[row.script.as_str()], parts)?;
    row.judge(&ended)?;
    ended.into_parts()
}

/// The first sync of the second record: the opening takes five calls of the disk (a sync, the length, the new journal, a sync, and its
/// gate), and a record four.
const STOPPING: u64 = 11;

fn stop_at_second<R: Threads + Wait + Sync>(rt: &R, alloc: Global, row: &Row) -> Result<()> {
    let log = disk(alloc, &[], Some(STOPPING))?;
    let ended = run_over(rt, alloc, &[row.script.as_str()], log)?;
    judge_stopped(row, &ended)
}

fn judge_stopped(row: &Row, ended: &Ended) -> Result<()> {
    let lines = row.lines.as_str().as_bytes();
    if !ends_so(ended, 7, "factbase: log stopped at t 2", lines) {
        bail!("a log stops otherwise");
    }
    Ok(())
}

/// Runs one after another over the same two disks.
fn go_on<R: Threads + Wait + Sync>(
    rt: &R,
    alloc: Global,
    rows: &[Row],
    merge_at: &str,
) -> Result<()> {
    let mut parts = Parts::of(alloc, &[])?;
    for row in rows {
        parts = run_row(rt, alloc, row, parts, merge_at)?;
    }
    Ok(())
}
