//! Runs whose guard has a composite besides the program's rules. A table has what they are asked: a line `# name`, and then each command
//! with its answer after an arrow.
use crate::runs::{Terms, ends_so, run_by};
use anyhow::{Result, bail};
use std::alloc::Global;
use std::fs;
use std::rt::Files;
use std::sync::Wait;
use std::thread::Threads;

#[derive(Drop)]
struct Row {
    name: String,
    script: String,
    lines: String,
}

impl Row {
    fn named(alloc: Global, name: &str) -> Result<Row> {
        Ok(Row {
            name: String::from_str(alloc, name)?,
            script: String::new(alloc),
            lines: String::new(alloc),
        })
    }
}

/// How many datoms make a merge due.
const MERGES: &[&str] = &["1", "65536"];

pub(crate) fn run_rows<R: Files + Alloc + Print + Threads + Wait + Sync>(
    rt: &R,
    alloc: Global,
) -> Result<()> {
    let table = fs::read_to_string(rt, "tuples.txt")?;
    run_table(rt, alloc, table.as_str())
}

fn run_table<R: Print + Threads + Wait + Sync>(rt: &R, alloc: Global, table: &str) -> Result<()> {
    let rows = rows_in(alloc, table)?;
    run_each(rt, alloc, rows.as_slice())?;
    println!(rt;
        "{} runs under a guard on a composite, as the table says",
        rows.len()
    )?;
    Ok(())
}

fn rows_in(alloc: Global, table: &str) -> Result<Vec<Row>> {
    let mut rows = Vec::new(alloc);
    for line in table.lines() {
        add_to_rows(alloc, &mut rows, line)?;
    }
    Ok(rows)
}

/// A name begins a row, and any other line goes to the last one.
fn add_to_rows(alloc: Global, rows: &mut Vec<Row>, line: &str) -> Result<()> {
    if let Some(name) = line.strip_prefix("# ") {
        rows.push(Row::named(alloc, name)?)?;
        return Ok(());
    }
    let (Some(row), Some((command, answer))) = (rows.last_mut(), line.split_once(" -> ")) else {
        bail!("a line of the table has no name above it, or no answer");
    };
    writeln!(row.script, "{command}")?;
    writeln!(row.lines, "{answer}")?;
    Ok(())
}

fn run_each<R: Threads + Wait + Sync>(rt: &R, alloc: Global, rows: &[Row]) -> Result<()> {
    for row in rows {
        run_row(rt, alloc, row)?;
    }
    Ok(())
}

/// Runs a script whenever merges are due.
fn run_row<R: Threads + Wait + Sync>(rt: &R, alloc: Global, row: &Row) -> Result<()> {
    for merge_at in MERGES {
        run_with(rt, alloc, row, merge_at)?;
    }
    Ok(())
}

fn run_with<R: Threads + Wait + Sync>(
    rt: &R,
    alloc: Global,
    row: &Row,
    merge_at: &str,
) -> Result<()> {
    let terms = Terms {
        is_strict: true,
        ..Terms::in_memory(merge_at)
    };
    let ended = run_by(rt, alloc, terms, &[row.script.as_str()])?;
    if !ends_so(&ended, 0, "", row.lines.as_str().as_bytes()) {
        bail!("'{}' is answered otherwise", row.name.as_str());
    }
    Ok(())
}
