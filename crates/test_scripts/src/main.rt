//! Runs whole scripts through a session over a core in memory, and compares every line. The scripts of two tables, the second of them under
//! the program's guard, have the lines that they should have beside them; those that are drawn from a seed are answered by a plain session
//! too, which is slow and obvious. Each script runs once more with a request for a merge after each command, which may change no other
//! line.
#![tactic(auto)]

mod compared;
mod drawn;
mod fields;
mod forms;
mod merges;
mod pen;
mod plain;
mod pulls;
mod rows;
mod session;
mod stage;
mod tally;
mod worlds;

use anyhow::Result;
use rows::{Row, TERMS, Terms, rows_in};
use stage::Stage;
use std::{fs, io};
use tally::{Answer, Tally};

/// How many worlds are drawn, how many scripts in each of them, and from which seed.
const WORLDS: u32 = 50;

const SCRIPTS: u32 = 10;

const SEED: u64 = 20_261_128;

const STRICT: Terms = Terms {
    is_strict: true,
    ..TERMS
};

fn main(rt: HostRuntime) -> Result<()> {
    let rows = rows_in_file(&rt, "scripts.txt", TERMS)?;
    let strict_rows = rows_in_file(&rt, "strict.txt", STRICT)?;
    let mut stage = Stage {
        rt: &rt,
        alloc: rt.alloc(),
        out: &mut io::writer(&rt),
    };
    stage.run_rows(&rows)?;
    stage.run_rows(&strict_rows)?;
    let tally = stage.run_drawn(WORLDS, SCRIPTS, SEED)?;
    println!(rt;
        "{} scripts as the table says, and {} under a guard",
        rows.len(),
        strict_rows.len()
    )?;
    report(&rt, &tally)
}

fn rows_in_file(rt: &HostRuntime, name: &str, terms: Terms) -> Result<Vec<Row>> {
    let table = fs::read_to_string(rt, name)?;
    rows_in(rt.alloc(), table.as_str(), terms)
}

fn report(rt: &HostRuntime, tally: &Tally) -> Result<()> {
    println!(rt;
        "{} drawn scripts, of {} lines, as the plain session says",
        tally.scripts, tally.lines
    )?;
    println!(rt;
        "{} of 16 commands answered, {} of 7 reads with a find, {} of 11 refusals of reads, {} of transactions",
        tally.count_of(Answer::Given),
        tally.count_of(Answer::Found),
        tally.count_of(Answer::NoRead),
        tally.count_of(Answer::NoTransaction)
    )?;
    Ok(())
}
