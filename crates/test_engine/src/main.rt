//! Runs the transactions of `rows.txt` through the engine and through the plain program, each after those before it, and says where a
//! reply differs from the table. Then it runs transactions that are drawn from a seed through both, and says where they differ.
#![tactic(auto)]

mod drawn;
mod engine;
mod guard;
mod run;
mod spelling;

use anyhow::{Result, bail};
use guard::NoEmptyText;
use run::Run;
use std::alloc::Global;
use std::fs;
use std::io::{self, Write};

/// The first of January 2024.
pub(crate) const CLOCK: i64 = 1_704_067_200_000;

/// How many histories are drawn, and from which seed.
const HISTORIES: u32 = 100;

const SEED: u64 = 20_261_127;

fn main(rt: HostRuntime) -> Result<()> {
    let replies = check_table(&rt)?;
    println!(rt; "{replies} replies as the table says")?;
    let tally = drawn::decided(rt.alloc(), HISTORIES, SEED)?;
    println!(rt;
        "{} transactions decided alike, {} of the rules met",
        tally.drawn,
        tally.refused.len()
    )?;
    Ok(())
}

/// How many replies the table has. Each of them has to be given.
fn check_table(rt: &HostRuntime) -> Result<usize> {
    let table = fs::read_to_string(rt, "rows.txt")?;
    if !all_agree(rt.alloc(), table.as_str(), &mut io::writer(rt))? {
        bail!("transactions are answered otherwise than the table says");
    }
    Ok(table.as_str().lines().filter(|line| is_row(line)).count())
}

/// A line with no tab is a heading.
fn is_row(line: &str) -> bool {
    line.contains('\t')
}

/// Runs each row.
fn all_agree<W: Write>(alloc: Global, table: &str, out: &mut W) -> Result<bool> {
    let mut run = Run::new(alloc, NoEmptyText { bars: false })?;
    rows_agree(alloc, &mut run, table, out)
}

/// The heading `new` begins a new history, and `new guarded` one under the guard.
fn rows_agree<W: Write>(alloc: Global, run: &mut Run, table: &str, out: &mut W) -> Result<bool> {
    let mut agree = true;
    for line in table.lines() {
        match line.split_once('\t') {
            Some((data, want)) => agree &= agrees(alloc, run, data, want, out)?,
            None if line.starts_with("new") => run.begin_anew(NoEmptyText {
                bars: line == "new guarded",
            })?,
            None => {}
        }
    }
    Ok(agree)
}

/// Whether the reply is the one of the table. Where it is not, one line more says what was replied.
fn agrees<W: Write>(
    alloc: Global,
    run: &mut Run,
    data: &str,
    want: &str,
    out: &mut W,
) -> Result<bool> {
    let bytes = spelling::bytes_of(alloc, data)?;
    let got = run.reply_to(&bytes)?;
    if got.as_slice() == want.as_bytes() {
        return Ok(true);
    }
    show(data, &got, out)?;
    Ok(false)
}

fn show<W: Write>(data: &str, got: &[u8], out: &mut W) -> Result<()> {
    for text in &[data.as_bytes(), b"\t", got, b"\n"] {
        out.write_all(text)?;
    }
    Ok(())
}
