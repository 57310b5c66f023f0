//! Reads each text of `table.txt` with the reader of EDN, prints its forms, and says where that differs from the table.
#![tactic(auto)]

mod answer;
mod spelling;

use anyhow::{Result, bail};
use std::alloc::Global;
use std::fs;
use std::io::{self, Write};

fn main(rt: HostRuntime) -> Result<()> {
    let table = fs::read_to_string(&rt, "table.txt")?;
    let mut all_agree = true;
    for line in table.as_str().lines() {
        all_agree &= agrees(rt.alloc(), line, &mut io::writer(&rt))?;
    }
    if !all_agree {
        bail!("texts are read otherwise than the table says");
    }
    let count = table.as_str().lines().filter(|line| is_row(line)).count();
    println!(rt; "{count} texts read as the table says")?;
    Ok(())
}

/// A line with no tab is a heading.
fn is_row(line: &str) -> bool {
    line.contains('\t')
}

/// Whether the line is a heading, or its text is read as it says. Where it is not, one line more says what was read.
fn agrees<W: Write>(alloc: Global, line: &str, out: &mut W) -> Result<bool> {
    let Some((text, want)) = line.split_once('\t') else {
        return Ok(true);
    };
    let bytes = spelling::bytes_of(alloc, text)?;
    let got = answer::answer(alloc, bytes.as_slice())?;
    if got == spelling::bytes_of(alloc, want)? {
        return Ok(true);
    }
    out.write_all(text.as_bytes())?;
    out.write_all(b"\t")?;
    out.write_all(got.as_slice())?;
    out.write_all(b"\n")?;
    Ok(false)
}
