//! Scripts with the lines that should answer them, as a table has them: a line `# name`, the script, and after each command its
//! reply, a line that begins with an arrow. A line `clock` gives the clock's first reading and its step. A number in angle quotes
//! stands for so many numbers, from 0 on.
use anyhow::{Result, bail};
use std::alloc::Global;

/// What a clock reads: the first reading, and how much more each further one is.
#[derive(Clone, Copy)]
pub(crate) struct Readings {
    pub(crate) first: i64,
    pub(crate) step: i64,
}

/// How a script is run.
#[derive(Clone, Copy)]
pub(crate) struct Terms {
    pub(crate) clock: Readings,
    /// Whether the program's guard judges its transactions.
    pub(crate) is_strict: bool,
}

/// A clock that always reads the first of January 2024, and no guard.
pub(crate) const TERMS: Terms = Terms {
    clock: Readings {
        first: 1_704_067_200_000,
        step: 0,
    },
    is_strict: false,
};

/// A script of the table.
#[derive(Drop)]
pub(crate) struct Row {
    pub(crate) name: String,
    pub(crate) terms: Terms,
    pub(crate) script: String,
    /// Each with its line feed.
    pub(crate) replies: String,
}

pub(crate) fn rows_in(alloc: Global, table: &str, terms: Terms) -> Result<Vec<Row>> {
    let mut rows = Vec::new(alloc);
    for line in table.lines() {
        add_to_rows(alloc, &mut rows, line, terms)?;
    }
    Ok(rows)
}

/// A name begins a row, and any other line goes to the last one.
fn add_to_rows(alloc: Global, rows: &mut Vec<Row>, line: &str, terms: Terms) -> Result<()> {
    if let Some(name) = line.strip_prefix("# ") {
        rows.push(Row::named(alloc, name, terms)?)?;
        return Ok(());
    }
    match rows.last_mut() {
        Some(row) => row.add(line),
        None => bail!("a line has no name above it"),
    }
}

impl Row {
    fn named(alloc: Global, name: &str, terms: Terms) -> Result<Row> {
        Ok(Row {
            name: String::from_str(alloc, name)?,
            terms,
            script: String::new(alloc),
            replies: String::new(alloc),
        })
    }

    fn add(&mut self, line: &str) -> Result<()> {
        if let Some(reply) = line.strip_prefix("-> ") {
            add_line(&mut self.replies, reply)?;
        } else if let Some(words) = line.strip_prefix("clock ") {
            self.terms.clock = readings_in(words)?;
        } else {
            add_line(&mut self.script, line)?;
        }
        Ok(())
    }
}

fn readings_in(words: &str) -> Result<Readings> {
    let Some((first, step)) = words.split_once(' ') else {
        bail!("a clock has two numbers");
    };
    Ok(Readings {
        first: first.parse::<i64>()?,
        step: step.parse::<i64>()?,
    })
}

/// Adds the line, with the numbers for which one in angle quotes stands, and a line feed.
fn add_line(lines: &mut String, line: &str) -> Result<()> {
    match line.split_once('‹') {
        None => lines.push_str(line)?,
        Some((before, rest)) => {
            lines.push_str(before)?;
            add_numbers(lines, rest)?;
        }
    }
    lines.push('\n')?;
    Ok(())
}

/// The text begins with how many numbers there are, and a closing quote.
fn add_numbers(lines: &mut String, text: &str) -> Result<()> {
    let Some((count, behind)) = text.split_once('›') else {
        bail!("an angle quote is not closed");
    };
    for n in 0..count.parse::<u32>()? {
        write!(lines, "{}{n}", if n == 0 { "" } else { " " })?;
    }
    lines.push_str(behind)?;
    Ok(())
}
