//! EDN: `bench edn read` reads the forms of standard input and prints how many there are, and `bench edn print` prints each in its
//! canonical text, one a line.

use anyhow::Result;
use edn_core::read_form;
use edn_form::Edn;
use edn_print::print;
use std::alloc::Global;
use std::io::{self, Read, Write};

/// How many bytes are gathered before they are written.
const FULL: usize = 65536;

#[derive(Clone, Copy)]
enum Task {
    Read,
    Print,
}

fn task_of(words: &[String]) -> Option<Task> {
    let [task] = words else {
        return None;
    };
    match task.as_str() {
        "read" => Some(Task::Read),
        "print" => Some(Task::Print),
        _ => None,
    }
}

pub(crate) fn perform(rt: &HostRuntime, words: &[String]) -> Result<bool> {
    let Some(task) = task_of(words) else {
        return Ok(false);
    };
    let mut bytes = Vec::new(rt.alloc());
    rt.stdin().read_to_end(&mut bytes)?;
    match task {
        Task::Read => {
            let count = count(rt.alloc(), &bytes)?;
            println!(rt; "{count}")?;
        }
        Task::Print => print_all(rt.alloc(), &bytes, &mut io::writer(rt))?,
    }
    Ok(true)
}

/// How many forms the text has.
fn count(alloc: Global, bytes: &[u8]) -> Result<u64> {
    let mut count: u64 = 0;
    let mut at = 0;
    while let Some((_form, next)) = read_form(alloc, bytes, at)? {
        count = count.saturating_add(1);
        at = next;
    }
    Ok(count)
}

/// Writes the canonical text of each form, one a line.
fn print_all<W: Write>(alloc: Global, bytes: &[u8], sink: &mut W) -> Result<()> {
    let mut lines = Vec::with_capacity(alloc, FULL)?;
    print_each(alloc, bytes, &mut lines, sink)?;
    sink.write_all(lines.as_slice())?;
    Ok(())
}

/// Gathers the lines, and writes them each time that there are many. The last ones are left.
fn print_each<W: Write>(
    alloc: Global,
    bytes: &[u8],
    lines: &mut Vec<u8>,
    sink: &mut W,
) -> Result<()> {
    let mut at = 0;
    while let Some((form, next)) = read_form(alloc, bytes, at)? {
        add_line(&form, lines, sink)?;
        at = next;
    }
    Ok(())
}

fn add_line<W: Write>(form: &Edn, lines: &mut Vec<u8>, sink: &mut W) -> Result<()> {
    print(form, lines)?;
    lines.push(b'\n')?;
    if lines.len() >= FULL {
        sink.write_all(lines.as_slice())?;
        lines.clear();
    }
    Ok(())
}
