//! The same script with a request for a merge after each command.
use crate::forms::end_of_form;
use anyhow::{Result, bail};
use std::alloc::Global;

pub(crate) fn with_merges(alloc: Global, script: &[u8]) -> Result<Vec<u8>> {
    let mut more = Vec::new(alloc);
    let mut at = 0;
    for _ in 0..script.len() {
        let Some(behind) = end_of_form(alloc, script, at)? else {
            break;
        };
        if let Some(command) = script.get(at..behind) {
            more.extend_from_slice(command)?;
        }
        more.extend_from_slice(b" [:request-index]")?;
        at = behind;
    }
    Ok(more)
}

/// The lines of the other commands. Each merge has to be answered as one.
pub(crate) fn other_lines(alloc: Global, lines: &[u8]) -> Result<Vec<u8>> {
    let mut others = Vec::new(alloc);
    for (index, line) in lines.split_inclusive(|byte| *byte == b'\n').enumerate() {
        if index % 2 == 0 {
            others.extend_from_slice(line)?;
        } else if !line.starts_with(b"{:ok true :basis ") {
            bail!("a request for a merge is not carried out");
        }
    }
    Ok(others)
}
