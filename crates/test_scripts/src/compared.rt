//! Where two runs of a script differ.
use anyhow::Result;
use std::io::Write;

/// Whether the lines are those that are wanted. Where they are not, the script is shown, and both from the first line on that
/// differs.
pub(crate) fn are_same<W: Write>(
    out: &mut W,
    name: &str,
    script: &[u8],
    wanted: &[u8],
    lines: &[u8],
) -> Result<bool> {
    if wanted == lines {
        return Ok(true);
    }
    let at = end_of_same_lines(wanted, lines);
    for text in &[
        name.as_bytes(),
        b":\n",
        script,
        b"should be answered by:\n",
        wanted.get(at..).unwrap_or(wanted),
        b"and is by:\n",
        lines.get(at..).unwrap_or(lines),
    ] {
        out.write_all(text)?;
    }
    Ok(false)
}

/// How many bytes the lines have that both begin with.
fn end_of_same_lines(wanted: &[u8], lines: &[u8]) -> usize {
    let mut end: usize = 0;
    let mut others = lines.split_inclusive(|byte| *byte == b'\n');
    for line in wanted.split_inclusive(|byte| *byte == b'\n') {
        if others.next() != Some(line) {
            return end;
        }
        end = end.saturating_add(line.len());
    }
    end
}
