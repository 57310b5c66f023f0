//! How the table spells texts that are long.
use anyhow::{Result, bail};
use std::alloc::Global;

/// The bytes that a text of the table stands for: a number and something in angle quotes after a pilcrow for so many of it, and
/// all else for itself.
pub(crate) fn bytes_of(alloc: Global, text: &str) -> Result<Vec<u8>> {
    let mut bytes = Vec::new(alloc);
    let mut pieces = text.split('¶');
    if let Some(plain) = pieces.next() {
        bytes.extend_from_slice(plain.as_bytes())?;
    }
    for piece in pieces {
        push_repeated(&mut bytes, piece)?;
    }
    Ok(bytes)
}

fn push_repeated(bytes: &mut Vec<u8>, piece: &str) -> Result<()> {
    let Some((count, rest)) = piece.split_once('‹') else {
        bail!("nothing is said so many times");
    };
    let Some((what, behind)) = rest.split_once('›') else {
        bail!("an angle quote is not closed");
    };
    for _ in 0..count.parse::<u32>()? {
        bytes.extend_from_slice(what.as_bytes())?;
    }
    bytes.extend_from_slice(behind.as_bytes())?;
    Ok(())
}
