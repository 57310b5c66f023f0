//! How the table spells bytes that can't be in one of its lines, and texts that are long.
use anyhow::{Result, bail};
use std::alloc::Global;

/// The bytes that a text of the table stands for: two hexadecimal digits after a pilcrow for that byte, a star, a number
/// and something in angle quotes after one for so many of it, and all else for itself.
pub(crate) fn bytes_of(alloc: Global, text: &str) -> Result<Vec<u8>> {
    let mut bytes = Vec::new(alloc);
    let mut pieces = text.split('¶');
    if let Some(plain) = pieces.next() {
        bytes.extend_from_slice(plain.as_bytes())?;
    }
    for piece in pieces {
        push_spelled(&mut bytes, piece)?;
    }
    Ok(bytes)
}

fn push_spelled(bytes: &mut Vec<u8>, piece: &str) -> Result<()> {
    match piece.strip_prefix('*') {
        Some(piece) => push_repeated(bytes, piece),
        None => push_byte(bytes, piece),
    }
}

fn push_byte(bytes: &mut Vec<u8>, piece: &str) -> Result<()> {
    let Some((digits, behind)) = piece.split_at_checked(2) else {
        bail!("no two digits stand behind a pilcrow");
    };
    bytes.push(u8::from_str_radix(digits, 16)?)?;
    bytes.extend_from_slice(behind.as_bytes())?;
    Ok(())
}

fn push_repeated(bytes: &mut Vec<u8>, piece: &str) -> Result<()> {
    let Some((count, rest)) = piece.split_once('‹') else {
        bail!("nothing is said so many times");
    };
    let Some((what, behind)) = rest.split_once('›') else {
        bail!("an angle quote is not closed");
    };
    for _ in 0..count.parse::<u32>()? {
        bytes.extend_from_slice(what.as_bytes())?;
    }
    bytes.extend_from_slice(behind.as_bytes())?;
    Ok(())
}
