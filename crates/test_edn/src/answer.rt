//! What is read of a text, in the words of the table.
use anyhow::{Result, bail};
use edn_core::{EdnFault, What, read_form};
use edn_print::print;
use std::alloc::Global;

/// The canonical texts of the forms with ` | ` between them, and the fault after them where there is one; `end` where there
/// is nothing.
pub(crate) fn answer(alloc: Global, text: &[u8]) -> Result<Vec<u8>> {
    let mut said = Vec::new(alloc);
    let mut at = 0;
    loop {
        match read_form(alloc, text, at) {
            Ok(Some((form, next))) => {
                separate(&mut said)?;
                print(&form, &mut said)?;
                at = next;
            }
            Ok(None) => {
                if said.is_empty() {
                    said.extend_from_slice(b"end")?;
                }
                return Ok(said);
            }
            Err(fault) => {
                separate(&mut said)?;
                said.extend_from_slice(fault_text(alloc, fault)?.as_bytes())?;
                return Ok(said);
            }
        }
    }
}

fn separate(said: &mut Vec<u8>) -> Result<()> {
    if !said.is_empty() {
        said.extend_from_slice(b" | ")?;
    }
    Ok(())
}

fn fault_text(alloc: Global, fault: EdnFault) -> Result<String> {
    let text = match fault {
        EdnFault::Bad { at } => format!(in alloc; "bad {at}")?,
        EdnFault::Unsupported { at, what } => format!(in alloc;
            "unsupported {} {at}",
            name_of(what)
        )?,
        EdnFault::Deep { at } => format!(in alloc; "deep {at}")?,
        EdnFault::Cut { at } => format!(in alloc; "cut {at}")?,
        EdnFault::Memory => bail!("out of memory"),
    };
    Ok(text)
}

fn name_of(what: What) -> &'static str {
    match what {
        What::Char => "char",
        What::Float => "float",
        What::BigInt => "bigint",
        What::Wide => "wide",
        What::NamespacedMap => "map",
        What::Tag => "tag",
    }
}
