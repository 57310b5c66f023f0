//! The forms of a script, one after another.
use anyhow::{Result, bail};
use edn_core::read_form;
use edn_form::Edn;
use std::alloc::Global;

/// The next form of the script from the place on, if there is one, and the place after it.
pub(crate) fn next_form(alloc: Global, script: &[u8], at: usize) -> Result<Option<(Edn, usize)>> {
    match read_form(alloc, script, at) {
        Ok(read) => Ok(read),
        Err(_) => bail!("a script cannot be read"),
    }
}

/// The place after the next form, if there is one.
pub(crate) fn end_of_form(alloc: Global, script: &[u8], at: usize) -> Result<Option<usize>> {
    match next_form(alloc, script, at)? {
        Some((_, behind)) => Ok(Some(behind)),
        None => Ok(None),
    }
}
