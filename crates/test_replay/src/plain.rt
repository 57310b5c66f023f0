//! Scripts by a plain session.
use anyhow::{Result, bail};
use edn_core::read_form;
use edn_form::Edn;
use edn_print::print;
use plain_session::PlainSession;
use std::alloc::Global;

/// Adds its lines for a script.
pub fn answer_all(
    alloc: Global,
    plain: &mut PlainSession,
    script: &str,
    lines: &mut Vec<u8>,
) -> Result<()> {
    let mut at = 0;
    for _ in 0..script.len() {
        let Some((form, behind)) = next_form(alloc, script, at)? else {
            break;
        };
        answer(plain, &form, lines)?;
        at = behind;
    }
    Ok(())
}

/// The form that comes next from the place on, and the place after it.
pub(crate) fn next_form(alloc: Global, script: &str, at: usize) -> Result<Option<(Edn, usize)>> {
    match read_form(alloc, script.as_bytes(), at) {
        Ok(read) => Ok(read),
        Err(_) => bail!("a script cannot be read"),
    }
}

/// Adds its line for a form.
pub(crate) fn answer(plain: &mut PlainSession, form: &Edn, lines: &mut Vec<u8>) -> Result<()> {
    print(&plain.reply(form)?, lines)?;
    lines.push(b'\n')?;
    Ok(())
}
