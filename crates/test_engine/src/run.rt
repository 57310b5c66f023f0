//! One history twice: by the plain program as a list of entries, and by the engine as a snapshot. Each transaction is decided by
//! both, which have to agree in the reply and in what is recorded.
use crate::guard::NoEmptyText;
use crate::{CLOCK, engine};
use anyhow::{Result, bail};
use edn_core::read_form;
use edn_form::Edn;
use edn_print::print;
use fb_values::Entry;
use fb_view::Snapshot;
use std::alloc::Global;

/// A history on which transactions are tried, one after another.
#[derive(Drop)]
pub(crate) struct Run {
    alloc: Global,
    guard: NoEmptyText,
    entries: Vec<Entry>,
    snapshot: Snapshot,
}

/// The canonical texts of what both reply to a transaction.
#[derive(Drop)]
struct Replies {
    engine: Vec<u8>,
    plain: Vec<u8>,
}

impl Run {
    /// The history that has only the built-in schema.
    pub(crate) fn new(alloc: Global, guard: NoEmptyText) -> Result<Run> {
        Ok(Run {
            alloc,
            guard,
            entries: plain_session::new_history(alloc)?,
            snapshot: Snapshot::first(alloc)?,
        })
    }

    /// Begins a new history.
    pub(crate) fn begin_anew(&mut self, guard: NoEmptyText) -> Result<()> {
        *self = Run::new(self.alloc, guard)?;
        Ok(())
    }

    /// The canonical text of the reply to the transaction whose data the bytes are.
    pub(crate) fn reply_to(&mut self, bytes: &[u8]) -> Result<Vec<u8>> {
        let replies = self.replies_to(bytes)?;
        if replies.engine != replies.plain || !engine::is_same(&self.snapshot, &self.entries) {
            bail!("the engine and the plain program differ");
        }
        Ok(replies.plain)
    }

    fn replies_to(&mut self, bytes: &[u8]) -> Result<Replies> {
        let data = form_in(self.alloc, bytes)?;
        Ok(Replies {
            engine: self.by_engine(&data)?,
            plain: self.by_plain(&data)?,
        })
    }

    fn by_engine(&mut self, data: &Edn) -> Result<Vec<u8>> {
        let reply = engine::transact(self.alloc, &mut self.snapshot, data, &self.guard)?;
        text_of(self.alloc, &reply)
    }

    fn by_plain(&mut self, data: &Edn) -> Result<Vec<u8>> {
        let entries = &mut self.entries;
        let reply = plain_session::transact(self.alloc, entries, data, CLOCK, &self.guard)?;
        text_of(self.alloc, &reply)
    }
}

fn form_in(alloc: Global, bytes: &[u8]) -> Result<Edn> {
    match read_form(alloc, bytes, 0) {
        Ok(Some((form, _))) => Ok(form),
        _ => bail!("a row has no form"),
    }
}

fn text_of(alloc: Global, form: &Edn) -> Result<Vec<u8>> {
    let mut text = Vec::new(alloc);
    print(form, &mut text)?;
    Ok(text)
}
