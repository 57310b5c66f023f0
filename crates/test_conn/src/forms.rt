//! The transactions, and which of the sessions made an entry.
use anyhow::{Result, bail};
use edn_core::{Edn, read_form};
use fb_values::{Entry, Value};
use std::alloc::Global;

/// What the sessions write.
const TEXTS: &[&str] = &["by session 0", "by session 1"];

/// Data of transactions.
#[derive(Drop)]
pub(crate) struct Forms {
    by_first: Edn,
    by_second: Edn,
    bad: Edn,
}

fn form(alloc: Global, text: &str) -> Result<Edn> {
    match read_form(alloc, text.as_bytes(), 0) {
        Ok(Some((form, _))) => Ok(form),
        _ => bail!("a text has no form"),
    }
}

impl Forms {
    pub(crate) fn new(alloc: Global) -> Result<Forms> {
        Ok(Forms {
            by_first: form(alloc, "[[:db/add \"x\" :db/doc \"by session 0\"]]")?,
            by_second: form(alloc, "[[:db/add \"x\" :db/doc \"by session 1\"]]")?,
            bad: form(alloc, "[[:db/add \"x\" :no/attribute 1]]")?,
        })
    }

    /// A transaction of this session that breaks no rule.
    pub(crate) fn good(&self, who: usize) -> &Edn {
        if who == 0 {
            &self.by_first
        } else {
            &self.by_second
        }
    }

    /// A transaction with an attribute that there is not.
    pub(crate) fn bad(&self) -> &Edn {
        &self.bad
    }
}

/// Whether the session made the entry.
pub(crate) fn is_by(entry: &Entry, who: usize) -> bool {
    let Some(wanted) = TEXTS.get(who) else {
        return false;
    };
    for datom in entry.datoms.as_slice() {
        if let Value::Str(text) = &datom.v {
            return text.as_str() == *wanted;
        }
    }
    false
}
