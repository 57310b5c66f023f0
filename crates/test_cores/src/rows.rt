//! The table of transactions.
use anyhow::{Result, bail};
use edn_core::read_form;
use edn_form::Edn;
use std::alloc::Global;
use tx_refusals::Refusal;

/// A transaction, and by which reason it has to be refused, if it has to be.
#[derive(Drop)]
pub(crate) struct Row {
    pub(crate) data: Edn,
    refused: Option<String>,
}

impl Row {
    pub(crate) fn is_accepted(&self) -> bool {
        self.refused.is_none()
    }

    pub(crate) fn is_refused_by(&self, refusal: Refusal) -> bool {
        match &self.refused {
            Some(reason) => reason.as_str() == refusal.reason.keyword(),
            None => false,
        }
    }
}

/// The transactions of a table. Lines that begin with `#` say something of those that follow.
pub(crate) fn rows_of(alloc: Global, table: &str) -> Result<Vec<Row>> {
    let mut rows = Vec::new(alloc);
    for line in table.lines() {
        if !line.starts_with('#') {
            rows.push(row_of(alloc, line)?)?;
        }
    }
    Ok(rows)
}

fn row_of(alloc: Global, line: &str) -> Result<Row> {
    match line.split_once("\t:") {
        Some((data, reason)) => refused_row(alloc, data, reason),
        None => Ok(Row {
            data: form_in(alloc, line)?,
            refused: None,
        }),
    }
}

fn refused_row(alloc: Global, data: &str, reason: &str) -> Result<Row> {
    let reason = String::from_str(alloc, reason)?;
    Ok(Row {
        data: form_in(alloc, data)?,
        refused: Some(reason),
    })
}

fn form_in(alloc: Global, text: &str) -> Result<Edn> {
    match read_form(alloc, text.as_bytes(), 0) {
        Ok(Some((form, _))) => Ok(form),
        _ => bail!("a row has no form"),
    }
}
