//! The lines that report a log that stops.
use anyhow::Result;
use std::alloc::Global;

#[derive(Drop)]
pub(crate) struct Stop {
    /// Of the transaction that meets the stop.
    pub(crate) met: String,
    /// Of each one after it.
    pub(crate) behind: String,
}

impl Stop {
    /// The stop of a log that does not take this t.
    pub(crate) fn at(alloc: Global, t: u32) -> Result<Stop> {
        let basis = t.saturating_sub(1);
        Ok(Stop {
            met: format!(in alloc; "{{:fault :log :at {t} :basis {basis}}}\n")?,
            behind: format!(in alloc; "{{:fault :log-stopped :at {t} :basis {basis}}}\n")?,
        })
    }
}
