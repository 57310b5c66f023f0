//! What the sessions ask, and what they are answered beside a value of the database.

use tx_refusals::Refusal;

/// What a session asks.
#[derive(Clone, Copy, Debug, PartialEq, Eq)]
pub(crate) enum Call {
    /// A transaction that breaks no rule.
    Good,
    /// A transaction that breaks one.
    Bad,
    Db,
    Sync,
}

/// A call of one of the sessions, which are 0 and 1.
#[derive(Clone, Copy)]
pub(crate) struct Turn {
    pub(crate) who: usize,
    pub(crate) call: Call,
}

/// What a call is answered, beside a value of the database.
#[derive(Clone, Copy, Debug, PartialEq, Eq)]
pub(crate) enum Said {
    /// The t of the transaction, and the entity of its tempid.
    Receipt { t: u64, entity: u64 },
    Refused(Refusal),
    /// The log did not take the entry, which was to have this t.
    LogFault(u64),
    /// The log did not take an earlier entry, which was to have this t.
    Stopped(u64),
    Shown,
}
