//! The database before a transaction: a history with its facts.
use fb_values::{Datom, Entry};
use plain_reads::{basis, users_issued};

/// A history, and what is read from it once.
#[derive(Clone, Copy)]
pub struct Db<'a> {
    pub entries: &'a [Entry],
    /// What the history says.
    pub said: &'a [Datom],
    /// What holds at its end.
    pub facts: &'a [Datom],
    /// The t of the transaction.
    pub next_t: u32,
    /// The greatest user number in use.
    pub users: u64,
}

impl<'a> Db<'a> {
    pub fn of(entries: &'a [Entry], said: &'a [Datom], facts: &'a [Datom]) -> Db<'a> {
        Db {
            entries,
            said,
            facts,
            next_t: basis(entries).saturating_add(1),
            users: users_issued(entries),
        }
    }
}
