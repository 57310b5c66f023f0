//! A session, from one command to the next.
use crate::checks::Checks;
use crate::commands::{Command, Look, Turn, command_in};
use crate::filters::{Filter, filter_named};
use crate::points::end_of;
use crate::replies;
use crate::sight::Sight;
use crate::stops::{ReadStop, or_refused};
use edn_form::Edn;
use fb_history::EntryList;
use fb_memory::Memory;
use fb_numbers::LEAST_INSTANT;
use fb_text::Text;
use fb_values::{Datom, Entry};
use plain_reads::{Window, basis, said, standing};
use plain_step::{Decision, Guard, step};
use std::alloc::Global;
use tx_refusals::Refusal;

/// What a session sees as it begins: every transaction, and no history.
const WHOLE: Window = Window {
    from: 0,
    to: 2_147_483_648,
    history: false,
};

/// A session that is alone with a history.
#[derive(Drop)]
pub struct PlainSession {
    alloc: Global,
    entries: Vec<Entry>,
    window: Window,
    filters: Vec<Filter>,
    /// Whether the program's guard judges its transactions.
    is_strict: bool,
    /// What the clock reads at the next transaction, and how much more at the one after it.
    reading: i64,
    step: i64,
}

/// The history that has only the built-in schema.
pub fn new_history(alloc: Global) -> Result<Vec<Entry>, Memory> {
    let first = EntryList::first(alloc)?;
    let mut entries = Vec::new(alloc);
    entries.push(first.at(0).copy()?)?;
    Ok(entries)
}

/// The reply to a transaction, where the clock reads this. The history grows by the entry.
pub fn transact<G: Guard>(
    alloc: Global,
    entries: &mut Vec<Entry>,
    data: &Edn,
    reading: i64,
    guard: &G,
) -> Result<Edn, Memory> {
    match step(alloc, entries, data, reading, guard)? {
        Decision::Refused(refusal) => {
            let keyword = refusal.reason.keyword();
            replies::refusal(alloc, keyword, refusal.at, basis(entries))
        }
        Decision::Accepted(entry, tempids) => accept(alloc, entries, entry, tempids),
    }
}

/// The receipt of an entry that is put at the end of the history.
fn accept(
    alloc: Global,
    entries: &mut Vec<Entry>,
    entry: Entry,
    tempids: Vec<(Text, u64)>,
) -> Result<Edn, Memory> {
    let receipt = replies::receipt(alloc, entry.t, tempids)?;
    entries.push(entry)?;
    Ok(receipt)
}

/// The reply that a read gives at the basis, also where it is refused.
fn replied(alloc: Global, answer: Result<Edn, ReadStop>, basis: u32) -> Result<Edn, Memory> {
    match answer {
        Ok(reply) => Ok(reply),
        Err(ReadStop::Refused(keyword, at)) => replies::refusal(alloc, keyword, at, basis),
        Err(ReadStop::Memory) => Err(Memory),
    }
}

fn copies(alloc: Global, entries: &[Entry]) -> Result<Vec<Entry>, Memory> {
    let mut list = Vec::new(alloc);
    for entry in entries {
        list.push(entry.copy()?)?;
    }
    Ok(list)
}

impl PlainSession {
    /// A session over the history that has only the built-in schema. Its clock begins at a reading, and each transaction steps it.
    pub fn new(alloc: Global, first: i64, step: i64) -> Result<PlainSession, Memory> {
        Ok(PlainSession {
            alloc,
            entries: new_history(alloc)?,
            window: WHOLE,
            filters: Vec::new(alloc),
            is_strict: false,
            reading: first,
            step,
        })
    }

    /// The same session, whose transactions are judged by the program's guard from now on.
    pub fn strict(self) -> PlainSession {
        PlainSession {
            is_strict: true,
            ..self
        }
    }

    /// The same session, to go on with in another way.
    pub fn copy(&self) -> Result<PlainSession, Memory> {
        let mut filters = Vec::new(self.alloc);
        filters.extend_from_slice(&self.filters)?;
        Ok(PlainSession {
            alloc: self.alloc,
            entries: copies(self.alloc, &self.entries)?,
            window: self.window,
            filters,
            is_strict: self.is_strict,
            reading: self.reading,
            step: self.step,
        })
    }

    /// The reply to a form of a script.
    pub fn reply(&mut self, form: &Edn) -> Result<Edn, Memory> {
        let basis = basis(&self.entries);
        replied(self.alloc, self.answer(form), basis)
    }

    fn answer(&mut self, form: &Edn) -> Result<Edn, ReadStop> {
        match or_refused(command_in(form), "read/not-a-command", 0)? {
            Command::Transact(data) => Ok(self.transact(data)?),
            Command::Basis => Ok(replies::basis(self.alloc, basis(&self.entries))?),
            Command::Turn(turn) => {
                self.turn(turn)?;
                self.done()
            }
            Command::RequestIndex => self.done(),
            Command::Look(look) => self.look(look),
            Command::With(datas, look) => self.tried(datas, look),
            Command::Tuples(names, start, end) => {
                self.sight(&self.facts()?).tuples(names, start, end)
            }
        }
    }

    fn look(&self, look: Look<'_>) -> Result<Edn, ReadStop> {
        self.sight(&self.facts()?).reply(look)
    }

    /// Transactions are tried on a copy of the whole database, and the look goes over what became of it.
    fn tried(&self, datas: &[Edn], look: Look<'_>) -> Result<Edn, ReadStop> {
        or_refused(self.sees_all().then_some(()), "read/filtered", 0)?;
        let mut later = self.copy()?;
        let mut reports = Vec::new(self.alloc);
        for data in datas {
            match step(
                self.alloc,
                &later.entries,
                data,
                LEAST_INSTANT,
                &self.checks(),
            )? {
                Decision::Refused(refusal) => return Ok(later.refused(refusal)?),
                Decision::Accepted(entry, tempids) => {
                    let report = accept(self.alloc, &mut later.entries, entry, tempids)?;
                    reports.push(report).map_err(Memory::from)?;
                }
            }
        }
        let reply = replied(self.alloc, later.look(look), basis(&later.entries))?;
        Ok(replies::with(self.alloc, basis(&self.entries), reports, reply)?)
    }

    /// Whether nothing is narrowed or filtered.
    fn sees_all(&self) -> bool {
        let window = self.window;
        window.from == WHOLE.from
            && window.to == WHOLE.to
            && !window.history
            && self.filters.is_empty()
    }

    fn refused(&self, refusal: Refusal) -> Result<Edn, Memory> {
        let keyword = refusal.reason.keyword();
        replies::refusal(self.alloc, keyword, refusal.at, basis(&self.entries))
    }

    fn transact(&mut self, data: &Edn) -> Result<Edn, Memory> {
        let reading = self.reading;
        self.reading = reading.saturating_add(self.step);
        let checks = self.checks();
        transact(self.alloc, &mut self.entries, data, reading, &checks)
    }

    fn checks(&self) -> Checks {
        Checks {
            alloc: self.alloc,
            is_strict: self.is_strict,
        }
    }

    fn done(&self) -> Result<Edn, ReadStop> {
        Ok(replies::done(self.alloc, basis(&self.entries))?)
    }

    /// The facts at the end of the history.
    fn facts(&self) -> Result<Vec<Datom>, Memory> {
        standing(self.alloc, &said(self.alloc, &self.entries)?)
    }

    fn sight<'a>(&'a self, facts: &'a [Datom]) -> Sight<'a> {
        Sight {
            alloc: self.alloc,
            entries: &self.entries,
            facts,
            window: self.window,
            filters: &self.filters,
        }
    }

    /// What the session sees from now on.
    fn turn(&mut self, turn: Turn<'_>) -> Result<(), ReadStop> {
        match turn {
            Turn::AsOf(point) => {
                let end = end_of(&self.entries, point)?;
                self.window.to = self.window.to.min(end);
            }
            Turn::Since(point) => {
                let end = end_of(&self.entries, point)?;
                self.window.from = self.window.from.max(end);
            }
            Turn::History => self.window.history = true,
            Turn::Filter(name) => {
                let filter = or_refused(filter_named(name.as_str()), "read/no-filter", 1)?;
                self.filters.push(filter).map_err(Memory::from)?;
            }
            Turn::Unfilter => {
                self.window = WHOLE;
                self.filters.clear();
            }
        }
        Ok(())
    }
}
