//! The plain model: what has been recorded, where the log stopped, and what each session has seen. In one thread nobody ever holds a
//! word of the mail, so each commit is mailed to both sessions, and a look at the mail shows all that there is.
use crate::calls::{Call, Said, Turn};
use crate::forms::is_by;
use fb_conn::{Seat, Stop};
use fb_memory::Memory;
use fb_numbers::USER_ENTITIES;
use fb_view::Snapshot;
use std::alloc::Global;
use tx_refusals::{Reason, Refusal};

/// How many answers there were of each kind.
#[derive(Clone, Copy)]
pub(crate) struct Counts {
    pub(crate) runs: u64,
    pub(crate) receipts: u64,
    pub(crate) refusals: u64,
    pub(crate) log_faults: u64,
    pub(crate) stopped: u64,
    pub(crate) looks: u64,
}

impl Counts {
    pub(crate) fn none() -> Counts {
        Counts {
            runs: 0,
            receipts: 0,
            refusals: 0,
            log_faults: 0,
            stopped: 0,
            looks: 0,
        }
    }

    pub(crate) fn count(&mut self, said: Said) {
        match said {
            Said::Receipt { .. } => self.receipts = self.receipts.saturating_add(1),
            Said::Refused(_) => self.refusals = self.refusals.saturating_add(1),
            Said::LogFault(_) => self.log_faults = self.log_faults.saturating_add(1),
            Said::Stopped(_) => self.stopped = self.stopped.saturating_add(1),
            Said::Shown => self.looks = self.looks.saturating_add(1),
        }
    }
}

/// Where the log stopped, and whose transaction it was.
#[derive(Clone, Copy, Debug, PartialEq, Eq)]
pub(crate) struct Halt {
    at: u64,
    author: u64,
}

/// The stop of a connection in the model's words.
pub(crate) fn halt_of(stop: Option<Stop>) -> Option<Halt> {
    match stop {
        Some(stop) => Some(Halt {
            at: u64::from(stop.at),
            author: u64::from(stop.author),
        }),
        None => None,
    }
}

#[derive(Drop)]
pub(crate) struct Model {
    /// Which session made each entry after the first.
    pub(crate) authors: Vec<usize>,
    pub(crate) halt: Option<Halt>,
    /// The t of the entry that the log does not take.
    pub(crate) fails_at: Option<u64>,
    /// The t up to which each session has seen the history.
    seen: Vec<u64>,
}

impl Model {
    pub(crate) fn new(alloc: Global, fails_at: Option<u64>) -> Result<Model, Memory> {
        Ok(Model {
            authors: Vec::new(alloc),
            halt: None,
            fails_at,
            seen: vec![in alloc; 0, 0]?,
        })
    }

    /// The t of the last entry.
    pub(crate) fn basis(&self) -> u64 {
        self.authors.len() as u64
    }

    /// The t at which the log stopped.
    pub(crate) fn stop_at(&self) -> Option<u64> {
        match self.halt {
            Some(halt) => Some(halt.at),
            None => None,
        }
    }

    /// Does what the session asks, and says what it is to be answered.
    pub(crate) fn answer(&mut self, turn: Turn) -> Result<Said, Memory> {
        let said = match turn.call {
            Call::Good => self.record(turn.who)?,
            Call::Bad => self.refuse(),
            Call::Db | Call::Sync => Said::Shown,
        };
        let basis = self.basis();
        if let Some(seen) = self.seen.get_mut(turn.who) {
            *seen = basis;
        }
        Ok(said)
    }

    fn record(&mut self, who: usize) -> Result<Said, Memory> {
        if let Some(halt) = self.halt {
            return Ok(Said::Stopped(halt.at));
        }
        let t = self.basis().saturating_add(1);
        if self.fails_at == Some(t) {
            self.halt = Some(Halt {
                at: t,
                author: who as u64,
            });
            return Ok(Said::LogFault(t));
        }
        self.authors.push(who)?;
        Ok(Said::Receipt {
            t,
            entity: USER_ENTITIES.saturating_add(t),
        })
    }

    fn refuse(&self) -> Said {
        match self.halt {
            Some(halt) => Said::Stopped(halt.at),
            None => Said::Refused(Refusal {
                reason: Reason::NotAnAttribute,
                at: 0,
            }),
        }
    }

    /// Whether the snapshot has all that was recorded, and nothing else.
    pub(crate) fn has(&self, snapshot: &Snapshot) -> bool {
        self.has_up_to(snapshot, self.basis())
    }

    /// Whether the seats' last snapshots are what the sessions have seen.
    pub(crate) fn have_seen(&self, seats: &[Seat]) -> bool {
        for (seat, seen) in seats.iter().zip(self.seen.iter()) {
            if !self.has_up_to(seat.last(), *seen) {
                return false;
            }
        }
        seats.len() == self.seen.len()
    }

    fn has_up_to(&self, snapshot: &Snapshot, t: u64) -> bool {
        let entries = snapshot.entries();
        for place in 1..entries.len() {
            let Some(who) = self.authors.get(place as usize - 1) else {
                return false;
            };
            if !is_by(entries.at(place), *who) {
                return false;
            }
        }
        t <= self.basis() && u64::from(entries.len()) == t.saturating_add(1)
    }
}
