//! What a session does that has drawn a ticket, while another has the turn: it supposes what its transaction will come to, so that
//! its record can be laid into the log by the very sync that ends the turn before.
use crate::conn::Conn;
use crate::seats::Seat;
use crate::tray::Tray;
use board_seats::Meanwhile;
use board_turn::come_near;
use edn_form::Edn;
use fb_core::{Draft, Guard, TxStop, supposed};
use fb_log::Log;
use fb_view::Snapshot;
use std::sync::Wait;

/// A transaction of which it is supposed what it comes to.
#[derive(Drop)]
pub(crate) struct Supposing<'a, L: Log, R, G> {
    pub(crate) conn: &'a Conn<L>,
    pub(crate) rt: &'a R,
    pub(crate) asked: &'a Edn,
    pub(crate) guard: &'a G,
    /// The instant of the entry that it is supposed to record, if any is.
    pub(crate) instant: Option<i64>,
}

impl<'a, L: Log, R: Wait, G: Guard<Snapshot>> Meanwhile for Supposing<'a, L, R, G> {
    fn pass(&mut self, ticket: u64) {
        let Some(tray) = &self.conn.tray else {
            return;
        };
        let Some(before) = self.value_before(tray, ticket) else {
            return;
        };
        self.instant = self.suppose(tray, ticket, before);
    }
}

impl<'a, L: Log, R: Wait, G: Guard<Snapshot>> Supposing<'a, L, R, G> {
    /// The value before the ticket's turn, if somebody shows it before that comes. It sleeps in the ticket's bed, so that whoever ends a
    /// turn wakes it, and whoever shows a value after it asked.
    fn value_before(&self, tray: &Tray<L::Record>, ticket: u64) -> Option<Snapshot> {
        let board = &self.conn.board;
        come_near(board, self.rt, ticket);
        for _ in self.rt.forever() {
            if board.is_served(ticket) {
                return None;
            }
            if tray.has_before(ticket) {
                return tray.before(self.rt, ticket);
            }
            tray.ask(ticket);
            board.lie_down(ticket);
            if !tray.has_before(ticket) && !board.is_served(ticket) {
                board.sleep(self.rt, ticket);
            }
        }
        unreachable!()
    }

    /// Lays the record of what the transaction comes to after this value, and shows the value after it. It gives the instant of the
    /// entry. A refusal leaves the value as it is.
    fn suppose(&self, tray: &Tray<L::Record>, ticket: u64, before: Snapshot) -> Option<i64> {
        // This call brings into the proof that the snapshot represents its history.
        let _basis = before.basis();
        match supposed(self.conn.alloc, self.asked, &before, self.guard) {
            Ok(after) => {
                let entries = after.entries();
                let entry = entries.at(entries.len() - 1);
                let instant = entry.instant;
                let record = L::record(self.conn.alloc, entry).ok()?;
                tray.lay(self.rt, ticket, record);
                tray.show_supposed(self.rt, ticket, after);
                self.wake_after(tray, ticket);
                Some(instant)
            }
            Err(TxStop::Refused(_)) => {
                tray.show_supposed(self.rt, ticket, before);
                self.wake_after(tray, ticket);
                None
            }
            Err(TxStop::Memory) => None,
        }
    }

    /// Wakes who asked for the value after the ticket's turn.
    fn wake_after(&self, tray: &Tray<L::Record>, ticket: u64) {
        if tray.is_asked_after(ticket) {
            self.conn.board.wake();
        }
    }

    /// The record that is likely to come after the draft's. If the draft is another than was supposed, so is whatever was supposed after
    /// it: its value is shown, so that others suppose rightly from then on. So it is where nothing was supposed and somebody asks.
    pub(crate) fn next_record(&self, seat: &Seat, draft: &Draft) -> Option<L::Record> {
        let tray = self.conn.tray.as_ref()?;
        let ticket = seat.board.ticket()?;
        if self.instant == Some(draft.entry().instant) {
            return tray.take(self.rt, ticket.wrapping_add(1));
        }
        if self.instant.is_some() || tray.is_asked_after(ticket) {
            tray.show(self.rt, ticket, draft.after().share().ok()?);
            self.wake_after(tray, ticket);
        }
        None
    }
}
