//! Where sessions in line show each other what the turns before theirs are supposed to come to. It is a hint and nothing more: each
//! turn decides anew, and a record from here is compared with the right one, byte by byte, before it counts. So no clause speaks of
//! it, and its use is no step of the board.
use fb_view::Snapshot;
use std::mem;
use std::sync::atomic::AtomicU64;
use std::sync::atomic::Ordering::SeqCst;
use std::sync::{Mutex, Wait};

/// The value of the database after a ticket's turn.
#[derive(Drop)]
struct Shown {
    ticket: u64,
    value: Snapshot,
}

/// The record of the transaction of a ticket's turn.
#[derive(Drop)]
struct Laid<R: Drop> {
    ticket: u64,
    record: R,
}

#[derive(Drop)]
pub(crate) struct Tray<R: Drop> {
    /// The last ticket whose session asked for the value before its turn.
    asked: AtomicU64,
    /// The ticket of the value that was shown last. It changes under the lock alone.
    seen: AtomicU64,
    shown: Mutex<Option<Shown>>,
    /// Two in line may suppose at once, so that the record of the second does not push out that of the first.
    even: Mutex<Option<Laid<R>>>,
    odd: Mutex<Option<Laid<R>>>,
}

impl<R: Drop> Tray<R> {
    pub(crate) fn new() -> Tray<R> {
        Tray {
            asked: AtomicU64::new(0),
            seen: AtomicU64::new(u64::MAX),
            shown: Mutex::new(None),
            even: Mutex::new(None),
            odd: Mutex::new(None),
        }
    }

    /// Says that somebody is about to sleep until the value before the ticket's turn is shown. It has to look once more before it does.
    pub(crate) fn ask(&self, ticket: u64) {
        if self.asked.load(SeqCst) < ticket {
            self.asked.store(ticket, SeqCst);
        }
    }

    /// Whether somebody asked for the value after the ticket's turn, or for a later one. Where two ask at the same time it may miss one.
    pub(crate) fn is_asked_after(&self, ticket: u64) -> bool {
        self.asked.load(SeqCst) > ticket
    }

    /// Whether the value before the ticket's turn is shown.
    pub(crate) fn has_before(&self, ticket: u64) -> bool {
        self.seen.load(SeqCst).wrapping_add(1) == ticket
    }

    /// A share of the value before the ticket's turn, where it is shown.
    pub(crate) fn before<W: Wait>(&self, rt: &W, ticket: u64) -> Option<Snapshot> {
        let shown = self.shown.lock(rt);
        match &*shown {
            Some(last) if last.ticket.wrapping_add(1) == ticket => last.value.share().ok(),
            _ => None,
        }
    }

    /// Shows the value after the ticket's turn, which came to it.
    pub(crate) fn show<W: Wait>(&self, rt: &W, ticket: u64, value: Snapshot) {
        let mut shown = self.shown.lock(rt);
        let last = mem::replace(&mut *shown, Some(Shown { ticket, value }));
        self.seen.store(ticket, SeqCst);
        drop(shown);
        // The older value is dropped where nobody waits for the lock.
        drop(last);
    }

    /// Shows the value that the ticket's turn is supposed to come to, where the one before it is still shown. If it is not, a turn has
    /// come to something else since, and shows that.
    pub(crate) fn show_supposed<W: Wait>(&self, rt: &W, ticket: u64, value: Snapshot) {
        let mut shown = self.shown.lock(rt);
        if !self.has_before(ticket) {
            return;
        }
        let last = mem::replace(&mut *shown, Some(Shown { ticket, value }));
        self.seen.store(ticket, SeqCst);
        drop(shown);
        drop(last);
    }

    /// Lays the record of the ticket's turn.
    pub(crate) fn lay<W: Wait>(&self, rt: &W, ticket: u64, record: R) {
        let mut laid = self.place_of(ticket).lock(rt);
        let last = mem::replace(&mut *laid, Some(Laid { ticket, record }));
        drop(laid);
        drop(last);
    }

    /// Takes the record of the ticket's turn, where it is laid.
    pub(crate) fn take<W: Wait>(&self, rt: &W, ticket: u64) -> Option<R> {
        let mut laid = self.place_of(ticket).lock(rt);
        let last = mem::replace(&mut *laid, None);
        drop(laid);
        match last {
            Some(laid) if laid.ticket == ticket => Some(laid.record),
            _ => None,
        }
    }

    fn place_of(&self, ticket: u64) -> &Mutex<Option<Laid<R>>> {
        if ticket % 2 == 0 {
            &self.even
        } else {
            &self.odd
        }
    }
}
