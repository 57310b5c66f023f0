//! The table that all seats share.
//!
//! Word 0 is the number of tickets drawn, word 1 the ticket served, word 2 the basis of the history, and word s + 3 the
//! mail word of session s: 0 free, 1 held by its reader, 2 by the holder of the turn. Slot 0 has the value that stands for
//! the history, and slot s + 1 the last snapshot mailed to session s.
ghost use Rattle.std.specs.Prelude.{◌≡◌, ◌+◌, ◌<◌};

use crate::beds::Beds;
use crate::named::{Mailed, Named};
use crate::patience::Patience;
use crate::view::{Code, View};
use atomic_table::{Table, TableRule};
use std::alloc::Global;
use std::marker::PhantomData;
use std::snapshot::Snapshot;
use std::sync::Wait;

/// What a slot has: slot 0 the value that stands for the history, each other one a snapshot.
#[derive(Drop)]
pub enum SlotValue<H, S> {
    Core(Option<H>),
    Mail(Option<S>),
}

/// What is fixed when the board is made: `home` is the value with which slot 0 began.
#[derive(Drop)]
pub struct Begun<H> {
    pub home: Snapshot<H>,
    pub sessions: u32,
    pub start: u32,
}

/// The rule: one lawful history for all seats.
pub struct OneHistory<H, S> {
    of: PhantomData<(H, S)>,
}

impl<H: Named, S: Mailed + Named<Entry = H::Entry>> TableRule<SlotValue<H, S>, View<Code>, Begun<H>>
    for OneHistory<H, S> {
    ghost use Rattle.board_rule.specs.Views.{codes, starting, IsSoundSince};
    ghost use Rattle.board_rule.specs.Board.{naming, Ruled};

    ghost holds = { λ k. Ruled
        (naming H.Entry.row.coded.code H.entries H.authors H.marks H.follows
        (IsSoundSince H.sound H.origin k.home.value) S.entries)
        k.sessions k.start };

    ghost first = { λ k. starting k.start (codes H.Entry.row.coded.code (H.entries k.home.value))
        (H.marks k.home.value).covered };
}

/// The table of all seats of one history. `H` is the type of slot 0's value, and `S` that of a mailed snapshot.
#[derive(Drop)]
pub struct Board<H: Named, S: Mailed + Named<Entry = H::Entry>> {
    pub(crate) table: Table<SlotValue<H, S>, View<Code>, Begun<H>, OneHistory<H, S>, Global>,
    pub(crate) beds: Beds,
    pub(crate) patience: Patience,
    ghost sized: { (table.shared.table_id.words ≡ table.shared.key.sessions + 3) × (table.shared.table_id.slots ≡ table.shared.key.sessions + 1) × (table.shared.key.sessions < 2147483648) },
}

impl<H: Named, S: Mailed + Named<Entry = H::Entry>> Board<H, S> {
    /// The number of sessions that have a mail word and a mail slot.
    pub fn sessions(&self) -> u32
        ensures { result ≡ self.now.table.shared.key.sessions }
    {
        (self.table.slot_count() - 1) as u32
    }

    /// How long seats that wait for a turn stay awake.
    pub fn patience(&self) -> Patience {
        self.patience
    }

    /// Whether the ticket is served, or was.
    pub fn is_served(&self, ticket: u64) -> bool {
        self.table.shared.peek(1) >= ticket
    }

    /// Whether the ticket is served, or so near in line that who waits for it stays awake.
    pub fn is_near(&self, ticket: u64) -> bool {
        ticket.wrapping_sub(self.table.shared.peek(1)) <= self.patience.places()
    }

    /// Says that who waits for the ticket is about to sleep. It has to look once more before it does.
    pub fn lie_down(&self, ticket: u64) {
        self.beds.take(ticket);
    }

    /// Sleeps until the ticket is served, or is near in line. It may also return for no reason.
    pub fn sleep<R: Wait>(&self, rt: &R, ticket: u64) {
        self.beds.sleep(rt, ticket);
    }

    /// Wakes who sleeps for the ticket served, and who sleeps for one that is near in line.
    pub fn wake(&self) {
        let served = self.table.shared.peek(1);
        self.beds.wake(served);
        self.beds.wake(served.wrapping_add(1));
        if self.patience.places() > 1 {
            self.beds.wake(served.wrapping_add(2));
        }
    }
}
