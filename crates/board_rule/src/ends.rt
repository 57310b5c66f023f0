//! How a board is made, and what is left when it is closed.
ghost use Rattle.std.specs.Prelude.{◌≡◌, ℕ, ◌+◌, ◌<◌, ◌≤◌, [], ◌∷◌, map, length, Some, None, IfOk, IfErr, slice_get, slice_index_or, slice_set, replicate, vec_capacity, true, false};
ghost use Rattle.std.specs.List.{All};
ghost use Rattle.std.specs.Slots.{slots_filled, slots_len};
ghost use Rattle.board_rule.specs.Views.{worker, IsLawful, codes, starting, IsWhole};
ghost use Rattle.board_rule.specs.Board.{mailed_as};
ghost use Rattle.board_rule.specs.declared.board.SlotValue.TheVariants.{Core};
ghost use Rattle.board_rule.specs.Calls.{view_of, board_of};

use crate::beds::Beds;
use crate::board::{Begun, Board, SlotValue};
use crate::mails::Mails;
use crate::named::{Mailed, Named};
use crate::patience::Patience;
use crate::seat::BoardSeat;
use atomic_table::{Closed, Refused, Table};
use fb_memory::Memory;
use std::alloc::Global;
use std::snapshot::Snapshot;

/// A board that was not made, since memory ran out.
#[derive(Drop)]
pub struct BoardStop<H> {
    /// The value that was to be in slot 0.
    pub home: H,
}

/// The memory for a board's words and slots.
#[derive(Drop)]
struct Room<H, S> {
    words: Vec<u64>,
    slots: Vec<SlotValue<H, S>>,
}

/// The words of so many sessions, and room for their slots.
fn room_for<H: Drop, S: Drop>(
    alloc: Global,
    sessions: usize,
    basis: u32,
) -> Result<Room<H, S>, Memory>
    requires { sessions < 2147483648 }
    ensures words { IfOk result
        (λ r. r.words.items ≡ slice_set (replicate (sessions + 3) 0) 2 basis) }
    ensures slots { IfOk result
        (λ r. (r.slots.items ≡ []) × (sessions + 1 ≤ vec_capacity r.slots)) }
{
    let mut words = Vec::from_elem(alloc, 0u64, sessions + 3)?;
    words[2] = basis as u64;
    let slots = Vec::with_capacity(alloc, sessions + 1)?;
    Ok(Room { words, slots })
}

/// Slot 0 with the value, and a mail slot for each snapshot.
fn lay_slots<H: Drop, S: Drop>(
    home: H,
    mailed: Vec<S>,
    mut slots: Vec<SlotValue<H, S>>,
) -> Vec<SlotValue<H, S>>
    requires empty { slots.items ≡ [] }
    requires room { length mailed.items + 1 ≤ vec_capacity slots }
    ensures { result.items ≡ Core (Some home) ∷ map mailed_as mailed.items }
{
    slots.push_reserved(SlotValue::Core(Some(home)));
    let mut mailed = mailed.into_iter();
    while let Some(snapshot) = mailed.next() {
        slots.push_reserved(SlotValue::Mail(Some(snapshot)));
    }
    slots
}

/// The value in slot 0.
fn home_of<H: Drop, S: Drop>(slots: Vec<SlotValue<H, S>>) -> H
    requires { (h : H) × (slice_get slots.items 0 ≡ Some (Core (Some h))) }
    ensures { slice_get slots.items 0 ≡ Some (Core (Some result)) }
{
    match slots.into_iter().next() {
        Some(slot) => core_of(slot),
        None => unreachable!(),
    }
}

fn core_of<H: Drop, S: Drop>(place: SlotValue<H, S>) -> H
    requires { (h : H) × (place ≡ Core (Some h)) }
    ensures { place ≡ Core (Some result) }
{
    match place {
        SlotValue::Core(Some(home)) => home,
        SlotValue::Core(None) => unreachable!(),
        SlotValue::Mail(_) => unreachable!(),
    }
}

/// Drops what the mail slots have.
fn clear<S: Drop>(mut closed: Closed<S, Global>)
    requires full { (k : ℕ) → 1 ≤ k → k < slots_len closed.slots
        → slice_index_or (slots_filled closed.slots) k false ≡ true }
    requires taken { slice_index_or (slots_filled closed.slots) 0 false ≡ false }
{
    let mut i = 1;
    while i < closed.slot_count() {
        drop(closed.take(i));
        i += 1;
    }
    closed.free();
}

impl<H: Named, S: Mailed + Named<Entry = H::Entry>> Board<H, S> {
    /// A board of one history, with a mail slot for each snapshot, and its first seat. `basis` is that of the history, and seats
    /// that wait stay awake as `patience` says.
    pub fn new(
        alloc: Global,
        home: H,
        basis: u32,
        mailed: Mails<S>,
        patience: Patience,
    ) -> Result<(Board<H, S>, BoardSeat), BoardStop<H>>
        requires history { (basis + 1 ≡ length (H.entries home))
            × IsLawful H.follows (H.entries home) }
        requires home { (H.authors home ≡ []) × ((H.marks home).stop ≡ None) × H.sound home }
        requires mailed { All (λ s. S.entries s ≡ H.entries home) mailed
            × (length mailed < 2147483648) }
        ensures board { IfOk result (λ r. (board_of r.1 ≡ r.0.table.shared.table_id)
            × (r.0.table.shared.key.sessions ≡ length mailed)
            × (r.0.table.shared.key.start ≡ basis)) }
        ensures home { IfOk result (λ r. r.0.table.shared.key.home.value ≡ home) }
        ensures seat { IfOk result (λ r. view_of r.1
            ≡ starting basis (codes H.Entry.row.coded.code (H.entries home))
            (H.marks home).covered) }
        ensures stop { IfErr result (λ stop. stop.home ≡ home) }
    {
        let mailed = mailed.into_vec();
        let sessions = mailed.len();
        let about = Begun {
            home: Snapshot::of(&home),
            sessions: sessions as u32,
            start: basis,
        };
        let Ok(Room { words, slots }) = room_for(alloc, sessions, basis) else {
            return Err(BoardStop { home });
        };
        let slots = lay_slots(home, mailed, slots);
        match Table::new(alloc, words.as_slice(), slots, &about) {
            Ok((table, seat)) => Ok((
                Board {
                    table,
                    beds: Beds::new(),
                    patience,
                },
                BoardSeat {
                    number: u32::MAX,
                    given: 0,
                    draws: 0,
                    ticket: None,
                    badge: seat.into_badge(),
                },
            )),
            Err(Refused { slots }) => Err(BoardStop {
                home: home_of(slots),
            }),
        }
    }

    /// The value of slot 0, which stands for the whole history. Every other seat was joined to this one, the first.
    pub fn close(self, seat: BoardSeat) -> H
        requires seat { board_of seat ≡ self.table.shared.table_id }
        requires first { (view_of seat).number ≡ worker }
        requires all { (view_of seat).seats ≡ (view_of seat).given + 1 }
        requires free { (view_of seat).ticket ≡ None }
        ensures lawful { IsLawful H.follows (H.entries result) }
        ensures sound { H.sound result }
        ensures origin { H.origin result ≡ H.origin self.table.shared.key.home.value }
        ensures whole { IsWhole (codes H.Entry.row.coded.code (H.entries result)) (H.authors result)
            (H.marks result) (view_of seat) }
    {
        let Board {
            table,
            beds: _,
            patience: _,
        } = self;
        let BoardSeat {
            number: _,
            given: _,
            draws: _,
            ticket: _,
            badge,
        } = seat;
        let mut closed = table.close_with(badge.into_seat());
        let home = core_of(closed.take(0));
        clear(closed);
        home
    }
}
