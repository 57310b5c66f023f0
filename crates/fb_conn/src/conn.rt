//! The connection, how it comes about, and its bell.
ghost use Rattle.std.specs.Prelude.{◌≡◌, ◌<◌, ◌≤◌, ℕ, [], map, length, nat_le, Some, IfOk, IfErr, vec_capacity};
ghost use Rattle.std.specs.List.{slice_get, All};
ghost use Rattle.fb_model.specs.History.{basis};
ghost use Rattle.fb_core.specs.Cores.{live_datoms};
ghost use Rattle.fb_desk.specs.Desks.{as_opened};
ghost use Rattle.board_rule.specs.Calls.{view_of, board_of};
ghost use Rattle.fb_conn.specs.declared.seats.Seat.{Seat};
ghost use Rattle.fb_conn.specs.Seats.{board_in, last_in, sessions_of, begun_of, IsSeatOf, IsWorkerOf, state_of};

use crate::bell::{Bell, Doorbell};
use crate::home::Home;
use crate::letters::{Letter, letters_of};
use crate::seats::Seat;
use crate::tray::Tray;
use board_seats::{Board, BoardSeat, BoardStop, Mails, Opened, Patience, open};
use fb_core::Core;
use fb_log::Log;
use fb_memory::Memory;
use fb_view::Snapshot;
use std::alloc::Global;
use std::sync::Wait;

/// A database that several sessions and a merge worker share.
#[derive(Drop)]
pub struct Conn<L: Log> {
    pub(crate) alloc: Global,
    pub(crate) board: Board<Home<L>, Letter>,
    pub(crate) bell: Doorbell,
    /// Where sessions in line suppose what comes.
    pub(crate) tray: Option<Tray<L::Record>>,
    pub(crate) merge_at: u64,
}

/// A connection that was opened.
#[derive(Drop)]
pub struct Made<L: Log> {
    pub conn: Conn<L>,
    /// The seats of the sessions, in the order of their numbers.
    pub seats: Vec<Seat>,
    pub worker: Seat,
}

/// A connection that was not opened, since memory ran out: the core and the log, as they were handed in.
#[derive(Drop)]
pub struct ConnStop<L: Log> {
    pub core: Core,
    pub log: L,
}

/// All that a connection takes memory for besides its board: shares of the first snapshot, and room for the seats.
#[derive(Drop)]
struct Shares {
    mails: Vec<Letter>,
    /// One for the seat of each session.
    lasts: Vec<Snapshot>,
    room: Vec<Seat>,
    worker: Snapshot,
}

fn shares_of(alloc: Global, first: &Snapshot, sessions: u32) -> Result<Shares, Memory>
    ensures mails { IfOk result (λ shares. (length shares.mails.items ≡ sessions)
        × All (λ letter. letter.one.entries ≡ first.now.entries) shares.mails.items) }
    ensures lasts { IfOk result (λ shares. (length shares.lasts.items ≡ sessions)
        × All (λ last. last ≡ first.now) shares.lasts.items) }
    ensures room { IfOk result
        (λ shares. (shares.room.items ≡ []) × (sessions ≤ vec_capacity shares.room)) }
    ensures worker { IfOk result (λ shares. shares.worker ≡ first.now) }
{
    Ok(Shares {
        mails: letters_of(alloc, first, sessions)?,
        lasts: copies_of(alloc, first, sessions)?,
        room: Vec::with_capacity(alloc, sessions as usize)?,
        worker: first.share()?,
    })
}

/// So many shares of a snapshot.
fn copies_of(alloc: Global, snapshot: &Snapshot, count: u32) -> Result<Vec<Snapshot>, Memory>
    ensures count { IfOk result (λ copies. length copies.items ≡ count) }
    ensures copies { IfOk result (λ copies. All (λ copy. copy ≡ snapshot.now) copies.items) }
{
    let mut copies = Vec::new(alloc);
    for _ in 0..count {
        copies.push(snapshot.share()?)?;
    }
    Ok(copies)
}

/// The sessions' seats, each with the next of the snapshots. `room` has room for them.
fn seats_of(boards: Vec<BoardSeat>, lasts: Vec<Snapshot>, room: Vec<Seat>) -> Vec<Seat>
    requires lasts { length lasts.items ≡ length boards.items }
    requires empty { room.items ≡ [] }
    requires room { length boards.items ≤ vec_capacity room }
    ensures boards { map board_in result.items ≡ boards.items }
    ensures lasts { map last_in result.items ≡ lasts.items }
{
    let mut seats = room;
    let mut boards = boards.into_iter();
    let mut lasts = lasts.into_iter();
    while let Some(board) = boards.next() {
        let Some(last) = lasts.next() else {
            unreachable!()
        };
        seats.push_reserved(Seat { board, last });
    }
    seats
}

impl<L: Log> Conn<L> {
    /// Opens a database of 1 to 16 sessions. Merges are due from `merge_at` live datoms on, and who waits for a turn stays awake as
    /// `patience` says; where two are awake, they suppose what the turns before theirs come to. All memory is taken here: where it
    /// runs out, what was handed in is handed back.
    pub fn new(
        alloc: Global,
        core: Core,
        log: L,
        sessions: u32,
        merge_at: u64,
        patience: Patience,
    ) -> Result<Made<L>, ConnStop<L>>
        requires few { (0 < sessions) × (sessions ≤ 16) }
        requires fresh { (core.authors ≡ []) × L.keeps log core.snapshot.entries log }
        ensures count { IfOk result (λ m. (length m.seats.items ≡ sessions)
            × (sessions_of m.conn ≡ sessions)
            × (m.conn.merge_at ≡ merge_at)) }
        ensures seats { IfOk result (λ m. (k : ℕ) (seat : Seat)
            → slice_get m.seats.items k ≡ Some seat
            → IsSeatOf m.conn seat
            × ((view_of seat.board).number ≡ k)
            × (state_of seat
            ≡ record (as_opened core.snapshot.entries) { seat = (state_of seat).seat })) }
        ensures worker { IfOk result (λ m. IsWorkerOf m.conn m.worker
            × ((view_of m.worker.board).given ≡ sessions)
            × ((view_of m.worker.board).covered ≡ core.snapshot.covered)
            × ((view_of m.worker.board).start ≡ basis core.snapshot.entries)
            × (m.worker.last.entries ≡ core.snapshot.entries)) }
        ensures unused { IfOk result (λ m. (view_of m.worker.board).draws ≡ 0) }
        ensures begun { IfOk result
            (λ m. begun_of m.conn ≡ log) }
        ensures stop { IfErr result (λ stop. (stop.core ≡ core) × (stop.log ≡ log)) }
    {
        let Ok(shares) = shares_of(alloc, core.snapshot(), sessions) else {
            return Err(ConnStop { core, log });
        };
        let Shares {
            mails,
            lasts,
            room,
            worker: last,
        } = shares;
        let home = Home::new(alloc, core, log)?;
        let tray = if patience.is_of_both() {
            Some(Tray::new())
        } else {
            None
        };
        match open(alloc, home, Mails::of(mails), patience) {
            Ok(
                Opened {
                    board,
                    first,
                    seats,
                },
            ) => Ok(Made {
                conn: Conn {
                    alloc,
                    board,
                    bell: Doorbell::new(),
                    tray,
                    merge_at,
                },
                seats: seats_of(seats, lasts, room),
                worker: Seat { board: first, last },
            }),
            Err(BoardStop { home }) => Err(home.into_stop()),
        }
    }

    /// Asks the worker for a merge.
    pub fn ring<R: Wait>(&self, rt: &R) {
        self.bell.ring(rt);
    }

    /// Says from how many live datoms on the worker wants to be asked, where a merge is due.
    pub fn ring_from(&self, live: u64) {
        self.bell.ring_from(live);
    }

    /// Tells the worker that no session is left.
    pub fn shut<R: Wait>(&self, rt: &R) {
        self.bell.shut(rt);
    }

    /// Sleeps, as the worker, until a merge is asked for or no session is left.
    pub fn wait<R: Wait>(&self, rt: &R) -> Bell {
        self.bell.wait(rt)
    }

    /// Whether so many of the snapshot's datoms are live that they are to be merged.
    pub fn due(&self, snapshot: &Snapshot) -> bool
        ensures { result ≡ nat_le self.now.merge_at (live_datoms snapshot.now.live) }
    {
        snapshot.live_len() >= self.merge_at
    }
}
