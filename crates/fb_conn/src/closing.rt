//! What is left when the connection is closed.
ghost use Rattle.std.specs.Prelude.{◌≡◌, ℕ, ◌+◌, ◌<◌, length, Some};
ghost use Rattle.std.specs.List.{slice_get, AllByRecursion};
ghost use Rattle.fb_model.specs.History.{basis};
ghost use Rattle.fb_core.specs.Cores.{CoreStands};
ghost use Rattle.board_rule.specs.Views.{StartsWith};
ghost use Rattle.board_rule.specs.Calls.{view_of};
ghost use Rattle.fb_conn.specs.declared.seats.Seat.{Seat};
ghost use Rattle.fb_conn.specs.Homes.{GoesWithLog, IsTornBy};
ghost use Rattle.fb_conn.specs.Seats.{table_of, begun_of, IsAtRest, IsWorkerOf, state_of};
ghost use Rattle.fb_conn.specs.Closing.{IsTakenIn};

use crate::conn::Conn;
use crate::home::{Kept, Stop};
use crate::seats::Seat;
use board_seats::gather;
use fb_core::{Core, Draft};
use fb_log::Log;

/// What a connection leaves.
#[derive(Drop)]
pub struct Closed<L: Log> {
    pub core: Core,
    pub log: L,
    pub stopped: Option<Stop>,
    /// The transaction whose entry the log did not take, and may have in part.
    pub torn: Option<Draft>,
}

impl<L: Log> Conn<L> {
    /// Closes the database, with all seats. It takes no memory.
    pub fn close(self, seats: Vec<Seat>, worker: Seat) -> Closed<L>
        requires seats { (k : ℕ) (seat : Seat) → slice_get seats.items k ≡ Some seat
            → IsAtRest (table_of self) seat × ((view_of seat.board).number ≡ k) }
        requires worker { IsWorkerOf self worker
            × ((view_of worker.board).given ≡ length seats.items) }
        ensures stands { CoreStands result.core }
        ensures each_t { (view_of worker.board).start + length result.core.authors
            ≡ basis result.core.snapshot.entries }
        ensures by_sessions { AllByRecursion (λ author. author < length seats.items)
            result.core.authors }
        ensures taken { (k : ℕ) (seat : Seat) → slice_get seats.items k ≡ Some seat
            → IsTakenIn result.core (view_of worker.board).start result.stopped k (state_of seat) }
        ensures last { StartsWith result.core.snapshot.entries worker.last.entries }
        ensures covered { result.core.snapshot.covered ≡ (view_of worker.board).covered }
        ensures log { GoesWithLog L.keeps L.broke
            (begun_of self) result.core.snapshot.entries
            result.log result.stopped result.torn }
        ensures teller { IsTornBy result.core.authors result.stopped result.torn }
    {
        let Conn {
            alloc: _,
            board,
            bell: _,
            tray: _,
            merge_at: _,
        } = self;
        let Seat {
            board: mut first,
            last: _,
        } = worker;
        gather(&board, &mut first, seats);
        let home = board.close(first);
        // This call brings into the proof that the core represents its history.
        let _latest = home.snapshot();
        let Kept {
            core,
            log,
            stop,
            torn,
            begun: _,
        } = Box::into_inner(home.kept);
        Closed {
            core,
            log,
            stopped: stop,
            torn,
        }
    }
}
