//! The worker's two turns: where a merge begins, and where its trees are adopted.
ghost use Rattle.std.specs.Prelude.{◌≡◌, ◌+◌, ◌<◌, IfOk, OnOk, OnErr};
ghost use Rattle.board_rule.specs.Views.{StartsWith};
ghost use Rattle.board_rule.specs.Calls.{view_of};
ghost use Rattle.fb_conn.specs.Seats.{IsWorkerOf, TookTurn};

use crate::conn::Conn;
use crate::seats::Seat;
use board_seats::{end, enter};
use fb_log::Log;
use fb_memory::Memory;
use fb_view::Snapshot;
use std::sync::Wait;

impl<L: Log> Conn<L> {
    /// The value from which a merge begins: the latest one, which the worker has seen from then on.
    pub fn begin<R: Wait>(&self, rt: &R, seat: &mut Seat) -> Result<Snapshot, Memory>
        requires seat { IsWorkerOf self.now seat.old }
        requires draws { (view_of seat.old.board).draws < 4294967296 }
        ensures seat { IsWorkerOf self.now seat.new }
        ensures turn { TookTurn (view_of seat.old.board) (view_of seat.new.board) }
        ensures covered { (view_of seat.new.board).covered ≡ (view_of seat.old.board).covered }
        ensures snapshot { IfOk result (λ snapshot. (snapshot ≡ seat.new.last)
            × StartsWith snapshot.entries seat.old.last.entries
            × (snapshot.covered ≡ (view_of seat.new.board).covered)) }
        // It is what there was in the worker's turn.
        ensures latest { OnOk result
            ((view_of seat.new.board).loads ≡ (view_of seat.old.board).loads + 1) }
        ensures unchanged { OnErr result (seat.new.last ≡ seat.old.last) }
    {
        let held = enter(&self.board, rt, &mut seat.board);
        self.show_latest(seat, held)
    }

    /// Adopts the trees under `ahead`, which is of a beginning of what the worker has seen. What came since is added in the turn.
    pub fn publish<R: Wait>(&self, rt: &R, seat: &mut Seat, ahead: &Snapshot) -> Result<(), Memory>
        requires seat { IsWorkerOf self.now seat.old }
        requires draws { (view_of seat.old.board).draws < 4294967296 }
        requires ahead { StartsWith seat.old.last.entries ahead.now.entries }
        ensures seat { IsWorkerOf self.now seat.new }
        ensures turn { TookTurn (view_of seat.old.board) (view_of seat.new.board) }
        ensures last { seat.new.last ≡ seat.old.last }
        ensures adopted { OnOk result
            ((view_of seat.new.board).covered ≡ ahead.now.covered) }
        ensures unchanged { OnErr result
            ((view_of seat.new.board).covered ≡ (view_of seat.old.board).covered) }
    {
        let mut held = enter(&self.board, rt, &mut seat.board);
        // This call brings into the proof that the snapshot represents its history.
        let _basis = ahead.basis();
        match held.home.rebase_on(ahead) {
            Ok(rebased) => {
                // It is dropped after the turn.
                let _before = held.home.kept.core.adopt(rebased);
                end(&self.board, &mut seat.board, held);
                Ok(())
            }
            Err(fault) => {
                end(&self.board, &mut seat.board, held);
                Err(fault)
            }
        }
    }
}
