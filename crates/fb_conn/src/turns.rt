//! Turns: a session's transaction, and its look at all there is.
ghost use Rattle.std.specs.Prelude.{◌≡◌, ◌<◌, IfOk, IfErr, OnOk, OnErr};
ghost use Rattle.edn_form.specs.View.{form_of};
ghost use Rattle.fb_core.specs.Cores.{CoreStands};
ghost use Rattle.fb_desk.specs.Desks.{GoesOn, IsReceipt, IsFault, IsOutOfMemory, loaded};
ghost use Rattle.board_rule.specs.Calls.{view_of, board_of};
ghost use Rattle.board_turn.specs.Turn.{left};
ghost use Rattle.board_seats.specs.Turning.{left_seen};
ghost use Rattle.fb_conn.specs.Homes.{code_of, marks_of, IsSoundHome};
ghost use Rattle.fb_conn.specs.Seats.{IsSeatOf, state_of};
ghost use Rattle.fb_conn.specs.Turns.{HasTurn};

use crate::conn::Conn;
use crate::home::Home;
use crate::letters::Letter;
use crate::seats::Seat;
use crate::supposing::Supposing;
use board_seats::{Held, end, end_seen, enter, enter_after};
use edn_form::Edn;
use fb_core::{Guard, TxStop};
use fb_desk::{Receipt, Reply, TxFault};
use fb_log::Log;
use fb_memory::Memory;
use fb_ports::Clock;
use fb_view::Snapshot;
use std::sync::Wait;
use tx_model::refusals_do_not_depend_on_the_clock;

impl<L: Log> Conn<L> {
    /// One transaction, by one reading of the clock at most, and one entry to the log at most. The worker is asked for a
    /// merge where one has become due.
    pub fn transact<R: Wait, K: Clock, G: Guard<Snapshot>, A: Reply>(
        &self,
        rt: &R,
        seat: &mut Seat,
        clock: &K,
        guard: &G,
        asked: &Edn,
        reply: &mut A,
    ) -> Result<Receipt, TxFault>
        requires seat { IsSeatOf self.now seat.old }
        requires left { 0 < (state_of seat.old).left }
        ensures seat { IsSeatOf self.now seat.new }
        ensures goes_on { GoesOn (state_of seat.old) (state_of seat.new) }
        ensures receipt { IfOk result (IsReceipt (K.may_answer clock.now) (G.bars guard.now)
            (form_of asked.now) (state_of seat.old) (state_of seat.new)) }
        ensures reply { IfOk result
            (λ receipt. A.says receipt.t receipt.tempids.items reply.new) }
        ensures fault { IfErr result (IsFault (K.may_answer clock.now) (G.bars guard.now)
            (form_of asked.now) (state_of seat.old) (state_of seat.new)) }
    {
        let receipt = self.decide_in_turn(rt, seat, clock, guard, asked, reply)?;
        let latest = &receipt.snapshot;
        if self.due(latest) && self.bell.is_wanted(latest.live_len()) {
            self.ring(rt);
        }
        Ok(receipt)
    }

    /// The latest value of the database. It waits for a turn.
    pub fn sync<R: Wait>(&self, rt: &R, seat: &mut Seat) -> Result<Snapshot, Memory>
        requires seat { IsSeatOf self.now seat.old }
        requires left { 0 < (state_of seat.old).left }
        ensures seat { IsSeatOf self.now seat.new }
        ensures goes_on { GoesOn (state_of seat.old) (state_of seat.new) }
        ensures commits { (state_of seat.new).commits ≡ (state_of seat.old).commits }
        ensures teller { (state_of seat.new).teller ≡ (state_of seat.old).teller }
        ensures tally { OnOk result
            ((state_of seat.new).tally ≡ loaded (state_of seat.old).tally) }
        ensures sees { IfOk result
            (λ snapshot. snapshot.entries ≡ (state_of seat.new).entries) }
        ensures fault { OnErr result (IsOutOfMemory (state_of seat.old) (state_of seat.new)) }
        ensures unchanged { OnErr result (seat.new.last ≡ seat.old.last) }
    {
        let held = enter(&self.board, rt, &mut seat.board);
        self.show_latest(seat, held)
    }

    /// Decides in a turn, and records what was accepted.
    fn decide_in_turn<R: Wait, K: Clock, G: Guard<Snapshot>, A: Reply>(
        &self,
        rt: &R,
        seat: &mut Seat,
        clock: &K,
        guard: &G,
        asked: &Edn,
        reply: &mut A,
    ) -> Result<Receipt, TxFault>
        requires seat { IsSeatOf self.now seat.old }
        requires left { 0 < (state_of seat.old).left }
        ensures seat { IsSeatOf self.now seat.new }
        ensures goes_on { GoesOn (state_of seat.old) (state_of seat.new) }
        ensures receipt { IfOk result (IsReceipt (K.may_answer clock.now) (G.bars guard.now)
            (form_of asked.now) (state_of seat.old) (state_of seat.new)) }
        ensures reply { IfOk result
            (λ receipt. A.says receipt.t receipt.tempids.items reply.new) }
        ensures fault { IfErr result (IsFault (K.may_answer clock.now) (G.bars guard.now)
            (form_of asked.now) (state_of seat.old) (state_of seat.new)) }
    {
        refusals_do_not_depend_on_the_clock();
        let mut supposing = Supposing {
            conn: self,
            rt,
            asked,
            guard,
            instant: None,
        };
        let held = enter_after(&self.board, rt, &mut seat.board, &mut supposing);
        // This call brings into the proof that the core represents its history.
        let _latest = held.home.snapshot();
        if let Some(stop) = held.home.stop() {
            let snapshot = self.show_latest(seat, held)?;
            return Err(TxFault::Stopped {
                at: stop.at,
                snapshot,
            });
        }
        let author = seat.board.number();
        match held.home.decide(asked, clock.now(), author, guard) {
            Ok(draft) => match self.prepare(&held.home, &draft, author, reply) {
                Ok(ready) => {
                    let next = supposing.next_record(seat, &draft);
                    self.append(seat, held, draft, ready, next)
                }
                Err(_) => {
                    end(&self.board, &mut seat.board, held);
                    Err(TxFault::Memory)
                }
            },
            Err(TxStop::Refused(refusal)) => {
                let snapshot = self.show_latest(seat, held)?;
                Err(TxFault::Refused { refusal, snapshot })
            }
            Err(TxStop::Memory) => {
                end(&self.board, &mut seat.board, held);
                Err(TxFault::Memory)
            }
        }
    }

    /// Ends the turn. The latest value is answered, and is the seat's last snapshot. Where memory runs out, the seat has seen no more.
    pub(crate) fn show_latest(
        &self,
        seat: &mut Seat,
        held: Held<Home<L>>,
    ) -> Result<Snapshot, Memory>
        requires turn { HasTurn self.now seat.old held.home }
        requires sound { IsSoundHome L.keeps L.broke held.home }
        ensures seat { board_of seat.new.board ≡ board_of seat.old.board }
        ensures shown { IfOk result (λ snapshot. (snapshot ≡ held.home.core.snapshot)
            × (seat.new.last ≡ held.home.core.snapshot)
            × (view_of seat.new.board
            ≡ left_seen code_of (view_of seat.old.board) held.home.core.snapshot.entries
            (marks_of held.home))) }
        ensures kept { OnErr result ((seat.new.last ≡ seat.old.last)
            × (view_of seat.new.board ≡ left (view_of seat.old.board) (marks_of held.home))) }
        ensures stands { CoreStands held.home.core }
    {
        match Letter::of(held.home.snapshot()) {
            Ok(Letter { one, two }) => {
                end_seen(&self.board, &mut seat.board, held);
                seat.last = one;
                Ok(two)
            }
            Err(fault) => {
                end(&self.board, &mut seat.board, held);
                Err(fault)
            }
        }
    }
}
