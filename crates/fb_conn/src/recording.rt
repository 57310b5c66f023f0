//! Recording a transaction that was accepted: all memory is taken before its entry goes to the log.
ghost use Rattle.std.specs.Prelude.{◌≡◌, None, IfOk, IfErr, OnOk};
ghost use Rattle.fb_model.specs.History.{basis};
ghost use Rattle.fb_core.specs.Cores.{CoreStands, IsDraftOf, entry_of};
ghost use Rattle.board_rule.specs.Calls.{view_of, board_of};
ghost use Rattle.board_seats.specs.Turning.{left_seen};
ghost use Rattle.fb_conn.specs.Homes.{code_of, marks_of, IsSoundHome};
ghost use Rattle.fb_conn.specs.Seats.{sessions_of};
ghost use Rattle.fb_conn.specs.Turns.{HasTurn, committed, stopped_at, IsReceiptOf, IsLogFaultOf, ArePosted, IsReady};

use crate::conn::Conn;
use crate::home::{Home, Stop};
use crate::letters::{Letter, letters_of};
use crate::seats::Seat;
use board_seats::{Held, add, end, end_seen};
use fb_core::Draft;
use fb_desk::{Receipt, Reply, TxFault};
use fb_log::Log;
use fb_memory::Memory;

/// All that recording an entry takes memory for.
#[derive(Drop)]
pub struct Ready<R: Drop> {
    made: R,
    before: Letter,
    after: Letter,
    mails: Vec<Letter>,
}

impl<L: Log> Conn<L> {
    /// Makes all that recording the draft's entry takes memory for, and the session's reply.
    pub(crate) fn prepare<A: Reply>(
        &self,
        home: &Home<L>,
        draft: &Draft,
        author: u32,
        reply: &mut A,
    ) -> Result<Ready<L::Record>, Memory>
        requires { IsDraftOf home.now.core author draft.now }
        ensures ready { IfOk result (IsReady L.is_of home.now.core.snapshot draft.now
            (sessions_of self.now)) }
        ensures reply { OnOk result
            (A.says (basis draft.now.after.entries) draft.now.tempids.items reply.new) }
    {
        reply.receipt(draft.after().basis(), draft.tempids())?;
        let before = Letter::of(home.snapshot())?;
        let after = Letter::of(draft.after())?;
        let mails = letters_of(self.alloc, draft.after(), self.board.sessions())?;
        let made = L::record(self.alloc, draft.entry())?;
        Ok(Ready {
            made,
            before,
            after,
            mails,
        })
    }

    /// Adds the draft's entry to the log, beside the record that is likely to come next, and accepts it where the log took it. It takes
    /// no memory.
    pub(crate) fn append(
        &self,
        seat: &mut Seat,
        mut held: Held<Home<L>>,
        draft: Draft,
        ready: Ready<L::Record>,
        next: Option<L::Record>,
    ) -> Result<Receipt, TxFault>
        requires turn { HasTurn self.now seat.old held.home }
        requires going { held.home.stop ≡ None }
        requires sound { IsSoundHome L.keeps L.broke held.home }
        requires draft { IsDraftOf held.home.core (view_of seat.old.board).number draft }
        requires ready { IsReady L.is_of held.home.core.snapshot draft
            (sessions_of self.now) ready }
        ensures seat { board_of seat.new.board ≡ board_of seat.old.board }
        ensures accepted { IfOk result (λ receipt. (seat.new.last ≡ draft.after)
            × IsReceiptOf draft receipt
            × (view_of seat.new.board
            ≡ committed (view_of seat.old.board) draft.after.entries receipt.t
            (marks_of held.home) (view_of seat.new.board).met)) }
        ensures stopped { IfErr result (λ fault. (seat.new.last ≡ held.home.core.snapshot)
            × IsLogFaultOf held.home.core.snapshot draft fault
            × (view_of seat.new.board
            ≡ left_seen code_of (view_of seat.old.board) held.home.core.snapshot.entries
            (stopped_at (view_of seat.old.board).number draft))) }
    {
        let Ready {
            made,
            before,
            after,
            mails,
        } = ready;
        // This call brings into the proof that the core represents its history.
        let _latest = held.home.snapshot();
        match held.home.add(&made, next) {
            Ok(()) => Ok(self.commit(seat, held, draft, after, mails)),
            Err(_) => Err(self.stop(seat, held, draft, before)),
        }
    }

    /// Accepts the draft, whose entry the log has, and ends the turn. It takes no memory.
    fn commit(
        &self,
        seat: &mut Seat,
        mut held: Held<Home<L>>,
        mut draft: Draft,
        after: Letter,
        mails: Vec<Letter>,
    ) -> Receipt
        requires turn { HasTurn self.now seat.old held.home }
        requires going { (held.home.stop ≡ None) × (held.home.torn ≡ None) }
        requires draft { IsDraftOf held.home.core (view_of seat.old.board).number draft }
        requires after { after.one ≡ draft.after }
        requires mails { ArePosted draft (sessions_of self.now) mails.items }
        requires kept { L.keeps held.home.begun.value draft.after.entries held.home.log }
        ensures seat { board_of seat.new.board ≡ board_of seat.old.board }
        ensures last { seat.new.last ≡ draft.after }
        ensures receipt { IsReceiptOf draft result }
        ensures view { view_of seat.new.board
            ≡ committed (view_of seat.old.board) draft.after.entries result.t
            (marks_of held.home) (view_of seat.new.board).met }
    {
        let Letter { one, two } = after;
        let t = one.basis();
        let instant = draft.entry().instant;
        let tempids = draft.take_tempids();
        // Both are dropped after the turn.
        let _before = held.home.kept.core.accept(draft);
        let _replaced = add(&self.board, &mut seat.board, &mut held, mails);
        end(&self.board, &mut seat.board, held);
        seat.last = one;
        Receipt {
            t,
            instant,
            tempids,
            snapshot: two,
        }
    }

    /// Keeps the draft as torn, since the log failed at its entry, and ends the turn. It takes no memory.
    fn stop(
        &self,
        seat: &mut Seat,
        mut held: Held<Home<L>>,
        draft: Draft,
        before: Letter,
    ) -> TxFault
        requires turn { HasTurn self.now seat.old held.home }
        requires going { held.home.stop ≡ None }
        requires stands { CoreStands held.home.core }
        requires draft { IsDraftOf held.home.core (view_of seat.old.board).number draft }
        requires before { before.one ≡ held.home.core.snapshot }
        requires broke { L.broke held.home.begun.value held.home.core.snapshot.entries
            (entry_of draft) held.home.log }
        ensures seat { board_of seat.new.board ≡ board_of seat.old.board }
        ensures last { seat.new.last ≡ held.home.core.snapshot }
        ensures fault { IsLogFaultOf held.home.core.snapshot draft result }
        ensures view { view_of seat.new.board
            ≡ left_seen code_of (view_of seat.old.board) held.home.core.snapshot.entries
            (stopped_at (view_of seat.old.board).number draft) }
    {
        let Letter { one, two } = before;
        let at = draft.after().basis();
        let author = seat.board.number();
        held.home.stop_at(Stop { at, author }, draft);
        end_seen(&self.board, &mut seat.board, held);
        seat.last = one;
        TxFault::LogFault { at, snapshot: two }
    }
}
