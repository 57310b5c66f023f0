//! A transaction: it is asked for at the desk, and its line says what became of it. What the desk answers is seen from then on,
//! also where the transaction was not accepted.
ghost use Rattle.std.specs.Prelude.{◌≡◌, ◌++◌, [], ◌∷◌, ◌<◌, None, OnOk, OnErr, vec_len, vec_capacity};
ghost use Rattle.edn_form.specs.View.{form_of};
ghost use Rattle.fb_model.specs.History.{basis};
ghost use Rattle.tx_refusals.specs.Reasons.{keyword_of};
ghost use Rattle.talk_model.specs.Replies.{refusal_reply, fault_reply, IsLineOf};
ghost use Rattle.fb_replies.specs.Faults.{word_of};
ghost use Rattle.fb_desk.specs.Desks.{GoesOn};
ghost use Rattle.fb_session.specs.Sessions.{KeepsCommit, Transacts, LoadsOnceAtMost};

use crate::session::Session;
use edn_form::Edn;
use fb_desk::{Desk, Receipt, TxFault};
use fb_memory::Memory;
use fb_ports::Clock;
use fb_preds::Selector;
use fb_replies::{LogFault, write_fault, write_refusal};
use fb_view::Snapshot;
use std::sync::Wait;
use std::thread::Threads;
use tx_refusals::Refusal;
use tx_step::Guard;

impl<S: Selector> Session<S> {
    /// Asks for the transaction and builds its line. Out of memory, nothing was accepted.
    pub(crate) fn transact<R: Threads + Wait + Sync, T: Desk, K: Clock, G: Guard<Snapshot>>(
        &mut self,
        rt: &R,
        desk: &mut T,
        clock: &K,
        guard: &G,
        asked: &Edn,
    ) -> Result<(), Memory>
        requires left { 0 < (T.state desk.old).left }
        requires room { vec_len self.old.commits < vec_capacity self.old.commits }
        ensures goes_on { GoesOn (T.state desk.old) (T.state desk.new) }
        ensures ok { OnOk result (Transacts (K.may_answer clock.now) (G.bars guard.now)
            (form_of asked.now) self.old self.new (T.state desk.old) (T.state desk.new)) }
        ensures err { OnErr result
            (KeepsCommit self.old self.new (T.state desk.old) (T.state desk.new) None) }
        ensures loads { OnErr result (LoadsOnceAtMost (T.state desk.old) (T.state desk.new)) }
        ensures filter { self.new.view.filter ≡ self.old.view.filter }
        ensures places { self.new.places ≡ self.old.places }
        ensures waiting { self.new.waiting ≡ self.old.waiting }
    {
        match desk.transact(rt, clock, guard, asked, &mut self.line) {
            Ok(receipt) => {
                self.accept(receipt);
                Ok(())
            }
            Err(TxFault::Refused { refusal, snapshot }) => self.refuse(refusal, snapshot),
            Err(TxFault::LogFault { at, snapshot }) => self.fail(LogFault::Failed, at, snapshot),
            Err(TxFault::Stopped { at, snapshot }) => self.fail(LogFault::Stopped, at, snapshot),
            Err(TxFault::Memory) => Err(Memory),
        }
    }

    /// The line is there already.
    fn accept(&mut self, receipt: Receipt)
        requires room { vec_len self.old.commits < vec_capacity self.old.commits }
        ensures view { self.new.view ≡ record self.old.view { snapshot = receipt.snapshot } }
        ensures commits { self.new.commits.items ≡ self.old.commits.items ++ receipt.t ∷ [] }
        ensures places { self.new.places ≡ self.old.places }
        ensures waiting { self.new.waiting ≡ self.old.waiting }
        ensures line { self.new.line ≡ self.old.line }
    {
        self.see(receipt.snapshot);
        self.commits.push_reserved(receipt.t);
    }

    fn refuse(&mut self, refusal: Refusal, snapshot: Snapshot) -> Result<(), Memory>
        ensures view { self.new.view ≡ record self.old.view { snapshot = snapshot } }
        ensures rest { self.new ≡ record self.old { view = self.new.view; line = self.new.line } }
        ensures line { OnOk result (IsLineOf
            (refusal_reply (keyword_of refusal.reason) refusal.at (basis snapshot.entries))
            self.new.line.bytes.items) }
    {
        self.see(snapshot);
        let basis = self.place();
        write_refusal(
            &mut self.line.bytes,
            refusal.reason.keyword(),
            refusal.at,
            basis,
        )
    }

    fn fail(&mut self, fault: LogFault, at: u32, snapshot: Snapshot) -> Result<(), Memory>
        ensures view { self.new.view ≡ record self.old.view { snapshot = snapshot } }
        ensures rest { self.new ≡ record self.old { view = self.new.view; line = self.new.line } }
        ensures line { OnOk result (IsLineOf
            (fault_reply (word_of fault) at (basis snapshot.entries)) self.new.line.bytes.items) }
    {
        self.see(snapshot);
        let basis = self.place();
        write_fault(&mut self.line.bytes, fault, at, basis)
    }
}
