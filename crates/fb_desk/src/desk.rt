//! The desk of a session.
ghost use denote.Param.Send.{IsSync};
ghost use Rattle.std.specs.Prelude.{ℕ, List, ◌≡◌, ◌<◌, IfOk, IfErr, OnOk, OnErr};
ghost use Rattle.edn_form.specs.View.{form_of};
ghost use Rattle.fb_desk.specs.Desks.{State, GoesOn, IsReceipt, IsFault, IsOutOfMemory, glanced, loaded, snapshot_of};

use crate::answers::{Glance, Receipt, TxFault};
use edn_form::Edn;
use fb_memory::Memory;
use fb_ports::Clock;
use fb_text::Text;
use fb_view::Snapshot;
use std::sync::Wait;
use std::thread::Threads;
use tx_step::Guard;

/// What a session answers an accepted transaction with. It is made before the entry is recorded, so that running out of memory never
/// keeps it back.
pub trait Reply: Drop {
    /// It says that the transaction of this t was accepted, with these entities of the tempids by the bytes of their names.
    ghost says: { ℕ → List (List ℕ × ℕ) → Self → Type 0 };

    /// Makes it anew, in place of what was there.
    fn receipt(&mut self, t: u32, tempids: &[(Text, u64)]) -> Result<(), Memory>
        ensures { OnOk result (says t tempids.now self.new) };
}

/// A session's place at the database. `transact`, `sync` and `ring` may wait for other sessions.
pub trait Desk: Drop {
    /// What the session knows through it.
    ghost state: { Self → State };

    /// The last value of the database that the desk was answered, which the session has seen.
    fn snapshot(&self) -> &Snapshot
        ensures { result.now.entries ≡ (state self.now).entries };

    /// Asks for a transaction, by one reading of the clock at most. What it is answered with is made before it is recorded.
    fn transact<R: Threads + Wait + Sync, K: Clock, G: Guard<Snapshot>, A: Reply>(
        &mut self,
        rt: &R,
        clock: &K,
        guard: &G,
        asked: &Edn,
        reply: &mut A,
    ) -> Result<Receipt, TxFault>
        requires { 0 < (state self.old).left }
        ensures goes_on { GoesOn (state self.old) (state self.new) }
        ensures receipt { IfOk result (IsReceipt (K.may_answer clock.now) (G.bars guard.now)
            (form_of asked.now) (state self.old) (state self.new)) }
        ensures reply { IfOk result
            (λ receipt. A.says receipt.t receipt.tempids.items reply.new) }
        ensures fault { IfErr result (IsFault (K.may_answer clock.now) (G.bars guard.now)
            (form_of asked.now) (state self.old) (state self.new)) };

    /// Looks at what was mailed, and waits for nobody, which is why it takes no `rt`.
    fn db(&mut self) -> Result<Glance, Memory>
        requires { 0 < (state self.old).left }
        ensures goes_on { GoesOn (state self.old) (state self.new) }
        ensures commits { (state self.new).commits ≡ (state self.old).commits }
        ensures tally { (state self.new).tally ≡ glanced (state self.old).tally }
        ensures sees { IfOk result
            (λ glance. (snapshot_of glance).entries ≡ (state self.new).entries) };

    /// The latest value of the database. It waits for a turn.
    fn sync<R: Threads + Wait + Sync>(&mut self, rt: &R) -> Result<Snapshot, Memory>
        requires { 0 < (state self.old).left }
        ensures goes_on { GoesOn (state self.old) (state self.new) }
        ensures commits { (state self.new).commits ≡ (state self.old).commits }
        ensures teller { (state self.new).teller ≡ (state self.old).teller }
        ensures tally { OnOk result ((state self.new).tally ≡ loaded (state self.old).tally) }
        ensures sees { IfOk result (λ snapshot. snapshot.entries ≡ (state self.new).entries) }
        ensures fault { OnErr result (IsOutOfMemory (state self.old) (state self.new)) };

    /// Asks for a merge of the indexes, which changes nothing that the database says.
    fn ring<R: Threads + Wait + Sync>(&mut self, rt: &R) -> Result<(), Memory>
        // A body does not get the bound by itself, and needs it where it starts threads.
        requires { IsSync R.row }
        ensures { state self.new ≡ state self.old };
}
