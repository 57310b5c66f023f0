//! What the desk answers.
ghost use Rattle.std.specs.Prelude.{◌≡◌, ◌<◌, ◌++◌, ◌∷◌, [], OnOk, vec_len, vec_capacity};
ghost use Rattle.fb_model.specs.History.{basis};
ghost use Rattle.fb_core.specs.Cores.{IsDraftOf, entry_of};
ghost use Rattle.fb_desk.specs.Desks.{GoesOn};

use crate::alone::{CoreDesk, SESSION};
use edn_form::Edn;
use fb_core::{Draft, a_beginning_stays_one};
use fb_desk::{Desk, Glance, Receipt, Reply, TxFault};
use fb_memory::Memory;
use fb_merge::{MergeStop, merged};
use fb_ports::Clock;
use fb_view::Snapshot;
use std::sync::Wait;
use std::thread::Threads;
use tx_model::refusals_do_not_depend_on_the_clock;
use tx_step::{Guard, TxStop};

/// Makes room for one more commit.
fn make_room(commits: &mut Vec<u32>) -> Result<(), Memory>
    ensures same { commits.new.items ≡ commits.old.items }
    ensures room { OnOk result (vec_len commits.new < vec_capacity commits.new) }
{
    commits.reserve(1)?;
    Ok(())
}

impl CoreDesk {
    ghost use Rattle.core_desk.specs.States.{state_of};

    /// Accepts the draft, for whose commit there is room, with a share of the value that it makes. It takes no memory.
    fn accept(&mut self, mut draft: Draft, snapshot: Snapshot) -> Receipt
        requires call { 0 < (state_of self.old).left }
        requires draft { IsDraftOf self.old.core 0 draft }
        requires room { vec_len self.old.commits < vec_capacity self.old.commits }
        requires snapshot { snapshot ≡ draft.after }
        ensures goes_on { GoesOn (state_of self.old) (state_of self.new) }
        ensures entries { (state_of self.new).entries
            ≡ (state_of self.old).entries ++ entry_of draft ∷ [] }
        ensures commits { (state_of self.new).commits
            ≡ (state_of self.old).commits ++ result.t ∷ [] }
        ensures tally { (state_of self.new).tally ≡ (state_of self.old).tally }
        ensures t { result.t ≡ basis (state_of self.new).entries }
        ensures instant { result.instant ≡ (entry_of draft).instant }
        ensures tempids { result.tempids.items ≡ draft.tempids.items }
        ensures snapshot { result.snapshot.entries ≡ (state_of self.new).entries }
    {
        let instant = draft.entry().instant;
        let tempids = draft.take_tempids();
        self.core.accept(draft);
        let t = self.core.basis();
        self.commits.push_reserved(t);
        self.counts.calls += 1;
        Receipt {
            t,
            instant,
            tempids,
            snapshot,
        }
    }
}

impl Desk for CoreDesk {
    ghost use Rattle.core_desk.specs.States.{state_of};

    ghost state = { state_of };

    fn snapshot(&self) -> &Snapshot {
        self.core.snapshot()
    }

    fn transact<R: Threads + Wait + Sync, K: Clock, G: Guard<Snapshot>, A: Reply>(
        &mut self,
        _rt: &R,
        clock: &K,
        guard: &G,
        asked: &Edn,
        reply: &mut A,
    ) -> Result<Receipt, TxFault> {
        refusals_do_not_depend_on_the_clock();
        make_room(&mut self.commits)?;
        match self.core.decide(asked, clock.now(), SESSION, guard) {
            Ok(draft) => {
                let snapshot = draft.after().share()?;
                reply.receipt(snapshot.basis(), draft.tempids())?;
                Ok(self.accept(draft, snapshot))
            }
            Err(TxStop::Refused(refusal)) => {
                let snapshot = self.core.snapshot().share()?;
                self.counts.calls += 1;
                self.counts.loads += 1;
                Err(TxFault::Refused { refusal, snapshot })
            }
            Err(TxStop::Memory) => Err(TxFault::Memory),
        }
    }

    fn db(&mut self) -> Result<Glance, Memory> {
        self.counts.calls += 1;
        self.counts.glances += 1;
        let snapshot = self.core.snapshot().share()?;
        Ok(Glance::Fresh(snapshot))
    }

    fn sync<R: Threads + Wait + Sync>(&mut self, _rt: &R) -> Result<Snapshot, Memory> {
        let snapshot = self.core.snapshot().share()?;
        self.counts.calls += 1;
        self.counts.loads += 1;
        Ok(snapshot)
    }

    /// Merges the whole history then and there, unless the numbers of nodes are used up.
    fn ring<R: Threads + Wait + Sync>(&mut self, rt: &R) -> Result<(), Memory> {
        a_beginning_stays_one();
        let begin = self.core.snapshot();
        let first_id = begin.roots().next_id();
        let roots = match merged(rt, self.alloc, begin, first_id) {
            Ok(roots) => roots,
            Err(MergeStop::Spent) => return Ok(()),
            Err(MergeStop::Memory) => return Err(Memory),
        };
        let rebased = self.core.rebase(begin, roots)?;
        self.core.adopt(rebased);
        Ok(())
    }
}
