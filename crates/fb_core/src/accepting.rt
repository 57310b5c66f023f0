//! Deciding a transaction against the latest value, and accepting the draft that came of it.
ghost use Rattle.std.specs.Prelude.{◌≡◌, ℕ, IfOk, IfErr};
ghost use Rattle.edn_form.specs.View.{form_of};
ghost use Rattle.fb_model.specs.Lawful.{IsLawfulAfter};
ghost use Rattle.tx_model.specs.Step as model;
ghost use Rattle.tx_step.specs.Outcomes.{Matches};

use crate::shared::{Core, CoreParts};
use edn_form::Edn;
use fb_history::Authors;
use fb_memory::Memory;
use fb_text::Text;
use fb_values::Entry;
use fb_view::Snapshot;
use std::mem;
use tx_model::{an_accepted_entry_is_lawful, lawful_histories_are_small};
use tx_step::{Accepted, Guard, TxStop, decide};

/// A transaction that was decided and is not yet accepted. It has all that accepting it takes, so that accepting cannot
/// fail once its entry is in the log.
#[derive(Drop)]
pub struct Draft {
    tempids: Vec<(Text, u64)>,
    after: Snapshot,
    authors: Authors,
}

impl Draft {
    ghost use Rattle.fb_core.specs.Cores.{entry_of};

    /// The entry that it adds.
    pub fn entry(&self) -> &Entry
        ensures { result.now ≡ entry_of self.now }
    {
        let entries = self.after.entries();
        entries.at(entries.len() - 1)
    }

    /// The entities of the tempids that have a name, by the bytes of the names.
    pub fn tempids(&self) -> &[(Text, u64)]
        ensures { result.now ≡ self.now.tempids.items }
    {
        self.tempids.as_slice()
    }

    /// Gives up the tempids, which accepting it does not take.
    pub fn take_tempids(&mut self) -> Vec<(Text, u64)>
        ensures tempids { result ≡ self.old.tempids }
        ensures after { self.new.after ≡ self.old.after }
        ensures authors { self.new.authors ≡ self.old.authors }
    {
        let none = Vec::new(*self.tempids.allocator());
        mem::replace(&mut self.tempids, none)
    }

    /// The value of the database with the entry.
    pub fn after(&self) -> &Snapshot
        ensures { result.now ≡ self.now.after }
    {
        &self.after
    }
}

impl Core {
    ghost use Rattle.fb_core.specs.Cores.{CoreStands, IsDraftOf, entry_of};

    /// What the transaction does, where the clock reads this: the draft of it, or why there is none. The author is the
    /// session that asks. Nothing is changed.
    pub fn decide<G: Guard<Snapshot>>(
        &self,
        asked: &Edn,
        now: i64,
        author: u32,
        guard: &G,
    ) -> Result<Draft, TxStop>
        ensures accepted { IfOk result (λ draft. model.step self.now.snapshot.entries
            (form_of asked.now) now (G.bars guard.now)
            ≡ model.accepted (entry_of draft) draft.tempids.items) }
        ensures draft { IfOk result (λ draft. IsDraftOf self.now author draft) }
        ensures refused { IfErr result (λ stop. Matches stop
            (model.step self.now.snapshot.entries (form_of asked.now) now (G.bars guard.now))) }
    {
        an_accepted_entry_is_lawful();
        let accepted = self.accepted(asked, now, guard)?;
        Ok(self.drafted(accepted, author)?)
    }

    /// What the transaction is to record.
    fn accepted<G: Guard<Snapshot>>(
        &self,
        asked: &Edn,
        now: i64,
        guard: &G,
    ) -> Result<Accepted, TxStop>
        ensures accepted { IfOk result (λ done. model.step self.now.snapshot.entries
            (form_of asked.now) now (G.bars guard.now)
            ≡ model.accepted done.entry done.tempids.items) }
        ensures refused { IfErr result (λ stop. Matches stop
            (model.step self.now.snapshot.entries (form_of asked.now) now (G.bars guard.now))) }
        ensures stands { CoreStands self.now }
    {
        let snapshot = self.snapshot();
        decide(self.alloc, asked, snapshot, snapshot.schema(), now, guard)
    }

    /// The draft of a transaction that the author's session asked for.
    fn drafted(&self, accepted: Accepted, author: u32) -> Result<Draft, Memory>
        requires { IsLawfulAfter self.now.snapshot.entries accepted.entry }
        ensures entry { IfOk result (λ draft. entry_of draft ≡ accepted.entry) }
        ensures tempids { IfOk result (λ draft. draft.tempids ≡ accepted.tempids) }
        ensures draft { IfOk result (λ draft. IsDraftOf self.now author draft) }
    {
        // So there is room for one author more.
        lawful_histories_are_small();
        let after = self.parts.snapshot.with_entry(accepted.entry)?;
        let authors = self.parts.authors.with(author)?;
        Ok(Draft {
            tempids: accepted.tempids,
            after,
            authors,
        })
    }

    /// The draft's entry is the last one from now on. It takes no memory. What it replaces is given back, to be dropped where
    /// nobody waits.
    pub fn accept(&mut self, draft: Draft) -> CoreParts
        requires { (author : ℕ) × IsDraftOf self.old author draft }
        ensures core { self.new ≡ record { snapshot = draft.after; authors = draft.authors } }
        ensures before { result ≡ self.old }
    {
        let after = CoreParts {
            snapshot: draft.after,
            authors: draft.authors,
        };
        mem::replace(&mut self.parts, after)
    }
}
