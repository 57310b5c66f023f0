//! What lies in slot 0 of the board: the core, and the log that goes with it.
ghost use Rattle.std.specs.Prelude.{◌≡◌, List, [], ◌∷◌, ◌++◌, Some, None, IfOk, IfErr, OnOk, OnErr};
ghost use Rattle.fb_values.specs.declared.facts.Entry.{Entry};
ghost use Rattle.edn_form.specs.View.{form_of};
ghost use Rattle.fb_model.specs.History.{basis, upto};
ghost use Rattle.fb_model.specs.Lawful.{IsLawfulAfter};
ghost use Rattle.fb_core.specs.Cores.{CoreStands, IsDraftOf, IsRebaseOf, entry_of};
ghost use Rattle.tx_model.specs.Step as model;
ghost use Rattle.tx_step.specs.Outcomes.{Matches};
ghost use Rattle.fb_conn.specs.Homes.{IsSoundHome};

use crate::conn::ConnStop;
use board_seats::Named;
use edn_form::Edn;
use fb_core::{Core, Draft, Guard, Rebased, TxStop};
use fb_log::{Failed, Log};
use fb_memory::Memory;
use fb_values::Entry;
use fb_view::Snapshot;
use std::alloc::{AllocFailed, Global};
use std::marker::Model;

/// The log failed: the t of the entry that it did not take, and the number of the seat that added it.
#[derive(Clone, Copy)]
pub struct Stop {
    pub at: u32,
    pub author: u32,
}

/// What the value in slot 0 is made of.
#[derive(Drop)]
pub struct Kept<L> {
    pub(crate) core: Core,
    pub(crate) log: L,
    /// Since the log failed.
    pub(crate) stop: Option<Stop>,
    /// The transaction whose entry the log did not take, and may have in part.
    pub(crate) torn: Option<Draft>,
    /// The log as it was when the database was opened.
    pub(crate) begun: std::snapshot::Snapshot<L>,
}

/// The value in slot 0, which the holder of the turn has. It goes from hand to hand many times in a turn, and each slot of the board
/// is as large as the largest value: so it is in a box.
#[derive(Drop)]
pub struct Home<L: Log> {
    pub(crate) kept: Box<Kept<L>>,
}

impl<L: Log> Model for Home<L> {
    ghost use Rattle.fb_conn.specs.declared.home.Kept.{Kept};

    ghost Value = { Kept L };

    ghost view = { λ home. home.kept.value };
}

impl<L: Log> Named for Home<L> {
    ghost use Rattle.fb_conn.specs.Homes.{marks_of, follows, IsSoundHome};

    type Entry = Entry;

    type Origin = L;

    ghost entries = { λ home. home.core.snapshot.entries };

    ghost authors = { λ home. home.core.authors };

    ghost marks = { marks_of };

    ghost follows = { follows };

    ghost sound = { IsSoundHome L.keeps L.broke };

    ghost origin = { λ home. home.begun.value };

    fn basis(&self) -> u32 {
        self.kept.core.basis()
    }
}

impl<L: Log> Kept<L> {
    /// What is left of it, where no connection was opened.
    fn into_stop(self) -> ConnStop<L>
        ensures core { result.core ≡ self.core }
        ensures log { result.log ≡ self.log }
    {
        let Kept {
            core,
            log,
            stop: _,
            torn: _,
            begun: _,
        } = self;
        ConnStop { core, log }
    }
}

impl<L: Log> Home<L> {
    /// The core and the log as a database is opened with them. Where memory runs out, both are handed back.
    pub(crate) fn new(alloc: Global, core: Core, log: L) -> Result<Home<L>, ConnStop<L>>
        requires fresh { (core.authors ≡ []) × L.keeps log core.snapshot.entries log }
        ensures core { IfOk result (λ home. home.core ≡ core) }
        ensures log { IfOk result (λ home. home.log ≡ log) }
        ensures going { IfOk result (λ home. home.stop ≡ None) }
        ensures begun { IfOk result (λ home. home.begun.value ≡ log) }
        ensures sound { IfOk result (IsSoundHome L.keeps L.broke) }
        ensures stop { IfErr result (λ stop. (stop.core ≡ core) × (stop.log ≡ log)) }
    {
        let begun = std::snapshot::Snapshot::of(&log);
        let kept = Kept {
            core,
            log,
            stop: None,
            torn: None,
            begun,
        };
        match Box::new(alloc, kept) {
            Ok(kept) => Ok(Home { kept }),
            Err(AllocFailed { value }) => Err(value.into_stop()),
        }
    }

    /// What is left of it, where no connection was opened.
    pub(crate) fn into_stop(self) -> ConnStop<L>
        ensures core { result.core ≡ self.core }
        ensures log { result.log ≡ self.log }
    {
        Box::into_inner(self.kept).into_stop()
    }

    /// The latest value of the database.
    pub(crate) fn snapshot(&self) -> &Snapshot
        ensures snapshot { result.now ≡ self.now.core.snapshot }
        ensures stands { CoreStands self.now.core }
    {
        self.kept.core.snapshot()
    }

    pub(crate) fn stop(&self) -> Option<Stop>
        ensures { result ≡ self.now.stop }
    {
        self.kept.stop
    }

    /// As the core decides.
    pub(crate) fn decide<G: Guard<Snapshot>>(
        &self,
        asked: &Edn,
        now: i64,
        author: u32,
        guard: &G,
    ) -> Result<Draft, TxStop>
        ensures accepted { IfOk result (λ draft. model.step self.now.core.snapshot.entries
            (form_of asked.now) now (G.bars guard.now)
            ≡ model.accepted (entry_of draft) draft.tempids.items) }
        ensures draft { IfOk result (λ draft. IsDraftOf self.now.core author draft) }
        ensures refused { IfErr result (λ stop. Matches stop
            (model.step self.now.core.snapshot.entries (form_of asked.now) now (G.bars guard.now))) }
    {
        self.kept.core.decide(asked, now, author, guard)
    }

    /// Adds an entry to the log by its record, and beside it the record that is likely to come next, where there is one.
    pub(crate) fn add(&mut self, made: &L::Record, next: Option<L::Record>) -> Result<(), Failed>
        ensures kept { OnOk result ((begun : L) (h : List Entry) (entry : Entry)
            → L.is_of made.now entry → IsLawfulAfter h entry → L.keeps begun h self.old.log
            → L.keeps begun (h ++ entry ∷ []) self.new.log) }
        ensures broke { OnErr result ((begun : L) (h : List Entry) (entry : Entry)
            → L.is_of made.now entry → IsLawfulAfter h entry → L.keeps begun h self.old.log
            → L.broke begun h entry self.new.log) }
        ensures rest { self.new ≡ record self.old { log = self.new.log } }
    {
        let kept = &mut *self.kept;
        match next {
            Some(next) => kept.log.add_beside(made, next),
            None => kept.log.add(made),
        }
    }

    /// The core's newer value over the trees of `ahead`.
    pub(crate) fn rebase_on(&self, ahead: &Snapshot) -> Result<Rebased, Memory>
        requires begins { upto self.now.core.snapshot.entries (basis ahead.now.entries)
            ≡ ahead.now.entries }
        ensures rebase { IfOk result (λ rebased. IsRebaseOf self.now.core rebased) }
        ensures roots { IfOk result (λ rebased. rebased.snapshot.roots ≡ ahead.now.roots) }
        ensures covered { IfOk result (λ rebased. rebased.snapshot.covered ≡ ahead.now.covered) }
    {
        self.kept.core.rebase_on(ahead)
    }

    /// The log failed at the draft's entry, so the draft is kept as torn.
    pub(crate) fn stop_at(&mut self, stop: Stop, draft: Draft)
        ensures { self.new ≡ record self.old { stop = Some stop; torn = Some draft } }
    {
        let kept = &mut *self.kept;
        kept.stop = Some(stop);
        kept.torn = Some(draft);
    }
}
