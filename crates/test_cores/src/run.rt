//! A core with a merge that has begun, one event after another.
use crate::rows::Row;
use anyhow::{Result, bail};
use fb_core::{Core, NoGuard, TxStop, a_beginning_stays_one};
use fb_merge::merged;
use fb_view::Snapshot;
use std::alloc::Global;
use std::marker::Model;
use std::thread::Threads;

/// The first of January 2024.
pub(crate) const CLOCK: i64 = 1_704_067_200_000;

/// The session that asks for all transactions.
const AUTHOR: u32 = 1;

/// A core, and the value with which its merge began.
#[derive(Drop)]
pub(crate) struct Run {
    core: Core,
    begin: Snapshot,
}

impl Model for Run {
    ghost use Rattle.std.specs.Prelude.{◌≡◌};
    ghost use Rattle.fb_model.specs.History.{basis, upto};
    ghost use Rattle.fb_core.specs.declared.shared.CoreParts.{CoreParts};

    ghost Value = { CoreParts };

    ghost view = { λ run. run.core };

    ghost invariant = { λ run. upto run.core.snapshot.entries (basis run.begin.entries)
        ≡ run.begin.entries };
}

impl Run {
    /// A new database. A merge of it has begun.
    pub(crate) fn new(alloc: Global) -> Result<Run> {
        Run::of(Core::of(alloc, Snapshot::first(alloc)?))
    }

    fn of(core: Core) -> Result<Run> {
        a_beginning_stays_one();
        let begin = core.snapshot().share()?;
        Ok(Run { core, begin })
    }

    pub(crate) fn core(&self) -> &Core {
        &self.core
    }

    /// Decides the transaction, and accepts it where the table says so.
    pub(crate) fn transact(&mut self, row: &Row) -> Result<()> {
        a_beginning_stays_one();
        let _basis = self.begin.basis();
        match self.core.decide(&row.data, CLOCK, AUTHOR, &NoGuard) {
            Ok(draft) if row.is_accepted() => {
                self.core.accept(draft);
                Ok(())
            }
            Err(TxStop::Refused(refusal)) if row.is_refused_by(refusal) => Ok(()),
            _ => bail!("the core decides otherwise than the table"),
        }
    }

    /// The merge begins anew, with the latest value.
    pub(crate) fn begin_merge(&mut self) -> Result<()> {
        a_beginning_stays_one();
        self.begin = self.core.snapshot().share()?;
        Ok(())
    }

    /// Merges what was live when the merge began, and adopts the trees.
    pub(crate) fn end_merge<R: Threads + Sync>(&mut self, rt: &R, alloc: Global) -> Result<()> {
        let first_id = self.begin.roots().next_id();
        let roots = merged(rt, alloc, &self.begin, first_id)?;
        let rebased = self.core.rebase(&self.begin, roots)?;
        self.core.adopt(rebased);
        Ok(())
    }
}

/// The core of the value's history as it is opened, over the value's trees.
pub(crate) fn reopened(alloc: Global, snapshot: &Snapshot) -> Result<Core> {
    let entries = snapshot.entries().share()?;
    let roots = snapshot.roots().share()?;
    Ok(Core::opened(alloc, entries, roots, snapshot.covered())?)
}
