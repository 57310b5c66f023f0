//! The step that every transaction takes that is tried.
ghost use Rattle.std.specs.Prelude.{◌≡◌, IfOk, IfErr};
ghost use Rattle.edn_form.specs.View.{form_of};
ghost use Rattle.fb_model.specs.Lawful.{IsLawfulAfter};
ghost use Rattle.tx_model.specs.Step as model;
ghost use Rattle.tx_step.specs.Outcomes.{Matches};

use edn_form::Edn;
use fb_view::Snapshot;
use std::alloc::Global;
use tx_model::an_accepted_entry_is_lawful;
use tx_step::{Accepted, Guard, TxStop, decide};

/// What the transaction would record at the snapshot, where the clock reads this.
pub(crate) fn decided<G: Guard<Snapshot>>(
    alloc: Global,
    snapshot: &Snapshot,
    asked: &Edn,
    now: i64,
    guard: &G,
) -> Result<Accepted, TxStop>
    ensures accepted { IfOk result (λ done. model.step snapshot.now.entries (form_of asked.now) now
        (G.bars guard.now)
        ≡ model.accepted done.entry done.tempids.items) }
    ensures lawful { IfOk result (λ done. IsLawfulAfter snapshot.now.entries done.entry) }
    ensures refused { IfErr result (λ stop. Matches stop
        (model.step snapshot.now.entries (form_of asked.now) now (G.bars guard.now))) }
{
    an_accepted_entry_is_lawful();
    decide(alloc, asked, snapshot, snapshot.schema(), now, guard)
}
