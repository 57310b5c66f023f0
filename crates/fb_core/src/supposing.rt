//! What a transaction would come to after a value that is not the latest one yet.
ghost use Rattle.std.specs.Prelude.{◌≡◌, ◌++◌, ◌∷◌, [], IfOk, IfErr};
ghost use Rattle.edn_form.specs.View.{form_of};
ghost use Rattle.fb_values.specs.declared.facts.Entry.{Entry};
ghost use Rattle.fb_model.specs.Lawful.{IsLawfulAfter};
ghost use Rattle.tx_model.specs.Step as model;
ghost use Rattle.tx_step.specs.Outcomes.{Matches};

use edn_form::Edn;
use fb_view::Snapshot;
use std::alloc::Global;
use tx_model::an_accepted_entry_is_lawful;
use tx_step::{Guard, TxStop, decide};

/// The value with what the transaction would record after this one, at the least reading of the clock: one instant after the last.
/// Nothing is changed. Whoever has the turn decides anew.
pub fn supposed<G: Guard<Snapshot>>(
    alloc: Global,
    asked: &Edn,
    before: &Snapshot,
    guard: &G,
) -> Result<Snapshot, TxStop>
    ensures supposed { IfOk result (λ after. (e : Entry)
        × (after.entries ≡ before.now.entries ++ e ∷ [])
        × IsLawfulAfter before.now.entries e
        × ((tempids : _)
        × (model.step before.now.entries (form_of asked.now) i64.MIN (G.bars guard.now)
        ≡ model.accepted e tempids))) }
    ensures refused { IfErr result (λ stop. Matches stop
        (model.step before.now.entries (form_of asked.now) i64.MIN (G.bars guard.now))) }
{
    an_accepted_entry_is_lawful();
    let accepted = decide(alloc, asked, before, before.schema(), i64::MIN, guard)?;
    Ok(before.with_entry(accepted.entry)?)
}
