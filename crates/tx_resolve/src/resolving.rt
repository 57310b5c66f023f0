//! The call that resolves names.
ghost use Rattle.std.specs.Prelude.{◌≡◌, ◌<◌, ◌^◌, ◌∷◌, IfOk, IfErr, None};
ghost use Rattle.fb_model.specs.Lawful.{IsLawful};
ghost use Rattle.fb_schema.specs.Described.{SchemaStands};
ghost use Rattle.tx_asks.specs.Acts.{AreActs, acts_in};
ghost use Rattle.tx_model.specs.Tempids.{assigned, named_tempids};
ghost use Rattle.tx_model.specs.Transaction.{joined, with_names};
ghost use Rattle.tx_model.specs.Step.{first_refusal};
ghost use Rattle.tx_resolve.specs.Rules.{resolve_rules, StopsBy, OfAsks};
ghost use Rattle.tx_refusals.specs.declared.reasons.Reason.TheVariants.{NestedWithoutId};
ghost use Rattle.tx_resolve.specs.Settled.{drafted_acts, told_names, tempid_rules, lists_of, acts_of};

use crate::drafts::{Draft, drafts_of_forms};
use crate::meeting::{Met, met_in};
use crate::names::all_looked_up;
use crate::settle::settled;
use fb_facts::Facts;
use fb_schema::Schema;
use std::alloc::Global;
use tx_asks::{Flat, Resolved, asks_that_ask_for_nothing};
use tx_forms::TxStop;
use tx_model::lawful_histories_are_small;
use tx_refusals::{Reason, Refusal};

/// What the forms ask of entities by their numbers, or why the transaction is refused: because of a name that finds no
/// entity, of a map inside another that lacks what it needs, of a tempid with two holders, or of one that nothing is added
/// to. It costs a logarithm for each lookup ref that is written, however many asks name it, and for each mention of a
/// tempid with a name; a map without `:db/id` is found by its number.
pub fn resolve<'a, F: Facts>(
    alloc: Global,
    flat: Flat<'a>,
    facts: &F,
    schema: &Schema,
) -> Result<Resolved<'a>, TxStop>
    requires schema { SchemaStands schema.now (F.history facts.now) }
    requires lawful { IsLawful (F.history facts.now) }
    ensures acts { IfOk result (λ r. OfAsks flat.entry (F.history facts.now)
        (λ db asks. AreActs (acts_in (lists_of r.forms.items))
        (with_names db asks (assigned db (joined asks))))) }
    ensures tempids { IfOk result (λ r. OfAsks flat.entry (F.history facts.now)
        (λ db asks. r.tempids.items ≡ named_tempids (assigned db (joined asks)))) }
    ensures unbroken { IfOk result (λ _. OfAsks flat.entry (F.history facts.now)
        (λ db asks. first_refusal (resolve_rules db asks) ≡ None)) }
    ensures refused { IfErr result (λ stop. OfAsks flat.entry (F.history facts.now)
        (λ db asks. StopsBy (first_refusal (resolve_rules db asks)) stop)) }
{
    asks_that_ask_for_nothing();
    lawful_histories_are_small();
    let met = met_in(alloc, flat.nameless, &flat.forms)?;
    let found = all_looked_up(alloc, facts, schema, flat.lookups.as_slice())?;
    let drafts = drafts_of_forms(alloc, facts, schema, found.as_slice(), &met, &flat.forms)?;
    unless_lacking(alloc, flat.lacking, met, drafts, facts.issued())
}

/// The answer to the drafts, unless a map inside another lacks what it needs.
fn unless_lacking<'a>(
    alloc: Global,
    lacking: Option<usize>,
    met: Met<'a>,
    drafts: Vec<Vec<Draft<'a>>>,
    users: u64,
) -> Result<Resolved<'a>, TxStop>
    requires { users < 2 ^ 47 }
    ensures acts { IfOk result
        (λ answer. acts_of answer ≡ drafted_acts met.entry drafts.entry.items users) }
    ensures tempids { IfOk result
        (λ answer. answer.tempids.items ≡ told_names met.entry drafts.entry.items users) }
    ensures unbroken { IfOk result (λ _. first_refusal
        ((NestedWithoutId, lacking) ∷ tempid_rules met.entry drafts.entry.items) ≡ None) }
    ensures refused { IfErr result (λ stop. StopsBy
        (first_refusal ((NestedWithoutId, lacking) ∷ tempid_rules met.entry drafts.entry.items))
        stop) }
{
    match lacking {
        Some(at) => Err(TxStop::Refused(Refusal {
            reason: Reason::NestedWithoutId,
            at,
        })),
        None => settled(alloc, met, drafts, users),
    }
}
