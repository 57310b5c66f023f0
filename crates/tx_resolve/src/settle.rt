//! From drafts to acts: the rules on tempids, and the tempids' entities.
ghost use Rattle.std.specs.Prelude.{◌≡◌, ◌<◌, ◌^◌, [], ◌∷◌, IfOk, IfErr, None, map, filter_map};
ghost use Rattle.tx_model.specs.Step.{first_refusal};
ghost use Rattle.tx_resolve.specs.Meeting.{drafts_in};
ghost use Rattle.tx_resolve.specs.Holders.{slots_of};
ghost use Rattle.tx_resolve.specs.Numbers.{numbered as model_numbered, act_of, with_entity};
ghost use Rattle.tx_resolve.specs.Rules.{StopsBy};
ghost use Rattle.tx_resolve.specs.Settled.{drafted_acts, told_names, tempid_rules, rules_of, acts_of};

use crate::acts::acts_of_forms;
use crate::drafts::Draft;
use crate::holders::{Slot, keep_holders};
use crate::meeting::Met;
use crate::numbers::{numbered, told};
use crate::rules::{first_conflict, first_of_none};
use crate::whom::TempidName;
use fb_memory::Memory;
use std::alloc::Global;
use std::collections::BTreeMap;
use tx_asks::Resolved;
use tx_forms::TxStop;
use tx_refusals::{Reason, Refusal};

/// The acts and the entities of the tempids, where so many user entities are issued, or the rule on tempids that is broken.
pub fn settled<'a>(
    alloc: Global,
    met: Met<'a>,
    forms: Vec<Vec<Draft<'a>>>,
    users: u64,
) -> Result<Resolved<'a>, TxStop>
    requires { users < 2 ^ 47 }
    ensures acts { IfOk result
        (λ answer. acts_of answer ≡ drafted_acts met.entry forms.entry.items users) }
    ensures tempids { IfOk result
        (λ answer. answer.tempids.items ≡ told_names met.entry forms.entry.items users) }
    ensures unbroken { IfOk result
        (λ _. first_refusal (tempid_rules met.entry forms.entry.items) ≡ None) }
    ensures refused { IfErr result
        (λ stop. StopsBy (first_refusal (tempid_rules met.entry forms.entry.items)) stop) }
{
    let Met {
        named,
        nameless: _,
        mut slots,
    } = met;
    keep_holders(&mut slots, &forms);
    match tempid_refusal(&slots, &forms) {
        Some(refusal) => Err(TxStop::Refused(refusal)),
        None => Ok(answer(alloc, &named, &slots, forms, users)?),
    }
}

fn answer<'a>(
    alloc: Global,
    named: &BTreeMap<TempidName<'_>, usize>,
    slots: &[Slot],
    forms: Vec<Vec<Draft<'a>>>,
    users: u64,
) -> Result<Resolved<'a>, Memory>
    requires { users < 2 ^ 47 }
    ensures acts { IfOk result (λ answer. acts_of answer
        ≡ map (λ form. filter_map (act_of (model_numbered slots.now users)) form.items)
        forms.entry.items) }
    ensures tempids { IfOk result (λ answer. answer.tempids.items
        ≡ filter_map (with_entity (model_numbered slots.now users)) named.now.entries) }
{
    let entities = numbered(alloc, slots, users)?;
    let tempids = told(alloc, named, &entities)?;
    let forms = acts_of_forms(alloc, &entities, forms)?;
    Ok(Resolved { forms, tempids })
}

fn tempid_refusal(slots: &[Slot], forms: &[Vec<Draft<'_>>]) -> Option<Refusal>
    ensures { result ≡ first_refusal (rules_of slots.now forms.now) }
{
    if let Some(at) = first_conflict(slots, forms) {
        return Some(Refusal {
            reason: Reason::TempidConflict,
            at,
        });
    }
    match first_of_none(slots, forms) {
        Some(at) => Some(Refusal {
            reason: Reason::TempidNotAnEntity,
            at,
        }),
        None => None,
    }
}
