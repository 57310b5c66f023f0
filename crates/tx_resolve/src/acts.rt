//! What is asked of entities by their numbers.
ghost use Rattle.std.specs.Prelude.{◌≡◌, ◌++◌, IfOk, map, filter_map, option_to_list};
ghost use Rattle.std.specs.Option.{option_map};
ghost use Rattle.tx_asks.specs.declared.acts.Act.TheVariants as acts;
ghost use Rattle.tx_asks.specs.Acts.{model_act};
ghost use Rattle.tx_resolve.specs.declared.drafts.Draft.TheVariants.{Compares};
ghost use Rattle.tx_resolve.specs.Numbers.{entity_of, value_of, old_value_of, act_of};

use crate::drafts::{Draft, DraftComparison, Operand};
use crate::numbers::entity_at;
use crate::whom::EntityRef;
use fb_memory::Memory;
use fb_values::Value;
use std::alloc::Global;
use tx_asks::{Act, Boxed, ResolvedComparison};

/// The acts of each form.
pub fn acts_of_forms<'a>(
    alloc: Global,
    entities: &[u64],
    forms: Vec<Vec<Draft<'a>>>,
) -> Result<Vec<Vec<Act<'a>>>, Memory>
    ensures { IfOk result (λ list. map (λ acts. map model_act acts.items) list.items
        ≡ map (λ form. filter_map (act_of entities.now) form.items) forms.entry.items) }
{
    let mut list = Vec::with_capacity(alloc, forms.len())?;
    for drafts in forms {
        list.push(acts_of(alloc, entities, drafts)?)?;
    }
    Ok(list)
}

fn acts_of<'a>(
    alloc: Global,
    entities: &[u64],
    drafts: Vec<Draft<'a>>,
) -> Result<Vec<Act<'a>>, Memory>
    ensures { IfOk result
        (λ acts. map model_act acts.items ≡ filter_map (act_of entities.now) drafts.entry.items) }
{
    let mut acts = Vec::with_capacity(alloc, drafts.len())?;
    for draft in drafts {
        push_some(&mut acts, act(alloc, entities, draft)?)?;
    }
    Ok(acts)
}

fn push_some<'a>(acts: &mut Vec<Act<'a>>, act: Option<Act<'a>>) -> Result<(), Memory>
    ensures { IfOk result (λ _. acts.new.items ≡ acts.old.items ++ option_to_list act.entry) }
{
    if let Some(act) = act {
        acts.push(act)?;
    }
    Ok(())
}

/// None where there only is a map of an entity.
fn act<'a>(alloc: Global, entities: &[u64], draft: Draft<'a>) -> Result<Option<Act<'a>>, Memory>
    ensures { IfOk result
        (λ act. option_map model_act act ≡ act_of entities.now draft.entry) }
{
    match draft {
        Draft::Adds {
            on,
            attribute,
            part,
            holder: _,
        } => {
            let Some(e) = entity(entities, on) else {
                return Ok(None);
            };
            let Some(v) = value(entities, part) else {
                return Ok(None);
            };
            Ok(Some(Act::Adds { e, attribute, v }))
        }
        Draft::Retracts {
            on,
            attribute,
            part,
        } => {
            let Some(e) = entity(entities, on) else {
                return Ok(None);
            };
            let Some(v) = value(entities, part) else {
                return Ok(None);
            };
            Ok(Some(Act::Retracts { e, attribute, v }))
        }
        Draft::RetractsAll { on, attribute } => {
            let Some(e) = entity(entities, on) else {
                return Ok(None);
            };
            Ok(Some(Act::RetractsAll { e, attribute }))
        }
        Draft::Compares(drafted) => comparison(alloc, entities, drafted.into_inner()),
        Draft::RetractsEntity { on } => {
            let Some(e) = entity(entities, on) else {
                return Ok(None);
            };
            Ok(Some(Act::RetractsEntity { e }))
        }
        Draft::Meets { .. } => Ok(None),
    }
}

fn comparison<'a>(
    alloc: Global,
    entities: &[u64],
    drafted: DraftComparison<'a>,
) -> Result<Option<Act<'a>>, Memory>
    ensures { IfOk result
        (λ act. option_map model_act act ≡ act_of entities.now (Compares drafted.entry)) }
{
    let Some(resolved) = resolved(entities, drafted) else {
        return Ok(None);
    };
    Ok(Some(Act::Compares(Boxed::new(alloc, resolved)?)))
}

fn resolved<'a>(entities: &[u64], drafted: DraftComparison<'a>) -> Option<ResolvedComparison<'a>>
    ensures { option_map (λ found. model_act (acts.Compares found)) result
        ≡ act_of entities.now (Compares drafted.entry) }
{
    let DraftComparison {
        on,
        attribute,
        old,
        new,
    } = drafted;
    let e = entity(entities, on)?;
    let old = old_value(entities, old);
    let new = value(entities, new)?;
    Some(ResolvedComparison {
        e,
        attribute,
        old,
        new,
    })
}

fn entity(entities: &[u64], whom: EntityRef) -> Option<u64>
    ensures { result ≡ entity_of entities.now whom }
{
    match whom {
        EntityRef::Known(e) => Some(e),
        EntityRef::New(place) => entity_at(entities, place),
    }
}

fn value(entities: &[u64], part: Operand) -> Option<Value>
    ensures { result ≡ value_of entities.now part }
{
    match part {
        Operand::Plain(v) => Some(v),
        Operand::Entity(whom) => {
            let e = entity(entities, whom)?;
            Some(Value::Ref(e))
        }
    }
}

fn old_value(entities: &[u64], part: Option<Operand>) -> Option<Value>
    ensures { result ≡ old_value_of entities.now part }
{
    match part {
        None => None,
        Some(part) => value(entities, part),
    }
}
