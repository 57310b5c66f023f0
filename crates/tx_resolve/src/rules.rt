//! The rules on tempids: the first form that breaks each.
ghost use Rattle.std.specs.Prelude.{◌≡◌, false};
ghost use Rattle.std.specs.Option.{option_map_or};
ghost use Rattle.std.specs.List.{list_any};
ghost use Rattle.tx_resolve.specs.Holders.{slot_at as model_slot_at, has_another};
ghost use Rattle.tx_resolve.specs.Meeting.{place_in_ref, place_in_part, place_in_old_part};
ghost use Rattle.tx_resolve.specs.Breaks.{gives_one_of_two as model_gives_one_of_two, is_added_to_by_none, uses_one_of_none as model_uses_one_of_none, first_form};

use crate::drafts::{Draft, DraftComparison, Operand};
use crate::holders::{Slot, addition, slot_at};
use crate::whom::EntityRef;

// ---- a tempid of two holders

/// The first form that gives a holder to a tempid which has another one too.
pub fn first_conflict(slots: &[Slot], forms: &[Vec<Draft<'_>>]) -> Option<usize>
    ensures { result ≡ first_form (model_gives_one_of_two slots.now) forms.now }
{
    let mut place = 0;
    for drafts in forms {
        if has_conflict(slots, drafts) {
            return Some(place);
        }
        place += 1;
    }
    None
}

fn has_conflict(slots: &[Slot], drafts: &[Draft<'_>]) -> bool
    ensures { result ≡ list_any (model_gives_one_of_two slots.now) drafts.now }
{
    for draft in drafts {
        if gives_one_of_two(slots, draft) {
            return true;
        }
    }
    false
}

fn gives_one_of_two(slots: &[Slot], draft: &Draft<'_>) -> bool
    ensures { result ≡ model_gives_one_of_two slots.now draft.now }
{
    match addition(draft) {
        Some((place, holder)) => is_one_of_two(slots, place, holder),
        None => false,
    }
}

/// Whether the tempid with the place has another holder than this one.
fn is_one_of_two(slots: &[Slot], place: usize, holder: Option<u64>) -> bool
    ensures { result ≡ option_map_or (has_another (model_slot_at slots.now place)) holder false }
{
    match holder {
        Some(e) => slot_at(slots, place).has_another(e),
        None => false,
    }
}

// ---- a tempid that nothing is added to

/// The first form that uses a tempid to which no form adds.
pub fn first_of_none(slots: &[Slot], forms: &[Vec<Draft<'_>>]) -> Option<usize>
    ensures { result ≡ first_form (model_uses_one_of_none slots.now) forms.now }
{
    let mut place = 0;
    for drafts in forms {
        if has_one_of_none(slots, drafts) {
            return Some(place);
        }
        place += 1;
    }
    None
}

fn has_one_of_none(slots: &[Slot], drafts: &[Draft<'_>]) -> bool
    ensures { result ≡ list_any (model_uses_one_of_none slots.now) drafts.now }
{
    for draft in drafts {
        if uses_one_of_none(slots, draft) {
            return true;
        }
    }
    false
}

fn uses_one_of_none(slots: &[Slot], draft: &Draft<'_>) -> bool
    ensures { result ≡ model_uses_one_of_none slots.now draft.now }
{
    match draft {
        Draft::Adds { on, part, .. } | Draft::Retracts { on, part, .. } => {
            is_of_none(slots, *on) || is_part_of_none(slots, part)
        }
        Draft::Compares(comparison) => {
            let DraftComparison { on, old, new, .. } = comparison.get();
            is_of_none(slots, *on) || is_old_part_of_none(slots, old) || is_part_of_none(slots, new)
        }
        Draft::RetractsAll { on, .. } | Draft::RetractsEntity { on } | Draft::Meets { on } => {
            is_of_none(slots, *on)
        }
    }
}

fn is_of_none(slots: &[Slot], whom: EntityRef) -> bool
    ensures { result ≡ list_any (is_added_to_by_none slots.now) (place_in_ref whom) }
{
    match whom {
        EntityRef::Known(_) => false,
        EntityRef::New(place) => !slot_at(slots, place).added_to,
    }
}

fn is_part_of_none(slots: &[Slot], part: &Operand) -> bool
    ensures { result ≡ list_any (is_added_to_by_none slots.now) (place_in_part part.now) }
{
    match part {
        Operand::Plain(_) => false,
        Operand::Entity(whom) => is_of_none(slots, *whom),
    }
}

fn is_old_part_of_none(slots: &[Slot], part: &Option<Operand>) -> bool
    ensures { result ≡ list_any (is_added_to_by_none slots.now) (place_in_old_part part.now) }
{
    match part {
        None => false,
        Some(part) => is_part_of_none(slots, part),
    }
}
