//! The least rule that a transaction breaks, and the first of its forms that breaks it.
use crate::lookups::LookupFault;
use crate::transaction::{Transaction, all_asks};
use crate::{change_rules as changes, name_rules as names};
use fb_memory::Memory;
use fb_values::Datom;
use plain_asks::Ask;
use std::alloc::Global;
use tx_refusals::{Reason, Refusal};

/// The rules on forms that have a shape, the least one first.
const RULES: [Reason; 17] = [
    Reason::NotAnAttribute,
    Reason::ProtectedAttribute,
    Reason::WrongType,
    Reason::NotUniqueLookup,
    Reason::NotAnEntity,
    Reason::NestedWithoutId,
    Reason::TempidConflict,
    Reason::TempidNotAnEntity,
    Reason::CasMany,
    Reason::CasFailed,
    Reason::DatomsConflict,
    Reason::UniqueConflict,
    Reason::IncompleteAttribute,
    Reason::AttributeFixed,
    Reason::TooLarge,
    Reason::Full,
    Reason::AlterationConflict,
];

/// Why the transaction is refused, if it is, where each of its forms has a shape.
pub fn least_refusal(alloc: Global, tx: &Transaction<'_>) -> Result<Option<Refusal>, Memory> {
    let all = all_asks(alloc, &tx.asks)?;
    for reason in &RULES {
        if let Some(at) = first_form(alloc, *reason, tx, &all)? {
            return Ok(Some(Refusal {
                reason: *reason,
                at,
            }));
        }
    }
    Ok(None)
}

/// The first form that breaks the rule. What is wrong with a transaction as a whole is reported at its first form.
fn first_form(
    alloc: Global,
    rule: Reason,
    tx: &Transaction<'_>,
    all: &[Ask<'_>],
) -> Result<Option<usize>, Memory> {
    let is_broken_by_the_whole = match rule {
        Reason::TooLarge => changes::breaks_too_large(tx),
        Reason::Full => changes::breaks_full(tx),
        _ => false,
    };
    if is_broken_by_the_whole {
        return Ok(Some(0));
    }
    for place in 0..tx.asks.len() {
        if changes_break(rule, tx, place) || asks_break(alloc, rule, tx, all, &tx.asks[place])? {
            return Ok(Some(place));
        }
    }
    Ok(None)
}

/// Whether what one form asks breaks a rule on names.
fn asks_break(
    alloc: Global,
    rule: Reason,
    tx: &Transaction<'_>,
    all: &[Ask<'_>],
    asks: &[Ask<'_>],
) -> Result<bool, Memory> {
    for ask in asks {
        if is_broken_by(alloc, rule, tx, all, ask)? {
            return Ok(true);
        }
    }
    Ok(false)
}

fn is_broken_by(
    alloc: Global,
    rule: Reason,
    tx: &Transaction<'_>,
    all: &[Ask<'_>],
    ask: &Ask<'_>,
) -> Result<bool, Memory> {
    match rule {
        Reason::NotAnAttribute => names::names_no_attribute(&tx.db, ask),
        Reason::ProtectedAttribute => Ok(names::is_of_protected(ask)),
        Reason::WrongType => names::has_wrong_type(&tx.db, ask),
        Reason::NotUniqueLookup => names::has_lookup_with(LookupFault::NotUnique, &tx.db, ask),
        Reason::NotAnEntity => names::names_no_entity(&tx.db, ask),
        Reason::NestedWithoutId => Ok(matches!(ask, Ask::LacksId)),
        Reason::TempidConflict => names::has_tempid_of_two(alloc, &tx.db, all, ask),
        Reason::TempidNotAnEntity => Ok(names::has_tempid_of_none(all, ask)),
        Reason::CasMany => Ok(changes::compares_many(ask)),
        Reason::CasFailed => changes::compares_another(tx, ask),
        _ => Ok(false),
    }
}

/// Whether what one form changes breaks a rule on changes. What it asks includes what it finds and what its additions imply.
fn changes_break(rule: Reason, tx: &Transaction<'_>, place: usize) -> bool {
    let added = at(&tx.asked.added, place);
    let retracted = at(&tx.asked.retracted, place);
    match rule {
        Reason::UniqueConflict => added.iter().any(|d| changes::shares_a_unique_value(tx, d)),
        Reason::IncompleteAttribute => {
            added.iter().any(|d| changes::describes_no_whole(tx, d))
                || retracted.iter().any(|d| changes::describes_no_whole(tx, d))
                || has_broken_by(rule, tx, place)
        }
        _ => has_broken_by(rule, tx, place),
    }
}

/// Whether one of the datoms that the form asks, in whatever way, breaks the rule.
fn has_broken_by(rule: Reason, tx: &Transaction<'_>, place: usize) -> bool {
    for lists in tx.asked.of_all_kinds() {
        if at(lists, place)
            .iter()
            .any(|d| is_broken_by_datom(rule, tx, d))
        {
            return true;
        }
    }
    false
}

fn is_broken_by_datom(rule: Reason, tx: &Transaction<'_>, d: &Datom) -> bool {
    match rule {
        Reason::DatomsConflict => changes::conflicts(tx, d),
        Reason::IncompleteAttribute => changes::alters_to_no_whole(tx, d),
        Reason::AttributeFixed => changes::changes_what_stays(tx, d),
        Reason::AlterationConflict => changes::breaks_a_promise(tx, d),
        _ => false,
    }
}

/// The list at the place, or none.
fn at(lists: &[Vec<Datom>], place: usize) -> &[Datom] {
    match lists.get(place) {
        Some(list) => list.as_slice(),
        None => &[],
    }
}
