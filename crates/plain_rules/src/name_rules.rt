//! The rules on what a transaction names.
use crate::db::Db;
use crate::lookups::{LookupFault, has_faulty_lookup, has_no_value};
use crate::tempids::{found, holders, identified};
use edn_form::Edn;
use edn_values::is_reserved;
use fb_memory::Memory;
use fb_numbers::{IDENT, TX_INSTANT, TYPE_REF};
use plain_asks::{Ask, Name, Operand, is_same_tempid, is_tempid, names_of};
use plain_reads::Attribute;
use std::alloc::Global;

/// Whether a lookup ref in one of the ask's names has the fault.
pub fn has_lookup_with(fault: LookupFault, db: &Db<'_>, ask: &Ask<'_>) -> Result<bool, Memory> {
    for name in names_of(ask).iter().flatten() {
        if has_faulty_lookup(fault, db, name)? {
            return Ok(true);
        }
    }
    Ok(false)
}

// ---- not an attribute

pub fn names_no_attribute(db: &Db<'_>, ask: &Ask<'_>) -> Result<bool, Memory> {
    match ask {
        Ask::Adds(_, None, _)
        | Ask::Retracts(_, None, _)
        | Ask::RetractsAll(_, None)
        | Ask::Compares(_, None, _, _)
        | Ask::Mentions(None) => Ok(true),
        _ => has_lookup_with(LookupFault::Unknown, db, ask),
    }
}

// ---- protected attribute

/// The instant of a transaction, or an ident that is kept for the database itself.
pub fn is_of_protected(ask: &Ask<'_>) -> bool {
    match ask {
        Ask::Adds(_, Some(attribute), part) | Ask::Compares(_, Some(attribute), _, part) => {
            is_instant(attribute) || (attribute.id == IDENT && is_reserved_name(part))
        }
        Ask::Retracts(_, Some(attribute), _)
        | Ask::RetractsAll(_, Some(attribute))
        | Ask::Mentions(Some(attribute)) => is_instant(attribute),
        _ => false,
    }
}

fn is_instant(attribute: &Attribute<'_>) -> bool {
    attribute.id == TX_INSTANT
}

fn is_reserved_name(part: &Operand<'_>) -> bool {
    match part {
        Operand::Plain(Edn::Key(k)) => is_reserved(k.as_str()),
        _ => false,
    }
}

// ---- wrong type

pub fn has_wrong_type(db: &Db<'_>, ask: &Ask<'_>) -> Result<bool, Memory> {
    Ok(has_wrong_part(ask)? || has_lookup_with(LookupFault::Wrong, db, ask)?)
}

fn has_wrong_part(ask: &Ask<'_>) -> Result<bool, Memory> {
    match ask {
        Ask::Adds(_, Some(attribute), part) | Ask::Retracts(_, Some(attribute), part) => {
            is_wrong(attribute, part)
        }
        Ask::Compares(_, Some(attribute), old, new) => {
            Ok(is_wrong_old(attribute, old)? || is_wrong(attribute, new)?)
        }
        _ => Ok(false),
    }
}

fn is_wrong(attribute: &Attribute<'_>, part: &Operand<'_>) -> Result<bool, Memory> {
    match part {
        Operand::Plain(f) => has_no_value(attribute, f),
        Operand::Entity(_) => Ok(attribute.kind != TYPE_REF),
    }
}

/// Nil is the old value of an entity that has none.
fn is_wrong_old(attribute: &Attribute<'_>, part: &Operand<'_>) -> Result<bool, Memory> {
    match part {
        Operand::Plain(Edn::Nil) => Ok(false),
        _ => is_wrong(attribute, part),
    }
}

// ---- not an entity

pub fn names_no_entity(db: &Db<'_>, ask: &Ask<'_>) -> Result<bool, Memory> {
    for name in names_of(ask).iter().flatten() {
        let is_old = !matches!(name, Name::Tempid(_) | Name::Nameless(_));
        if is_old && found(db, name)?.is_none() {
            return Ok(true);
        }
    }
    Ok(false)
}

// ---- tempid conflict

/// Whether it gives an identity value with a holder to a tempid that has identity values of two holders.
pub fn has_tempid_of_two(
    alloc: Global,
    db: &Db<'_>,
    all: &[Ask<'_>],
    ask: &Ask<'_>,
) -> Result<bool, Memory> {
    for name in names_of(ask).iter().flatten() {
        if is_tempid(name) && is_of_two(alloc, db, all, name, ask)? {
            return Ok(true);
        }
    }
    Ok(false)
}

fn is_of_two(
    alloc: Global,
    db: &Db<'_>,
    all: &[Ask<'_>],
    name: &Name<'_>,
    ask: &Ask<'_>,
) -> Result<bool, Memory> {
    let Some(e) = identified(db, name, ask)? else {
        return Ok(false);
    };
    let holders = holders(alloc, db, all, name)?;
    Ok(holders.iter().any(|other| *other != e))
}

// ---- tempid of no entity

/// Whether it uses a tempid that is the entity of no addition.
pub fn has_tempid_of_none(all: &[Ask<'_>], ask: &Ask<'_>) -> bool {
    for name in names_of(ask).iter().flatten() {
        if is_tempid(name) && !is_added(all, name) {
            return true;
        }
    }
    false
}

fn is_added(all: &[Ask<'_>], name: &Name<'_>) -> bool {
    all.iter().any(|ask| adds_to(name, ask))
}

fn adds_to(name: &Name<'_>, ask: &Ask<'_>) -> bool {
    match ask {
        Ask::Adds(other, _, _) => is_same_tempid(name, other),
        _ => false,
    }
}
