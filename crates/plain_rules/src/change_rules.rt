//! The rules on what a transaction changes.
use crate::attributes::{is_attribute, is_one, is_unique, is_whole};
use crate::changes::{has_another_value, value_of_part};
use crate::tempids::entity_of;
use crate::transaction::{Transaction, is_change};
use edn_form::Edn;
use fb_memory::Memory;
use fb_numbers::{
    CARDINALITY, GREATEST_INSTANT, GREATEST_T, IDENT, INDEX, IS_COMPONENT, LARGEST_ENTRY,
    MOST_DATOMS, MOST_USERS, TX_INSTANT, UNIQUE, VALUE_TYPE,
};
use fb_values::{Datom, Value};
use plain_asks::{Ask, Operand};
use plain_reads::{Attribute, is_builtin, is_of, last_instant, users_in, value_of};

// ---- cas of many

pub fn compares_many(ask: &Ask<'_>) -> bool {
    match ask {
        Ask::Compares(_, Some(attribute), _, _) => attribute.many,
        _ => false,
    }
}

// ---- cas failed

/// Whether the present value differs from the old one of a cas; nil means that there is none.
pub fn compares_another(tx: &Transaction<'_>, ask: &Ask<'_>) -> Result<bool, Memory> {
    match ask {
        Ask::Compares(name, Some(attribute), old, _) => match entity_of(&tx.db, &tx.names, name)? {
            Some(e) => has_another(tx, e, attribute, old),
            None => Ok(false),
        },
        _ => Ok(false),
    }
}

fn has_another(
    tx: &Transaction<'_>,
    e: u64,
    attribute: &Attribute<'_>,
    old: &Operand<'_>,
) -> Result<bool, Memory> {
    let present = value_of(tx.db.facts, e, attribute.id);
    Ok(match (present, &old_value(tx, attribute, old)?) {
        (Some(v), Some(w)) => *v != *w,
        (None, None) => false,
        _ => true,
    })
}

fn old_value(
    tx: &Transaction<'_>,
    attribute: &Attribute<'_>,
    old: &Operand<'_>,
) -> Result<Option<Value>, Memory> {
    match old {
        Operand::Plain(Edn::Nil) => Ok(None),
        _ => value_of_part(&tx.db, &tx.names, attribute, old),
    }
}

// ---- datoms conflict

/// Whether the triple is added beside another value of cardinality one, or is both added and retracted.
pub fn conflicts(tx: &Transaction<'_>, d: &Datom) -> bool {
    let is_beside_another = is_one(tx.db.facts, d.a)
        && tx.asked.added.iter().any(|list| has_another_value(list, d));
    is_asked_in(&tx.asked.added, d)
        && (is_beside_another
            || is_asked_in(&tx.asked.retracted, d)
            || is_asked_in(&tx.asked.swept, d))
}

fn is_asked_in(lists: &[Vec<Datom>], d: &Datom) -> bool {
    for list in lists {
        if list.iter().any(|other| is_of(d.e, d.a, &d.v, other)) {
            return true;
        }
    }
    false
}

// ---- unique conflict

/// Whether another entity has the datom's value of its attribute.
fn has_another_holder(facts: &[Datom], d: &Datom) -> bool {
    facts
        .iter()
        .any(|other| other.a == d.a && other.v == d.v && other.e != d.e)
}

pub fn shares_a_unique_value(tx: &Transaction<'_>, d: &Datom) -> bool {
    is_unique(tx.db.facts, d.a) && has_another_holder(&tx.after, d)
}

// ---- incomplete attribute

/// Whether it says something of a new attribute that is not whole.
pub fn describes_no_whole(tx: &Transaction<'_>, d: &Datom) -> bool {
    IDENT <= d.a
        && d.a <= INDEX
        && !is_attribute(tx.db.facts, d.e)
        && tx
            .after
            .iter()
            .any(|f| f.e == d.e && VALUE_TYPE <= f.a && f.a <= INDEX)
        && !is_whole(&tx.after, d.e)
}

/// Whether it alters an attribute so that it is not whole.
pub fn alters_to_no_whole(tx: &Transaction<'_>, d: &Datom) -> bool {
    (d.a == CARDINALITY || d.a == UNIQUE || d.a == INDEX)
        && is_change(tx.db.said, d)
        && is_attribute(tx.db.facts, d.e)
        && !is_whole(&tx.after, d.e)
}

// ---- attribute fixed

/// Whether it changes what stays as it is: an attribute's ident, its type and its parts, what is built in, and a transaction's instant.
pub fn changes_what_stays(tx: &Transaction<'_>, d: &Datom) -> bool {
    let is_fixed = (d.a == IDENT || d.a == VALUE_TYPE || d.a == IS_COMPONENT)
        && is_attribute(tx.db.facts, d.e);
    let is_of_builtin = IDENT <= d.a && d.a <= INDEX && is_builtin(d.e);
    let is_old_instant = d.a == TX_INSTANT && !d.added;
    is_change(tx.db.said, d) && (is_fixed || is_of_builtin || is_old_instant)
}

// ---- alteration conflict

/// Whether it alters the cardinality or the uniqueness of an attribute against its facts.
pub fn breaks_a_promise(tx: &Transaction<'_>, d: &Datom) -> bool {
    (d.a == CARDINALITY || d.a == UNIQUE)
        && is_change(tx.db.said, d)
        && is_attribute(tx.db.facts, d.e)
        && !keeps_its_promise(&tx.after, d.e)
}

fn keeps_its_promise(facts: &[Datom], a: u64) -> bool {
    let is_one = is_one(facts, a);
    let is_unique = is_unique(facts, a);
    facts.iter().filter(|d| d.a == a).all(|d| !(is_one && has_another_value(facts, d))
        && !(is_unique && has_another_holder(facts, d)))
}

// ---- too large

/// The bytes of a value on the log: a tag, a length of four bytes before a text, and the value.
fn value_size(v: &Value) -> usize {
    match v {
        Value::Keyword(text) | Value::Str(text) | Value::Symbol(text) | Value::Uri(text) => {
            text.len().saturating_add(5)
        }
        Value::Bool(_) => 2,
        Value::Long(_) | Value::Ref(_) | Value::Instant(_) => 9,
        Value::Uuid(_) => 17,
    }
}

/// Whether there are too many datoms, or too many bytes, with the datom of the transaction's instant, which has 26.
pub fn breaks_too_large(tx: &Transaction<'_>) -> bool {
    let mut size: usize = 17 + 26;
    for d in &tx.changes {
        size = size.saturating_add(17).saturating_add(value_size(&d.v));
    }
    tx.changes.len() >= MOST_DATOMS || size > LARGEST_ENTRY
}

// ---- full

pub fn breaks_full(tx: &Transaction<'_>) -> bool {
    tx.db.next_t > GREATEST_T
        || tx.db.users > MOST_USERS
        || users_in(&tx.changes) > MOST_USERS
        || last_instant(tx.db.entries) >= GREATEST_INSTANT
}
