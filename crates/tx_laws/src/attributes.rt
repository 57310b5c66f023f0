//! Law 9: attributes are whole and change only in what may change, names are not the database's own, and the entry records
//! its own instant and no other one.
ghost use Rattle.std.specs.Prelude.{◌≡◌, ◌&&◌, ◌||◌, not, true, nat_eq};
ghost use Rattle.std.specs.Option.{option_map_or};
ghost use Rattle.std.specs.Ordering.{nat_cmp};
ghost use Rattle.std.specs.BTreeMap.{get};
ghost use Rattle.std.specs.List.{list_all, list_any};
ghost use Rattle.fb_model.specs.Laws as model;
ghost use Rattle.fb_numbers.specs.Numbers.{tx_instant};
ghost use Rattle.tx_laws.specs.Changes as changes;

use crate::altered::Altered;
use edn_values::is_reserved;
use fb_numbers::{
    CARDINALITY, IDENT, INDEX, IS_COMPONENT, TX_INSTANT, UNIQUE, USER_ENTITIES, VALUE_TYPE,
    is_builtin, transaction_entity,
};
use fb_schema::Schema;
use fb_values::{Datom, Entry, Value};
use std::collections::BTreeMap;

/// Whether the entry keeps what holds of attributes, names and instants.
pub fn keeps_attributes(entry: &Entry, schema: &Schema, altered: &BTreeMap<u64, Altered>) -> bool
    ensures { result ≡ changes.keeps_attributes schema.now altered.now entry.now }
{
    let datoms = entry.datoms.as_slice();
    keeps_schema(schema, altered, datoms) && keeps_names_and_instants(entry, datoms)
}

fn keeps_schema(schema: &Schema, altered: &BTreeMap<u64, Altered>, datoms: &[Datom]) -> bool
    ensures { result ≡ changes.keeps_schema schema.now altered.now datoms.now }
{
    are_whole(schema, altered, datoms) && are_allowed(schema, datoms)
}

pub fn keeps_names_and_instants(entry: &Entry, datoms: &[Datom]) -> bool
    ensures { result ≡ changes.keeps_names_and_instants entry.now datoms.now }
{
    add_no_reserved_names(datoms) && has_own_instant_alone(entry, datoms)
}

/// Whether the entities that begin to be attributes, and the attributes that are altered, are whole.
fn are_whole(schema: &Schema, altered: &BTreeMap<u64, Altered>, datoms: &[Datom]) -> bool
    ensures { result ≡ changes.are_whole schema.now altered.now datoms.now }
{
    for d in datoms {
        if asks_whole(schema, d) && !is_whole(altered, d.e) {
            return false;
        }
    }
    true
}

fn asks_whole(schema: &Schema, d: &Datom) -> bool
    ensures { result ≡ changes.asks_whole schema.now d.now }
{
    if schema.is_attribute(d.e) {
        is_alteration(d)
    } else {
        d.added && says_attribute(d)
    }
}

fn is_whole(altered: &BTreeMap<u64, Altered>, e: u64) -> bool
    ensures { result ≡ option_map_or (λ a. a.whole) (get nat_cmp altered.now e) true }
{
    match altered.get(&e) {
        Some(altered) => altered.whole,
        None => true,
    }
}

fn says_attribute(d: &Datom) -> bool
    ensures { result ≡ model.says_attribute d.now }
{
    VALUE_TYPE <= d.a && d.a <= INDEX
}

fn is_alteration(d: &Datom) -> bool
    ensures { result ≡ model.is_alteration d.now }
{
    d.a == CARDINALITY || d.a == UNIQUE || d.a == INDEX
}

/// Whether no datom changes what stays as it is.
pub fn are_allowed(schema: &Schema, datoms: &[Datom]) -> bool
    ensures { result ≡ model.are_allowed schema.now datoms.now }
{
    for d in datoms {
        if is_forbidden(schema, d) {
            return false;
        }
    }
    true
}

fn is_forbidden(schema: &Schema, d: &Datom) -> bool
    ensures { result ≡ model.is_forbidden schema.now d.now }
{
    let is_fixed = d.a == IDENT || d.a == VALUE_TYPE || d.a == IS_COMPONENT;
    (is_fixed && schema.is_attribute(d.e))
        || (IDENT <= d.a && d.a <= INDEX && is_builtin(d.e))
        || (d.a == TX_INSTANT && !d.added)
}

/// Whether no user entity gets a name of the database itself.
fn add_no_reserved_names(datoms: &[Datom]) -> bool
    ensures { result ≡ changes.add_no_reserved_names datoms.now }
{
    for d in datoms {
        if d.added && has_reserved_name(d) {
            return false;
        }
    }
    true
}

fn has_reserved_name(d: &Datom) -> bool
    ensures { result ≡ model.has_reserved_name d.now }
{
    d.a == IDENT && USER_ENTITIES < d.e && is_reserved_value(&d.v)
}

fn is_reserved_value(v: &Value) -> bool
    ensures { result ≡ model.is_reserved_value v.now }
{
    match v {
        Value::Keyword(text) => is_reserved(text.as_str()),
        _ => false,
    }
}

/// Whether the entry records its own instant, and no other one.
fn has_own_instant_alone(entry: &Entry, datoms: &[Datom]) -> bool
    ensures { result ≡ changes.own_instant_alone entry.now datoms.now }
{
    has_own_instant(entry, datoms) && has_no_other_instant(entry, datoms)
}

fn has_own_instant(entry: &Entry, datoms: &[Datom]) -> bool
    ensures { result ≡ list_any (model.is_own_instant entry.now) datoms.now }
{
    for d in datoms {
        if is_own_instant(entry, d) {
            return true;
        }
    }
    false
}

fn has_no_other_instant(entry: &Entry, datoms: &[Datom]) -> bool
    ensures { result
        ≡ list_all (λ d. not (nat_eq d.a tx_instant) || model.is_own_instant entry.now d)
        datoms.now }
{
    for d in datoms {
        if d.a == TX_INSTANT && !is_own_instant(entry, d) {
            return false;
        }
    }
    true
}

/// Whether the datom records the entry's instant on its transaction.
fn is_own_instant(entry: &Entry, d: &Datom) -> bool
    ensures { result ≡ model.is_own_instant entry.now d.now }
{
    d.e == transaction_entity(entry.t)
        && d.a == TX_INSTANT
        && d.v == Value::Instant(entry.instant)
        && d.added
}
