//! Laws 1 to 6, but for the numbers: the entry's t and instant, and each datom for itself and beside the next one.
ghost use Rattle.std.specs.Prelude.{◌≡◌, List, if◌then◌else◌, not, false, nat_eq};
ghost use Rattle.std.specs.List.{list_all};
ghost use Rattle.std.specs.Option.{option_map_or};
ghost use Rattle.fb_values.specs.declared.facts.Entry.{Entry};
ghost use Rattle.fb_values.specs.declared.indexes.Order.TheVariants.{Eavt};
ghost use Rattle.fb_values.specs.Rising.{rises as model_rises};
ghost use Rattle.fb_model.specs.Facts.{holds};
ghost use Rattle.fb_model.specs.Laws as model;
ghost use Rattle.fb_model.specs.Schema.{attribute_of};
ghost use Rattle.fb_model.specs.Types.{is_of_type as model_is_of_type};
ghost use Rattle.tx_laws.specs.Own.{IsLatestOf};

use crate::latest::Latest;
use edn_values::is_of_type;
use fb_facts::Facts;
use fb_numbers::{GREATEST_T, MOST_DATOMS, is_instant};
use fb_schema::Schema;
use fb_values::{Datom, Entry, Order, cmp_in};
use std::cmp::Ordering;

/// Law 1: whether t is the next one.
pub fn has_next_t(entry: &Entry, latest: &Latest) -> bool
    ensures { (h : List Entry) → IsLatestOf latest.now h → result ≡ model.has_next_t h entry.now }
{
    entry.t > 0 && entry.t - 1 == latest.basis && entry.t <= GREATEST_T
}

/// Law 2: whether the instant is above the last one, and in its range.
pub fn has_later_instant(entry: &Entry, latest: &Latest) -> bool
    ensures { (h : List Entry) → IsLatestOf latest.now h
        → result ≡ model.has_later_instant h entry.now }
{
    latest.instant < entry.instant && is_instant(entry.instant)
}

/// Law 3: whether each attribute is installed.
pub fn are_installed(schema: &Schema, datoms: &[Datom]) -> bool
    ensures { result ≡ model.are_installed schema.now datoms.now }
{
    for d in datoms {
        if !schema.is_attribute(d.a) {
            return false;
        }
    }
    true
}

/// Law 4: whether each value is of its attribute's type.
pub fn are_typed(schema: &Schema, datoms: &[Datom]) -> bool
    ensures { result ≡ model.are_typed schema.now datoms.now }
{
    for d in datoms {
        if !is_typed(schema, d) {
            return false;
        }
    }
    true
}

fn is_typed(schema: &Schema, d: &Datom) -> bool
    ensures { result
        ≡ option_map_or (λ attribute. model_is_of_type attribute.kind d.now.v)
        (attribute_of schema.now d.now.a) false }
{
    match schema.attribute(d.a) {
        Some(attribute) => is_of_type(attribute.kind, &d.v),
        None => false,
    }
}

/// Law 5: whether the datoms are of the entry's t, rise, and are not too many.
pub fn has_datoms_in_order(entry: &Entry) -> bool
    ensures { (h : List Entry) → result ≡ model.has_datoms_in_order h entry.now }
{
    let datoms = entry.datoms.as_slice();
    are_of_t(entry.t, datoms) && rise(datoms) && datoms.len() <= MOST_DATOMS
}

fn are_of_t(t: u32, datoms: &[Datom]) -> bool
    ensures { result ≡ list_all (λ d. nat_eq d.t t) datoms.now }
{
    for d in datoms {
        if d.t != t {
            return false;
        }
    }
    true
}

fn rise(datoms: &[Datom]) -> bool
    ensures { result ≡ model_rises Eavt datoms.now }
{
    let mut i = 1;
    while i < datoms.len() {
        if cmp_in(Order::Eavt, &datoms[i - 1], &datoms[i]) != Ordering::Less {
            return false;
        }
        i += 1;
    }
    true
}

/// Law 6: whether each datom changes something.
pub fn has_changes_alone<F: Facts>(facts: &F, datoms: &[Datom]) -> bool
    ensures { result
        ≡ list_all
        (λ d. if d.added then not (holds (F.history facts.now) d.e d.a d.v)
        else holds (F.history facts.now) d.e d.a d.v)
        datoms.now }
{
    for d in datoms {
        if facts.holds(d.e, d.a, &d.v) == d.added {
            return false;
        }
    }
    true
}
