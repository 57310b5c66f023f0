//! Whether the changes concern a triple.
ghost use Rattle.std.specs.Prelude.{◌≡◌, ◌≤◌, length};
ghost use Rattle.std.specs.List.{list_any};
ghost use Rattle.fb_model.specs.Facts.{is_of as model_is_of};
ghost use Rattle.tx_after.specs.After as model;
ghost use Rattle.tx_after.specs.Places as places;

use fb_values::{Datom, Value};
use std::cmp::Ordering;

/// Whether one of the changes is of the triple.
pub fn mentions(changes: &[Datom], e: u64, a: u64, v: &Value) -> bool
    requires { model.AreChanges changes.now }
    ensures { result ≡ list_any (model_is_of e a v.now) changes.now }
{
    let place = triple_place(changes, e, a, v);
    if place == changes.len() {
        return false;
    }
    is_of(&changes[place], e, a, v)
}

/// The first place of a change of no lower triple.
fn triple_place(changes: &[Datom], e: u64, a: u64, v: &Value) -> usize
    requires { model.AreChanges changes.now }
    ensures within { result ≤ length changes.now }
    ensures place { result ≡ places.triple_place e a v.now changes.now }
{
    let mut from = 0;
    let mut to = changes.len();
    while from < to {
        let middle = from + (to - from) / 2;
        if is_lower(&changes[middle], e, a, v) {
            from = middle + 1;
        } else {
            to = middle;
        }
    }
    from
}

fn is_lower(d: &Datom, e: u64, a: u64, v: &Value) -> bool
    ensures { result ≡ places.is_lower e a v.now d.now }
{
    let cmp_a = || d.a.cmp(&a);
    let cmp_v = || d.v.cmp(v);
    d.e.cmp(&e).then_with(cmp_a).then_with(cmp_v) == Ordering::Less
}

fn is_of(d: &Datom, e: u64, a: u64, v: &Value) -> bool
    ensures { result ≡ model_is_of e a v.now d.now }
{
    d.e == e && d.a == a && d.v == *v
}
