//! The orders in which indexes keep datoms.
ghost use Rattle.std.specs.Prelude.{◌≡◌, Ok, Err, MatchOption, MatchResult};
ghost use Rattle.std.specs.Ordering.{MatchOrdering};
ghost use Rattle.std.specs.declared.cmp.Ordering.TheVariants.{Less, Equal, Greater};
ghost use Rattle.fb_values.specs.Orders.{key_cmp, probe_cmp};

use crate::facts::{Datom, Value};
use std::cmp::Ordering;

/// Which component of a datom comes first, which second, and so on.
#[derive(Clone, Copy, Debug, PartialEq, Eq)]
pub enum Order {
    /// Entity, attribute, value, t.
    Eavt,
    /// Attribute, entity, value, t.
    Aevt,
    /// Attribute, value, entity, t.
    Avet,
    /// Value, attribute, entity, t.
    Vaet,
}

/// A place in an index: the leading components of its order that are given. A component after one that is not given
/// does not count.
#[derive(Drop)]
pub struct Probe {
    pub order: Order,
    pub e: Option<u64>,
    pub a: Option<u64>,
    pub v: Option<Value>,
    pub t: Option<u32>,
}

/// How two datoms compare in the order: their first component that differs decides.
pub fn cmp_in(order: Order, x: &Datom, y: &Datom) -> Ordering
    ensures { result ≡ key_cmp order x.now y.now }
{
    let e = || x.e.cmp(&y.e);
    let a = || x.a.cmp(&y.a);
    let v = || x.v.cmp(&y.v);
    let t = || x.t.cmp(&y.t);
    match order {
        Order::Eavt => e().then_with(a).then_with(v).then_with(t),
        Order::Aevt => a().then_with(e).then_with(v).then_with(t),
        Order::Avet => a().then_with(v).then_with(e).then_with(t),
        Order::Vaet => v().then_with(a).then_with(e).then_with(t),
    }
}

/// How a probe compares with a datom: its leading components against those of the datom's key. `Equal` where each is equal.
pub fn cmp_probe(probe: &Probe, d: &Datom) -> Ordering
    ensures { result ≡ probe_cmp probe.now d.now }
{
    match all_equal(probe, d) {
        Ok(()) => Ordering::Equal,
        Err(decided) => decided,
    }
}

/// Compares component by component up to the first that decides, which it fails with.
fn all_equal(probe: &Probe, d: &Datom) -> Result<(), Ordering>
    ensures { MatchResult result (λ _. probe_cmp probe.now d.now ≡ Equal)
        (λ decided. probe_cmp probe.now d.now ≡ decided) }
{
    match probe.order {
        Order::Eavt => {
            equal(&probe.e, &d.e)?;
            equal(&probe.a, &d.a)?;
            equal(&probe.v, &d.v)?;
        }
        Order::Aevt => {
            equal(&probe.a, &d.a)?;
            equal(&probe.e, &d.e)?;
            equal(&probe.v, &d.v)?;
        }
        Order::Avet => {
            equal(&probe.a, &d.a)?;
            equal(&probe.v, &d.v)?;
            equal(&probe.e, &d.e)?;
        }
        Order::Vaet => {
            equal(&probe.v, &d.v)?;
            equal(&probe.a, &d.a)?;
            equal(&probe.e, &d.e)?;
        }
    }
    equal(&probe.t, &d.t)
}

/// A component against a datom's. One that is not given decides that the probe is equal, whatever comes after it.
fn equal<T: Ord>(given: &Option<T>, held: &T) -> Result<(), Ordering>
    ensures { MatchOption given.now (result ≡ Err Equal) (λ x. MatchOrdering (T.cmp x held.now)
        (result ≡ Err Less) (result ≡ Ok tt) (result ≡ Err Greater)) }
{
    match given {
        None => Err(Ordering::Equal),
        Some(x) => match x.cmp(held) {
            Ordering::Equal => Ok(()),
            decided => Err(decided),
        },
    }
}
