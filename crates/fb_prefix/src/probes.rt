//! Where a probe leads among prefixes.
ghost use Rattle.std.specs.Prelude.{◌≡◌, ◌^◌, true, false};
ghost use Rattle.fb_values.specs.declared.facts.Datom.{Datom as ModelDatom};
ghost use Rattle.fb_prefix.specs.Prefixes.{prefix_in, is_lesser};
ghost use Rattle.fb_prefix.specs.Probes.{asked as model_asked, asked_value, asked_sixteen as model_asked_sixteen, gives_all as model_gives_all, sought_at, sought_in, is_below};

use crate::parts::{Part, attribute_part, entity_part, sixteen, value_in_50, value_in_64};
use crate::prefixes::{Prefix, behind_value, pair, put};
use fb_values::{Order, Probe, Value};

/// What a probe is compared with, in place of datoms.
#[derive(Clone, Copy, Debug)]
pub struct Sought {
    pub from: Prefix,
    /// Whether `from` has all that the probe gives, so that no datom need be looked at.
    pub is_whole: bool,
}

/// What has a lesser prefix is below the probe, and what has a greater one is not. Of what has the same one, the prefix tells it
/// where it is whole, and else the datom does.
pub fn sought_by(probe: &Probe) -> Sought
    ensures below { (d : ModelDatom) → is_lesser (prefix_in probe.now.order d) result.from ≡ true
        → is_below probe.now d ≡ true }
    ensures above { (d : ModelDatom) → is_lesser result.from (prefix_in probe.now.order d) ≡ true
        → is_below probe.now d ≡ false }
    ensures whole { result.is_whole ≡ true → (d : ModelDatom)
        → prefix_in probe.now.order d ≡ result.from
        → is_below probe.now d ≡ false }
{
    by_order(probe)
}

fn by_order(probe: &Probe) -> Sought
    ensures { result ≡ sought_in probe.now }
{
    match probe.order {
        Order::Eavt => by_entity(probe),
        Order::Aevt => by_attribute(probe),
        Order::Avet => by_attribute_and_value(probe),
        Order::Vaet => by_value(probe),
    }
}

fn by_entity(probe: &Probe) -> Sought
    ensures { result
        ≡ sought_at Order.Eavt probe.now.e probe.now.a probe.now.v probe.now.t }
{
    let entity = entity_part(asked(true, probe.e));
    let attribute = attribute_part(asked(probe.e.is_some(), probe.a));
    let value = asked_in_64(probe.e.is_some() && probe.a.is_some(), &probe.v);
    Sought {
        from: put(1 << 14, entity, pair(attribute, value)),
        is_whole: entity.is_whole && attribute.is_whole && value.is_whole && !gives_all(probe),
    }
}

fn by_attribute(probe: &Probe) -> Sought
    ensures { result
        ≡ sought_at Order.Aevt probe.now.e probe.now.a probe.now.v probe.now.t }
{
    let attribute = attribute_part(asked(true, probe.a));
    let entity = entity_part(asked(probe.a.is_some(), probe.e));
    let value = asked_in_64(probe.e.is_some() && probe.a.is_some(), &probe.v);
    Sought {
        from: put(1 << 48, attribute, pair(entity, value)),
        is_whole: entity.is_whole && attribute.is_whole && value.is_whole && !gives_all(probe),
    }
}

fn by_attribute_and_value(probe: &Probe) -> Sought
    ensures { result
        ≡ sought_at Order.Avet probe.now.e probe.now.a probe.now.v probe.now.t }
{
    let attribute = attribute_part(asked(true, probe.a));
    let bytes = asked_sixteen(probe.a.is_some(), &probe.v);
    let value = asked_in_50(probe.a.is_some(), &probe.v, bytes);
    let entity = asked(probe.a.is_some() && probe.v.is_some(), probe.e);
    let rest = Prefix {
        high: value.n,
        low: behind_value(value, bytes, entity),
    };
    Sought {
        from: put(1 << 50, attribute, rest),
        is_whole: attribute.is_whole && value.is_whole && !gives_all(probe),
    }
}

fn by_value(probe: &Probe) -> Sought
    ensures { result
        ≡ sought_at Order.Vaet probe.now.e probe.now.a probe.now.v probe.now.t }
{
    let bytes = asked_sixteen(true, &probe.v);
    let value = asked_in_50(true, &probe.v, bytes);
    let attribute = attribute_part(asked(probe.v.is_some(), probe.a));
    let entity = Part {
        n: asked(probe.a.is_some() && probe.v.is_some(), probe.e),
        is_whole: true,
    };
    Sought {
        from: put(1 << 14, value, pair(attribute, entity)),
        is_whole: attribute.is_whole && value.is_whole && !gives_all(probe),
    }
}

fn gives_all(probe: &Probe) -> bool
    ensures { result ≡ model_gives_all probe.now.e probe.now.a probe.now.v probe.now.t }
{
    probe.e.is_some() && probe.a.is_some() && probe.v.is_some() && probe.t.is_some()
}

/// 0 where it is not given, or does not count.
fn asked(counts: bool, n: Option<u64>) -> u64
    ensures { result ≡ model_asked counts n }
{
    match n {
        Some(n) if counts => n,
        _ => 0,
    }
}

const NOTHING: Part = Part {
    n: 0,
    is_whole: true,
};

fn asked_in_64(counts: bool, v: &Option<Value>) -> Part
    ensures { result ≡ asked_value (2 ^ 59) counts v.now }
{
    match v {
        Some(v) if counts => value_in_64(v),
        _ => NOTHING,
    }
}

fn asked_in_50(counts: bool, v: &Option<Value>, bytes: Option<u128>) -> Part
    requires { bytes ≡ model_asked_sixteen counts v.now }
    ensures { result ≡ asked_value (2 ^ 45) counts v.now }
{
    match v {
        Some(v) if counts => value_in_50(v, bytes),
        _ => NOTHING,
    }
}

fn asked_sixteen(counts: bool, v: &Option<Value>) -> Option<u128>
    ensures { result ≡ model_asked_sixteen counts v.now }
{
    match v {
        Some(v) if counts => sixteen(v),
        _ => None,
    }
}
