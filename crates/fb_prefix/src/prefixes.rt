//! The prefix of a datom in an order.
ghost use Rattle.std.specs.Prelude.{◌≡◌, ◌+◌, ◌*◌, ◌<◌, ◌≤◌, ◌^◌};
ghost use Rattle.fb_prefix.specs.Parts.{sixteen as model_sixteen};
ghost use Rattle.fb_prefix.specs.Prefixes.{is_lesser, pair as model_pair, put as model_put, behind_value as model_behind_value, value_and_entity as model_value_and_entity, prefix_in};

use crate::parts::{Part, attribute_part, entity_part, sixteen, value_in_50, value_in_64};
use fb_values::{Datom, Order};

/// The first bits of a datom's key in an order. Of two that differ the lesser one is of the lesser datom; equal ones tell
/// nothing.
#[derive(Clone, Copy, PartialEq, Eq, Debug)]
pub struct Prefix {
    pub high: u64,
    pub low: u64,
}

impl Prefix {
    pub fn is_below(&self, other: &Prefix) -> bool
        ensures { result ≡ is_lesser self.now other.now }
    {
        self.high < other.high || self.high == other.high && self.low < other.low
    }
}

pub fn prefix_of(order: Order, d: &Datom) -> Prefix
    ensures { result ≡ prefix_in order d.now }
{
    match order {
        Order::Eavt => entity_first(d),
        Order::Aevt => attribute_first(d),
        Order::Avet => attribute_and_value(d),
        Order::Vaet => value_first(d),
    }
}

fn entity_first(d: &Datom) -> Prefix
    ensures { result ≡ prefix_in Order.Eavt d.now }
{
    let rest = pair(attribute_part(d.a), value_in_64(&d.v));
    put(1 << 14, entity_part(d.e), rest)
}

fn attribute_first(d: &Datom) -> Prefix
    ensures { result ≡ prefix_in Order.Aevt d.now }
{
    let rest = pair(entity_part(d.e), value_in_64(&d.v));
    put(1 << 48, attribute_part(d.a), rest)
}

fn attribute_and_value(d: &Datom) -> Prefix
    ensures { result ≡ prefix_in Order.Avet d.now }
{
    put(1 << 50, attribute_part(d.a), value_and_entity(d))
}

fn value_first(d: &Datom) -> Prefix
    ensures { result ≡ prefix_in Order.Vaet d.now }
{
    let entity = Part {
        n: d.e,
        is_whole: true,
    };
    let value = value_in_50(&d.v, sixteen(&d.v));
    put(1 << 14, value, pair(attribute_part(d.a), entity))
}

fn value_and_entity(d: &Datom) -> Prefix
    ensures { result ≡ model_value_and_entity d.now }
{
    let bytes = sixteen(&d.v);
    let value = value_in_50(&d.v, bytes);
    Prefix {
        high: value.n,
        low: behind_value(value, bytes, d.e),
    }
}

pub fn behind_value(value: Part, bytes: Option<u128>, e: u64) -> u64
    ensures { result ≡ model_behind_value value bytes e }
{
    match bytes {
        Some(bytes) => (bytes >> 18 & u128::from(u64::MAX)) as u64,
        None if value.is_whole => e,
        None => 0,
    }
}

pub fn pair(p: Part, q: Part) -> Prefix
    ensures { result ≡ model_pair p q }
{
    Prefix {
        high: p.n,
        low: if p.is_whole { q.n } else { 0 },
    }
}

pub fn put(room: u64, p: Part, rest: Prefix) -> Prefix
    requires fits { p.n * room + room ≤ 2 ^ 64 }
    requires room { rest.high < room }
    ensures { result ≡ model_put room p rest }
{
    if p.is_whole {
        Prefix {
            high: p.n * room + rest.high,
            low: rest.low,
        }
    } else {
        Prefix {
            high: p.n * room,
            low: 0,
        }
    }
}
