//! Prefixes of drawn datoms, whose parts lie at the ends of what a prefix holds. That they are in the order, and lead where a probe
//! does, is what the contracts say of all datoms.
use fb_memory::Memory;
use fb_numbers::USER_ENTITIES;
use fb_prefix::{prefix_of, sought_by};
use fb_text::Text;
use fb_values::{Datom, Order, Probe, Value, cmp_in, cmp_probe};
use std::alloc::Global;
use std::cmp::Ordering;
use std::test::Fail;

const ORDERS: [Order; 4] = [Order::Eavt, Order::Aevt, Order::Avet, Order::Vaet];

const ENTITIES: [u64; 6] = [0, 7, (1 << 48) - 2, (1 << 48) - 1, 1 << 48, u64::MAX];

const ATTRIBUTES: [u64; 8] = [
    0,
    1023,
    1024,
    USER_ENTITIES - 1,
    USER_ENTITIES,
    USER_ENTITIES + 15_357,
    USER_ENTITIES + 15_358,
    u64::MAX,
];

const NUMBERS: [i64; 9] = [
    i64::MIN,
    -(1 << 59),
    -(1 << 45),
    -1,
    0,
    (1 << 45) - 1,
    1 << 45,
    1 << 59,
    i64::MAX,
];

/// Some of them end where the first sixteen bytes do, or differ behind them.
const TEXTS: [&str; 8] = [
    "",
    "a",
    "a\u{0}",
    "abcdefghijklm",
    "abcdefghijklmnop",
    "abcdefghijklmnopq",
    "abcdefghijklmnoq",
    "é",
];

/// Numbers that look drawn, the same in each run.
#[derive(Drop)]
struct Draws(u64);

impl Draws {
    fn next(&mut self) -> usize {
        self.0 = self
            .0
            .wrapping_mul(6_364_136_223_846_793_005)
            .wrapping_add(1_442_695_040_888_963_407);
        (self.0 >> 33) as usize
    }

    fn number(&mut self) -> i64 {
        NUMBERS[self.next() % NUMBERS.len()]
    }

    fn text(&mut self, alloc: Global) -> Result<Text, Memory> {
        Text::of(alloc, TEXTS[self.next() % TEXTS.len()])
    }

    fn value(&mut self, alloc: Global) -> Result<Value, Memory> {
        match self.next() % 9 {
            0 => Ok(Value::Keyword(self.text(alloc)?)),
            1 => Ok(Value::Str(self.text(alloc)?)),
            2 => Ok(Value::Bool(self.next() % 2 == 0)),
            3 => Ok(Value::Long(self.number())),
            4 => Ok(Value::Ref(ENTITIES[self.next() % ENTITIES.len()])),
            5 => Ok(Value::Instant(self.number())),
            6 => Ok(Value::Uuid((self.next() as u128) << 90)),
            7 => Ok(Value::Symbol(self.text(alloc)?)),
            _ => Ok(Value::Uri(self.text(alloc)?)),
        }
    }

    fn datom(&mut self, alloc: Global) -> Result<Datom, Memory> {
        let v = self.value(alloc)?;
        Ok(Datom {
            e: ENTITIES[self.next() % ENTITIES.len()],
            a: ATTRIBUTES[self.next() % ATTRIBUTES.len()],
            v,
            t: 1,
            added: true,
        })
    }
}

fn datoms(alloc: Global, count: usize) -> Result<Vec<Datom>, Memory> {
    let mut draws = Draws(1);
    let mut all = Vec::new(alloc);
    for _ in 0..count {
        all.push(draws.datom(alloc)?)?;
    }
    Ok(all)
}

/// The probe of a datom's first components in the order, so many of them.
fn probe(order: Order, d: &Datom, given: usize) -> Result<Probe, Memory> {
    let (e, a, v) = match order {
        Order::Eavt => (0, 1, 2),
        Order::Aevt => (1, 0, 2),
        Order::Avet => (2, 0, 1),
        Order::Vaet => (2, 1, 0),
    };
    Ok(Probe {
        order,
        e: if e < given { Some(d.e) } else { None },
        a: if a < given { Some(d.a) } else { None },
        v: if v < given { Some(d.v.copy()?) } else { None },
        t: if 3 < given { Some(d.t) } else { None },
    })
}

/// How many of the datoms a prefix tells from the first one wrongly.
fn disordered(order: Order, x: &Datom, all: &[Datom]) -> usize {
    let prefix = prefix_of(order, x);
    all.iter()
        .filter(|y| prefix.is_below(&prefix_of(order, y)) && cmp_in(order, x, y) != Ordering::Less)
        .count()
}

/// How many of the datoms a probe's prefix places wrongly.
fn misplaced(probe: &Probe, all: &[Datom]) -> usize {
    let sought = sought_by(probe);
    all.iter()
        .filter(|d| {
            let prefix = prefix_of(probe.order, d);
            let is_below = cmp_probe(probe, d) == Ordering::Greater;
            if prefix.is_below(&sought.from) {
                !is_below
            } else {
                is_below && (sought.is_whole || sought.from.is_below(&prefix))
            }
        })
        .count()
}

#[test]
fn prefixes_are_in_the_order(rt: HostRuntime) -> Result<(), Fail> {
    let all = datoms(rt.alloc(), 300)?;
    for order in ORDERS {
        for x in all.iter() {
            assert_eq!(rt; disordered(order, x, &all), 0);
        }
    }
    Ok(())
}

#[test]
fn probes_lead_to_their_place(rt: HostRuntime) -> Result<(), Fail> {
    let all = datoms(rt.alloc(), 150)?;
    for order in ORDERS {
        for x in all.iter() {
            for given in 0..5 {
                assert_eq!(rt; misplaced(&probe(order, x, given)?, &all), 0);
            }
        }
    }
    Ok(())
}
