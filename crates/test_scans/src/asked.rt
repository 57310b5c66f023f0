//! What drawn transactions ask for, and what a plain fold over all of it leaves to each entity.
use anyhow::Result;
use fb_values::Value;
use std::alloc::Global;
use test_data::Dice;

/// The attributes of composites are the first user entities, and AVET holds the second one.
pub(crate) const FIRST: u64 = 17_592_186_044_417;

/// The attribute of several values.
pub(crate) const MANY: u64 = FIRST + 3;

pub(crate) const SCHEMA: &str = "[
    {:db/ident :n/a :db/valueType :db.type/long :db/cardinality :db.cardinality/one}
    {:db/ident :n/b :db/valueType :db.type/long :db/cardinality :db.cardinality/one :db/index true}
    {:db/ident :n/c :db/valueType :db.type/long :db/cardinality :db.cardinality/one}
    {:db/ident :n/many :db/valueType :db.type/long :db/cardinality :db.cardinality/many}]";

/// Entities that have no value of a composite's attribute yet.
pub(crate) const ENTITIES: &str =
    "[{:n/many 0} {:n/many 0} {:n/many 0} {:n/many 0} {:n/many 0} {:n/many 0}]";

const FIRST_ENTITY: u64 = FIRST + 4;

const ENTITIES_MADE: u64 = 6;

#[derive(Clone, Copy)]
struct Attr {
    id: u64,
    name: &'static str,
}

const ATTRS: [Attr; 3] = [
    Attr {
        id: FIRST,
        name: ":n/a",
    },
    Attr {
        id: FIRST + 1,
        name: ":n/b",
    },
    Attr {
        id: FIRST + 2,
        name: ":n/c",
    },
];

/// An entity gets a value of an attribute, or loses it.
#[derive(Clone, Copy)]
pub(crate) struct Ask {
    t: u32,
    e: u64,
    attr: Attr,
    value: i64,
    is_added: bool,
}

impl Ask {
    fn drawn(dice: &mut Dice, t: u32, e: u64) -> Ask {
        Ask {
            t,
            e,
            attr: ATTRS[dice.roll(3) as usize],
            value: dice.roll(4) as i64,
            is_added: !dice.once_in(4),
        }
    }

    fn text(&self, alloc: Global) -> Result<String> {
        let verb = if self.is_added {
            ":db/add"
        } else {
            ":db/retract"
        };
        Ok(format!(in alloc; "[{verb} {} {} {}]", self.e, self.attr.name, self.value)?)
    }

    /// What the entity has of the attribute when it had this before.
    fn after(&self, held: Option<i64>) -> Option<i64> {
        if self.is_added {
            Some(self.value)
        } else {
            held.filter(|value| *value != self.value)
        }
    }
}

/// What is asked for in the transaction with this t, of two entities.
pub(crate) fn drawn(dice: &mut Dice, t: u32) -> [Ask; 2] {
    let first = dice.roll(ENTITIES_MADE);
    let second = (first + 1 + dice.roll(ENTITIES_MADE - 1)) % ENTITIES_MADE;
    [
        Ask::drawn(dice, t, FIRST_ENTITY + first),
        Ask::drawn(dice, t, FIRST_ENTITY + second),
    ]
}

pub(crate) fn transaction(alloc: Global, asks: &[Ask; 2]) -> Result<String> {
    let first = asks[0].text(alloc)?;
    let second = asks[1].text(alloc)?;
    Ok(format!(in alloc; "[{first} {second}]")?)
}

// ---- the fold

/// An entity with its value of each attribute, or none.
#[derive(PartialEq, Eq, PartialOrd, Ord, Drop)]
pub(crate) struct PlainRow {
    pub(crate) tuple: Vec<Option<Value>>,
    pub(crate) e: u64,
}

/// The rows of all entities that have a value of one of the attributes before the end, in order.
pub(crate) fn rows_before(
    alloc: Global,
    asks: &[Ask],
    end: u32,
    attrs: &[u64],
) -> Result<Vec<PlainRow>> {
    let mut rows = Vec::new(alloc);
    for nth in 0..ENTITIES_MADE {
        let e = FIRST_ENTITY + nth;
        let tuple = tuple_before(alloc, asks, end, attrs, e)?;
        if tuple.iter().any(|member| member.is_some()) {
            rows.push(PlainRow { tuple, e })?;
        }
    }
    rows.sort_unstable();
    Ok(rows)
}

fn tuple_before(
    alloc: Global,
    asks: &[Ask],
    end: u32,
    attrs: &[u64],
    e: u64,
) -> Result<Vec<Option<Value>>> {
    let mut tuple = Vec::new(alloc);
    for a in attrs {
        tuple.push(value_before(asks, end, e, *a).map(Value::Long))?;
    }
    Ok(tuple)
}

fn value_before(asks: &[Ask], end: u32, e: u64, a: u64) -> Option<i64> {
    let mut held = None;
    for ask in asks {
        if ask.t < end && ask.e == e && ask.attr.id == a {
            held = ask.after(held);
        }
    }
    held
}
