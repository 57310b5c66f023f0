//! What holds after entries that add and retract the same triples, written down by hand.
use fb_facts::Facts;
use fb_memory::Memory;
use fb_values::{Datom, Datoms, Entry, Value};
use held_facts::Held;
use std::alloc::Global;
use std::test::Fail;

/// Two user entities, and two attributes.
const ANN: u64 = 17_592_186_044_417;

const BOB: u64 = 17_592_186_044_418;

const LUCKY: u64 = 100;

const FRIEND: u64 = 101;

/// An entity, a lucky number of it, and whether that is added.
type FormCodes = (u64, i64, bool);

/// The entries from t 1 on. Bob is also Ann's friend from t 1 on, and no longer from t 2 on.
const ENTRIES: &[&[FormCodes]; 3] = &[
    &[(ANN, 7, true), (ANN, 5, true), (BOB, 5, true)],
    &[(ANN, 5, false), (ANN, 7, true)],
    &[(ANN, 5, true), (ANN, 7, false), (BOB, 6, false)],
];

/// What is answered after so many entries: Ann's lucky numbers, the holder of 5, the entity and the t of each lucky number, and Ann's
/// facts and those that refer to Bob by their attributes.
struct Row {
    count: usize,
    values: &'static [i64],
    holder: Option<u64>,
    under: &'static [(u64, u32)],
    of_ann: &'static [u64],
    to_bob: &'static [u64],
}

const ROWS: &[Row] = &[
    Row {
        count: 1,
        values: &[5, 7],
        holder: Some(ANN),
        under: &[(ANN, 1), (ANN, 1), (BOB, 1)],
        of_ann: &[LUCKY, LUCKY, FRIEND],
        to_bob: &[FRIEND],
    },
    Row {
        count: 2,
        values: &[7],
        holder: Some(BOB),
        under: &[(ANN, 2), (BOB, 1)],
        of_ann: &[LUCKY],
        to_bob: &[],
    },
    Row {
        count: 3,
        values: &[5],
        holder: Some(ANN),
        under: &[(ANN, 3), (BOB, 1)],
        of_ann: &[LUCKY],
        to_bob: &[],
    },
];

fn entry(alloc: Global, t: u32, said: &[FormCodes]) -> Result<Entry, Memory> {
    let mut datoms = vec![in alloc; datom(ANN, FRIEND, Value::Ref(BOB), t, t == 1)]?;
    for (e, n, added) in said {
        datoms.push(datom(*e, LUCKY, Value::Long(*n), t, *added))?;
    }
    Ok(Entry {
        t,
        instant: i64::from(t),
        datoms: Datoms::of(datoms),
    })
}

fn datom(e: u64, a: u64, v: Value, t: u32, added: bool) -> Datom {
    Datom { e, a, v, t, added }
}

/// The history of the first entries.
fn after(alloc: Global, count: usize) -> Result<Held, Memory> {
    let one = Held::first(alloc)?.add(entry(alloc, 1, ENTRIES[0])?)?;
    if count == 1 {
        return Ok(one);
    }
    let two = one.add(entry(alloc, 2, ENTRIES[1])?)?;
    if count == 2 {
        return Ok(two);
    }
    two.add(entry(alloc, 3, ENTRIES[2])?)
}

/// What is answered of the facts, by the columns of a row.
#[derive(Drop)]
struct Columns {
    values: Vec<i64>,
    holder: Option<u64>,
    under: Vec<(u64, u32)>,
    of_ann: Vec<u64>,
    to_bob: Vec<u64>,
}

fn told(alloc: Global, held: &Held) -> Result<Columns, Memory> {
    Ok(Columns {
        values: values(alloc, held)?,
        holder: held.holder(LUCKY, &Value::Long(5)),
        under: under(alloc, held)?,
        of_ann: attributes(alloc, held.facts_of(ANN)?)?,
        to_bob: attributes(alloc, held.refs_to(BOB)?)?,
    })
}

fn values(alloc: Global, held: &Held) -> Result<Vec<i64>, Memory> {
    let mut numbers = Vec::new(alloc);
    for v in &held.values_of(ANN, LUCKY)? {
        if let Value::Long(n) = v {
            numbers.push(*n)?;
        }
    }
    Ok(numbers)
}

fn under(alloc: Global, held: &Held) -> Result<Vec<(u64, u32)>, Memory> {
    let facts = held.facts_under(LUCKY)?;
    Ok(facts.as_slice().iter().map(|d| (d.e, d.t)).collect(alloc)?)
}

fn attributes(alloc: Global, facts: Datoms) -> Result<Vec<u64>, Memory> {
    Ok(facts.as_slice().iter().map(|d| d.a).collect(alloc)?)
}

/// Whether the facts are answered as the row says.
fn has_columns(alloc: Global, held: &Held, row: &Row) -> Result<bool, Memory> {
    let told = told(alloc, held)?;
    Ok(
        told.values.as_slice() == row.values
            && told.holder == row.holder
            && told.under.as_slice() == row.under
            && told.of_ann.as_slice() == row.of_ann
            && told.to_bob.as_slice() == row.to_bob,
    )
}

fn is_told(alloc: Global, row: &Row) -> Result<bool, Memory> {
    let held = after(alloc, row.count)?;
    has_columns(alloc, &held, row)
}

#[test]
fn what_holds_follows_the_entries(rt: HostRuntime) -> Result<(), Fail> {
    for row in ROWS {
        let is_told = is_told(rt.alloc(), row)?;
        assert!(rt; is_told, "after {} entries", row.count);
    }
    Ok(())
}
