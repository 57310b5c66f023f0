//! Questions to a database value.
use super::database::Database;
use crate::common::Draws;
use anyhow::Result;
use fb_facts::Facts;
use fb_values::Value;

/// The first attribute is that of the numbers.
const NUM: u64 = 17_592_186_044_417;

/// The entity whose number is 0.
const FIRST: u64 = 17_592_186_044_419;

fn entity_of(n: u32) -> u64 {
    FIRST + u64::from(n)
}

fn number(n: u32) -> Value {
    Value::Long(i64::from(n))
}

/// Takes the value so often.
pub(crate) fn shares(database: &Database, count: u32) -> Result<u32> {
    let mut taken: u32 = 0;
    for _ in 0..count {
        let _copy = database.snapshot().share()?;
        taken = taken.saturating_add(1);
    }
    Ok(taken)
}

/// How many of so many entities have their number.
pub(crate) fn held(database: &Database, count: u32) -> u32 {
    let snapshot = database.snapshot();
    let mut draws = Draws::below(database.entities());
    let mut found: u32 = 0;
    for _ in 0..count {
        let n = draws.next();
        if snapshot.holds(entity_of(n), NUM, &number(n)) {
            found = found.saturating_add(1);
        }
    }
    found
}

/// How many of so many numbers have their entity.
pub(crate) fn holders(database: &Database, count: u32) -> u32 {
    let snapshot = database.snapshot();
    let mut draws = Draws::below(database.entities());
    let mut found: u32 = 0;
    for _ in 0..count {
        let n = draws.next();
        if snapshot.holder(NUM, &number(n)) == Some(entity_of(n)) {
            found = found.saturating_add(1);
        }
    }
    found
}

/// How many of so many entities have one number.
pub(crate) fn valued(database: &Database, count: u32) -> Result<u32> {
    let snapshot = database.snapshot();
    let mut draws = Draws::below(database.entities());
    let mut found: u32 = 0;
    for _ in 0..count {
        let values = snapshot.values_of(entity_of(draws.next()), NUM)?;
        if values.len() == 1 {
            found = found.saturating_add(1);
        }
    }
    Ok(found)
}
