//! The rows of the entities whose first value can be in a range, read without the others.
ghost use Rattle.std.specs.Prelude.{◌≡◌, ◌↔◌, ℕ, ◌++◌, IfOk, map, true, false, IsTrue, List, Contains, All, Some, None};
ghost use Rattle.std.specs.Option.{option_map};
ghost use Rattle.std.specs.List.Sorted.{IsStrictlyIncreasing};
ghost use Rattle.fb_values.specs.declared.facts.Datom.{Datom as TheDatom};
ghost use Rattle.fb_values.specs.declared.indexes.Order.TheVariants.{Avet, Eavt};
ghost use Rattle.fb_model.specs.Facts.{facts};
ghost use Rattle.fb_model.specs.Schema.{covers as model_covers};
ghost use Rattle.view_model.specs.Scan.{IsScan, leading};
ghost use Rattle.fb_db.specs.Seen.{window_of};
ghost use Rattle.tuple_model.specs.Seen.{IsMember, AreMembers};
ghost use Rattle.fb_tuples.specs.Lent.{model_row, tuple_lent, datoms_lent};
ghost use Rattle.fb_tuples.specs.Reached.{is_reached, HasReached, HasReachedRows, about, valued, first_value as model_first_value};

use crate::rows::{LentRow, entities_in, under};
use fb_db::Db;
use fb_memory::Memory;
use fb_preds::Selector;
use fb_scan::lent::{Bounds, datoms, index_range};
use fb_schema::schemas_tell_of_attributes;
use fb_values::{Datom, Order, Probe, Value};
use std::alloc::Global;

/// The values from the least to the greatest, both included, or from the least on where no greatest is given.
#[derive(Clone, Copy)]
pub struct Reach<'v> {
    pub least: &'v Value,
    pub greatest: Option<&'v Value>,
}

impl Reach<'_> {
    fn has(self, v: &Value) -> bool
        ensures { result
            ≡ is_reached self.entry.least.now (option_map (λ w. w.now) self.entry.greatest) v.now }
    {
        if v < self.least {
            return false;
        }
        match self.greatest {
            Some(greatest) => v <= greatest,
            None => true,
        }
    }
}

/// A row for each entity that has a value of the attribute within the reach.
pub fn reached_rows<'a, S: Selector>(
    alloc: Global,
    db: &'a Db<S>,
    attrs: &[u64],
    a: u64,
    reach: Reach<'_>,
) -> Result<Vec<LentRow<'a>>, Memory>
    requires { db.now.history ≡ false }
    ensures { IfOk result (λ rows. HasReachedRows db.now.snapshot.entries (window_of db.now)
        (S.selects db.now.filter) attrs.now a reach.entry.least.now
        (option_map (λ v. v.now) reach.entry.greatest) (map model_row rows.items)) }
{
    let found = reached(alloc, db, a, reach)?;
    let entities = entities_in(alloc, &found)?;
    rows_at(alloc, db, attrs, &entities)
}

// ---- the datoms within the reach

/// At least the attribute's datoms whose value is within the reach.
fn reached<'a, S: Selector>(
    alloc: Global,
    db: &'a Db<S>,
    a: u64,
    reach: Reach<'_>,
) -> Result<Vec<&'a Datom>, Memory>
    ensures { IfOk result (λ ds. HasReached db.now.snapshot.entries (window_of db.now)
        (S.selects db.now.filter) a reach.entry.least.now (option_map (λ v. v.now) reach.entry.greatest)
        (datoms_lent ds.items)) }
{
    if is_held_by_value(db, a) {
        by_value(alloc, db, a, reach)
    } else {
        by_entity(alloc, db, a, reach)
    }
}

/// Whether AVET holds the attribute.
fn is_held_by_value<S: Selector>(db: &Db<S>, a: u64) -> bool
    ensures { result ≡ model_covers (facts db.now.snapshot.entries) Avet a }
{
    schemas_tell_of_attributes();
    db.snapshot.schema().covers().holds(Order::Avet, a)
}

fn by_value<'a, S: Selector>(
    alloc: Global,
    db: &'a Db<S>,
    a: u64,
    reach: Reach<'_>,
) -> Result<Vec<&'a Datom>, Memory>
    requires { model_covers (facts db.now.snapshot.entries) Avet a ≡ true }
    ensures { IfOk result (λ ds. HasReached db.now.snapshot.entries (window_of db.now)
        (S.selects db.now.filter) a reach.entry.least.now (option_map (λ v. v.now) reach.entry.greatest)
        (datoms_lent ds.items)) }
{
    match reach.greatest {
        Some(greatest) => upto(alloc, db, a, reach.least, greatest),
        None => from(alloc, db, a, reach.least),
    }
}

/// The datoms whose value is not below this one.
fn from<'a, S: Selector>(
    alloc: Global,
    db: &'a Db<S>,
    a: u64,
    least: &Value,
) -> Result<Vec<&'a Datom>, Memory>
    requires { model_covers (facts db.now.snapshot.entries) Avet a ≡ true }
    ensures { IfOk result (λ ds. HasReached db.now.snapshot.entries (window_of db.now)
        (S.selects db.now.filter) a least.now None (datoms_lent ds.items)) }
{
    let start = least.copy()?;
    let bounds = Bounds {
        start: Some(start),
        end: None,
    };
    index_range(alloc, db, a, bounds)
}

/// The datoms with a value from the least one to the greatest.
fn upto<'a, S: Selector>(
    alloc: Global,
    db: &'a Db<S>,
    a: u64,
    least: &Value,
    greatest: &Value,
) -> Result<Vec<&'a Datom>, Memory>
    requires { model_covers (facts db.now.snapshot.entries) Avet a ≡ true }
    ensures { IfOk result (λ ds. HasReached db.now.snapshot.entries (window_of db.now)
        (S.selects db.now.filter) a least.now (Some greatest.now) (datoms_lent ds.items)) }
{
    let start = least.copy()?;
    let end = greatest.copy()?;
    let bounds = Bounds {
        start: Some(start),
        end: Some(end),
    };
    let mut found = index_range(alloc, db, a, bounds)?;
    let last = with_value(alloc, db, a, greatest)?;
    found.extend_from_slice(&last)?;
    Ok(found)
}

fn with_value<'a, S: Selector>(
    alloc: Global,
    db: &'a Db<S>,
    a: u64,
    v: &Value,
) -> Result<Vec<&'a Datom>, Memory>
    ensures { IfOk result (λ ds. IsScan db.now.snapshot.entries (window_of db.now)
        (S.selects db.now.filter) Avet (leading (valued a v.now)) (datoms_lent ds.items)) }
{
    let probe = Probe {
        order: Order::Avet,
        e: None,
        a: Some(a),
        v: Some(v.copy()?),
        t: None,
    };
    datoms(alloc, db, &probe)
}

/// Where AVET does not hold the attribute, all its datoms are walked.
fn by_entity<'a, S: Selector>(
    alloc: Global,
    db: &'a Db<S>,
    a: u64,
    reach: Reach<'_>,
) -> Result<Vec<&'a Datom>, Memory>
    ensures { IfOk result (λ ds. HasReached db.now.snapshot.entries (window_of db.now)
        (S.selects db.now.filter) a reach.entry.least.now (option_map (λ v. v.now) reach.entry.greatest)
        (datoms_lent ds.items)) }
{
    let mut found = under(alloc, db, a)?;
    found.retain(|d| reach.has(&d.v));
    Ok(found)
}

// ---- the rows of some entities

/// A row for each of the entities.
fn rows_at<'a, S: Selector>(
    alloc: Global,
    db: &'a Db<S>,
    attrs: &[u64],
    entities: &[u64],
) -> Result<Vec<LentRow<'a>>, Memory>
    requires { db.now.history ≡ false }
    ensures entities { IfOk result (λ rows. map (λ row. row.e) rows.items ≡ entities.now) }
    ensures members { IfOk result (λ rows. All (λ row. AreMembers db.now.snapshot.entries
        (window_of db.now) (S.selects db.now.filter) row.e attrs.now (tuple_lent row.tuple.items))
        rows.items) }
{
    let mut rows = Vec::with_capacity(alloc, entities.len())?;
    for e in entities {
        let tuple = tuple_at(alloc, db, attrs, *e)?;
        rows.push(LentRow { tuple, e: *e })?;
    }
    Ok(rows)
}

fn tuple_at<'a, S: Selector>(
    alloc: Global,
    db: &'a Db<S>,
    attrs: &[u64],
    e: u64,
) -> Result<Vec<Option<&'a Value>>, Memory>
    requires { db.now.history ≡ false }
    ensures { IfOk result (λ tuple. AreMembers db.now.snapshot.entries (window_of db.now)
        (S.selects db.now.filter) e attrs.now (tuple_lent tuple.items)) }
{
    let mut tuple = Vec::with_capacity(alloc, attrs.len())?;
    for a in attrs {
        let member = member_at(alloc, db, e, *a)?;
        tuple.push(member)?;
    }
    Ok(tuple)
}

/// The least value of the entity under the attribute.
fn member_at<'a, S: Selector>(
    alloc: Global,
    db: &'a Db<S>,
    e: u64,
    a: u64,
) -> Result<Option<&'a Value>, Memory>
    requires { db.now.history ≡ false }
    ensures { IfOk result (λ member. IsMember db.now.snapshot.entries (window_of db.now)
        (S.selects db.now.filter) e a (option_map (λ v. v.now) member)) }
{
    let probe = Probe {
        order: Order::Eavt,
        e: Some(e),
        a: Some(a),
        v: None,
        t: None,
    };
    let found = datoms(alloc, db, &probe)?;
    Ok(first_value(&found))
}

fn first_value<'a>(ds: &[&'a Datom]) -> Option<&'a Value>
    ensures { option_map (λ v. v.now) result ≡ model_first_value (datoms_lent ds.now) }
{
    match ds {
        [d, ..] => Some(&d.v),
        [] => None,
    }
}
