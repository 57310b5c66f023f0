//! The rows of a composite, lent by the database value that they are read from.
ghost use Rattle.std.specs.Prelude.{◌≡◌, ◌↔◌, ℕ, ◌++◌, IfOk, map, false, Contains, All, Option};
ghost use Rattle.std.specs.Option.{option_map};
ghost use Rattle.std.specs.List.Sorted.{IsStrictlyIncreasing, IsNonDecreasingBy};
ghost use Rattle.fb_values.specs.declared.indexes.Order.TheVariants.{Aevt};
ghost use Rattle.view_model.specs.Scan.{IsScan, leading};
ghost use Rattle.fb_db.specs.Seen.{window_of};
ghost use Rattle.tuple_model.specs.Tuples.{Tuple};
ghost use Rattle.fb_tuples.specs.Lent.{model_row, tuple_lent, datoms_lent, lists_lent};
ghost use Rattle.fb_tuples.specs.Reached.{HasRange};
ghost use Rattle.fb_tuples.specs.Gathered.{under, AreLists, AreByEntity, IsByEntity, entities_in as model_entities_in, first_of as model_first_of, row_in};

use fb_db::Db;
use fb_memory::Memory;
use fb_preds::Selector;
use fb_scan::lent::datoms;
use fb_values::{Datom, Order, Probe, Value};
use std::alloc::Global;

/// An entity with a value of each attribute, or none.
#[derive(PartialEq, Eq, PartialOrd, Ord, Drop)]
pub struct LentRow<'a> {
    pub tuple: Vec<Option<&'a Value>>,
    pub e: u64,
}

/// The rows of all entities that have a value of one of the attributes, by their entities.
pub(crate) fn all_rows<'a, S: Selector>(
    alloc: Global,
    db: &'a Db<S>,
    attrs: &[u64],
) -> Result<Vec<LentRow<'a>>, Memory>
    requires { db.now.history ≡ false }
    ensures { IfOk result (λ rows. (start end : Option Tuple)
        → HasRange db.now.snapshot.entries (window_of db.now) (S.selects db.now.filter) attrs.now
        start end (map model_row rows.items)) }
{
    let lists = lists_of(alloc, db, attrs)?;
    let entities = entities_of(alloc, &lists)?;
    rows_of(alloc, &lists, &entities)
}

/// The datoms of each attribute, by their entities.
fn lists_of<'a, S: Selector>(
    alloc: Global,
    db: &'a Db<S>,
    attrs: &[u64],
) -> Result<Vec<Vec<&'a Datom>>, Memory>
    ensures lists { IfOk result (λ lists. AreLists db.now.snapshot.entries (window_of db.now)
        (S.selects db.now.filter) attrs.now (lists_lent lists.items)) }
{
    let mut lists = Vec::new(alloc);
    for a in attrs {
        lists.push(under(alloc, db, *a)?)?;
    }
    Ok(lists)
}

/// The datoms of the attribute.
pub(crate) fn under<'a, S: Selector>(
    alloc: Global,
    db: &'a Db<S>,
    a: u64,
) -> Result<Vec<&'a Datom>, Memory>
    ensures { IfOk result (λ ds. IsScan db.now.snapshot.entries (window_of db.now)
        (S.selects db.now.filter) Aevt (leading (under a)) (datoms_lent ds.items)) }
{
    let probe = Probe {
        order: Order::Aevt,
        e: None,
        a: Some(a),
        v: None,
        t: None,
    };
    datoms(alloc, db, &probe)
}

/// The entities of all these datoms, each once, by their numbers.
fn entities_of(alloc: Global, lists: &[Vec<&Datom>]) -> Result<Vec<u64>, Memory>
    ensures rising { IfOk result (λ entities. IsStrictlyIncreasing entities.items) }
    ensures members { IfOk result (λ entities. (e : ℕ)
        → Contains (model_entities_in (lists_lent lists.now)) e ↔ Contains entities.items e) }
{
    let mut entities = Vec::new(alloc);
    for list in lists {
        push_entities(&mut entities, list)?;
    }
    keep_each_once(&mut entities);
    Ok(entities)
}

/// The entities of these datoms, each once, by their numbers.
pub(crate) fn entities_in(alloc: Global, datoms: &[&Datom]) -> Result<Vec<u64>, Memory>
    ensures rising { IfOk result (λ entities. IsStrictlyIncreasing entities.items) }
    ensures members { IfOk result (λ entities. (e : ℕ)
        → Contains (map (λ d. d.e) (datoms_lent datoms.now)) e ↔ Contains entities.items e) }
{
    let mut entities = Vec::with_capacity(alloc, datoms.len())?;
    push_entities(&mut entities, datoms)?;
    keep_each_once(&mut entities);
    Ok(entities)
}

fn push_entities(entities: &mut Vec<u64>, list: &[&Datom]) -> Result<(), Memory>
    ensures { IfOk result (λ _. entities.new.items
        ≡ entities.old.items ++ map (λ d. d.e) (datoms_lent list.now)) }
{
    for d in list {
        entities.push(d.e)?;
    }
    Ok(())
}

pub(crate) fn keep_each_once(numbers: &mut Vec<u64>)
    ensures rising { IsStrictlyIncreasing numbers.new.items }
    ensures members { (n : ℕ) → Contains numbers.old.items n ↔ Contains numbers.new.items n }
{
    numbers.sort_unstable();
    numbers.dedup();
}

/// A row for each of the entities.
fn rows_of<'a>(
    alloc: Global,
    lists: &[Vec<&'a Datom>],
    entities: &[u64],
) -> Result<Vec<LentRow<'a>>, Memory>
    requires { All IsByEntity lists.now }
    ensures { IfOk result (λ rows. map model_row rows.items
        ≡ map (row_in (lists_lent lists.now)) entities.now) }
{
    let mut rows = Vec::with_capacity(alloc, entities.len())?;
    for e in entities {
        let tuple = tuple_of(alloc, lists, *e)?;
        rows.push(LentRow { tuple, e: *e })?;
    }
    Ok(rows)
}

/// The first value of the entity in each list.
fn tuple_of<'a>(
    alloc: Global,
    lists: &[Vec<&'a Datom>],
    e: u64,
) -> Result<Vec<Option<&'a Value>>, Memory>
    requires { All IsByEntity lists.now }
    ensures { IfOk result (λ tuple. tuple_lent tuple.items
        ≡ map (model_first_of e) (lists_lent lists.now)) }
{
    let mut tuple = Vec::with_capacity(alloc, lists.len())?;
    for list in lists {
        tuple.push(first_of(list, e))?;
    }
    Ok(tuple)
}

/// The first value of the entity, found by a search.
fn first_of<'a>(list: &[&'a Datom], e: u64) -> Option<&'a Value>
    requires { AreByEntity (datoms_lent list.now) }
    ensures { option_map (λ v. v.now) result ≡ model_first_of e (datoms_lent list.now) }
{
    let place = list.partition_point(|d| d.e < e);
    let d = *list.get(place)?;
    if d.e == e { Some(&d.v) } else { None }
}
