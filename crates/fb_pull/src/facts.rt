//! What a pull reads of an entity: its values under an attribute, and the entities that refer to it by one. Each is one search of an
//! index, unless the entity's datoms are at hand, and no more is read than is asked for.
ghost use Rattle.std.specs.Prelude.{◌≡◌, List, [], ◌∷◌, ◌++◌, map, take, filter, filter_map, nat_eq, true, IfOk, Some, None};
ghost use Rattle.std.specs.List.{slice_get};
ghost use Rattle.std.specs.Option.{option_copied, option_map};
ghost use Rattle.edn_form.specs.View.{form_of, forms_of};
ghost use Rattle.edn_values.specs.Values.{form_of_value};
ghost use Rattle.fb_values.specs.declared.indexes.Order.TheVariants.{Eavt, Vaet};
ghost use Rattle.fb_model.specs.Facts.{facts as facts_of, values_of};
ghost use Rattle.fb_model.specs.Schema.{is_about, is_ref, entity_in, covers};
ghost use Rattle.pull_model.specs.Found as model;
ghost use Rattle.fb_pull.specs.Finding.{upto};
ghost use Rattle.fb_pull.specs.Near.{IsNear, lent};
ghost use Rattle.fb_pull.specs.Views.{Sees};

use crate::near::Near;
use edn_form::Edn;
use edn_values::as_edn;
use fb_db::Db;
use fb_memory::Memory;
use fb_preds::Selector;
use fb_scan::first_row;
use fb_scan::lent::{datoms, first};
use fb_values::{Datom, Order, Probe, Value};
use std::alloc::Global;

/// The form of the entity's first value under the attribute.
pub fn value<S: Selector>(
    db: &Db<S>,
    near: &Near<'_>,
    e: u64,
    a: u64,
) -> Result<Option<Edn>, Memory>
    requires { IsNear db.now (S.selects db.now.filter) e near.now }
    ensures { (facts : model.Db) → Sees db.now (S.selects db.now.filter) facts
        → IfOk result (λ form. option_map form_of form
        ≡ option_map form_of_value (slice_get (values_of facts.seen e a) 0)) }
{
    match first_under(db, near, e, a) {
        Some(d) => Ok(Some(as_edn(&d.v)?)),
        None => Ok(None),
    }
}

/// The entity's first datom under the attribute.
fn first_under<'a, S: Selector>(db: &'a Db<S>, near: &Near<'a>, e: u64, a: u64) -> Option<&'a Datom>
    requires { IsNear db.now (S.selects db.now.filter) e near.now }
    ensures { (facts : model.Db) → Sees db.now (S.selects db.now.filter) facts
        → option_copied result ≡ slice_get (filter (is_about e a) facts.seen) 0 }
{
    match near {
        Near::Few(datoms) => first_among(datoms, a),
        Near::Nothing => first_row(db, &probe_under(e, a)),
    }
}

/// The forms of the entity's values under the attribute, at most so many where a number is given.
pub fn values<S: Selector>(
    alloc: Global,
    db: &Db<S>,
    near: &Near<'_>,
    e: u64,
    a: u64,
    most: Option<usize>,
) -> Result<Vec<Edn>, Memory>
    requires { IsNear db.now (S.selects db.now.filter) e near.now }
    ensures { (facts : model.Db) → Sees db.now (S.selects db.now.filter) facts
        → IfOk result (λ list. forms_of list.items
        ≡ map form_of_value (upto most (values_of facts.seen e a))) }
{
    match near {
        Near::Few(datoms) => {
            let most = most.unwrap_or(datoms.len());
            forms_among(alloc, datoms, a, most)
        }
        Near::Nothing => {
            let datoms = datoms_under(alloc, db, e, a, most)?;
            forms(alloc, &datoms)
        }
    }
}

/// The entities that the entity refers to by the attribute, at most so many.
pub fn referred<S: Selector>(
    alloc: Global,
    db: &Db<S>,
    near: &Near<'_>,
    e: u64,
    a: u64,
    most: usize,
) -> Result<Vec<u64>, Memory>
    requires refers { is_ref (facts_of db.now.snapshot.entries) a ≡ true }
    requires near { IsNear db.now (S.selects db.now.filter) e near.now }
    ensures { (facts : model.Db) → Sees db.now (S.selects db.now.filter) facts
        → IfOk result (λ list. list.items
        ≡ take most (filter_map entity_in (values_of facts.seen e a))) }
{
    let _ = db.snapshot.entries();
    match near {
        Near::Few(datoms) => entities_among(alloc, datoms, a, most),
        Near::Nothing => {
            let datoms = datoms_under(alloc, db, e, a, Some(most))?;
            entities(alloc, &datoms)
        }
    }
}

/// The entities that refer to the entity by the attribute, at most so many.
pub fn referring<S: Selector>(
    alloc: Global,
    db: &Db<S>,
    e: u64,
    a: u64,
    most: usize,
) -> Result<Vec<u64>, Memory>
    requires { is_ref (facts_of db.now.snapshot.entries) a ≡ true }
    ensures { (facts : model.Db) → Sees db.now (S.selects db.now.filter) facts
        → IfOk result (λ list. list.items ≡ take most (model.referring facts.seen e a)) }
{
    let probe = Probe {
        order: Order::Vaet,
        e: None,
        a: Some(a),
        v: Some(Value::Ref(e)),
        t: None,
    };
    let datoms = first(alloc, db, &probe, most)?;
    subjects(alloc, &datoms)
}

/// The entity's datoms under the attribute, at most so many where a number is given.
fn datoms_under<'a, S: Selector>(
    alloc: Global,
    db: &'a Db<S>,
    e: u64,
    a: u64,
    most: Option<usize>,
) -> Result<Vec<&'a Datom>, Memory>
    ensures { (facts : model.Db) → Sees db.now (S.selects db.now.filter) facts
        → IfOk result (λ ds. lent ds.items ≡ upto most (filter (is_about e a) facts.seen)) }
{
    let probe = probe_under(e, a);
    match most {
        Some(most) => first(alloc, db, &probe, most),
        None => datoms(alloc, db, &probe),
    }
}

fn probe_under(e: u64, a: u64) -> Probe
    ensures { result ≡ record { order = Eavt; e = Some e; a = Some a; v = None; t = None } }
{
    Probe {
        order: Order::Eavt,
        e: Some(e),
        a: Some(a),
        v: None,
        t: None,
    }
}

/// The first of the datoms that is under the attribute.
fn first_among<'a>(datoms: &[&'a Datom], a: u64) -> Option<&'a Datom>
    ensures { option_copied result
        ≡ slice_get (filter (λ d. nat_eq d.a a) (lent datoms.now)) 0 }
{
    for d in datoms {
        if d.a == a {
            return Some(*d);
        }
    }
    None
}

fn forms(alloc: Global, datoms: &[&Datom]) -> Result<Vec<Edn>, Memory>
    ensures { IfOk result
        (λ list. forms_of list.items ≡ map form_of_value (map (λ d. d.now.v) datoms.now)) }
{
    let mut list = Vec::new(alloc);
    for d in datoms {
        list.push(as_edn(&d.v)?)?;
    }
    Ok(list)
}

/// The entities among the values.
fn entities(alloc: Global, datoms: &[&Datom]) -> Result<Vec<u64>, Memory>
    ensures { IfOk result
        (λ list. list.items ≡ filter_map entity_in (map (λ d. d.now.v) datoms.now)) }
{
    let mut list = Vec::new(alloc);
    for d in datoms {
        if let Value::Ref(n) = &d.v {
            list.push(*n)?;
        }
    }
    Ok(list)
}

/// The forms of the values under the attribute among the datoms, at most so many.
fn forms_among(alloc: Global, datoms: &[&Datom], a: u64, most: usize) -> Result<Vec<Edn>, Memory>
    ensures { IfOk result (λ list. forms_of list.items ≡ map form_of_value
        (map (λ d. d.v) (take most (filter (λ d. nat_eq d.a a) (lent datoms.now))))) }
{
    let mut list = Vec::new(alloc);
    let mut left = most;
    for d in datoms {
        if d.a == a && left > 0 {
            list.push(as_edn(&d.v)?)?;
            left -= 1;
        }
    }
    Ok(list)
}

/// The entities among the values under the attribute, of the first datoms.
fn entities_among(alloc: Global, datoms: &[&Datom], a: u64, most: usize) -> Result<Vec<u64>, Memory>
    ensures { IfOk result (λ list. list.items ≡ filter_map entity_in
        (map (λ d. d.v) (take most (filter (λ d. nat_eq d.a a) (lent datoms.now))))) }
{
    let mut list = Vec::new(alloc);
    let mut left = most;
    for d in datoms {
        if d.a == a && left > 0 {
            push_entity(&mut list, &d.v)?;
            left -= 1;
        }
    }
    Ok(list)
}

/// Adds the entity that the value is, if it is one.
fn push_entity(list: &mut Vec<u64>, v: &Value) -> Result<(), Memory>
    ensures { IfOk result
        (λ _. list.new.items ≡ list.old.items ++ filter_map entity_in (v.now ∷ [])) }
{
    if let Value::Ref(n) = v {
        list.push(*n)?;
    }
    Ok(())
}

/// The entities of which the datoms are.
fn subjects(alloc: Global, datoms: &[&Datom]) -> Result<Vec<u64>, Memory>
    ensures { IfOk result (λ list. list.items ≡ map (λ d. d.now.e) datoms.now) }
{
    let mut list = Vec::new(alloc);
    for d in datoms {
        list.push(d.e)?;
    }
    Ok(list)
}
