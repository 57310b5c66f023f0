//! What a transaction asks to add and to retract, as datoms over entity numbers.
use crate::attributes::is_one;
use crate::components::closed_set;
use crate::db::Db;
use crate::tempids::{Assigned, entity_of};
use fb_memory::Memory;
use fb_values::{Datom, Value};
use plain_asks::{Ask, Name, Operand, value_in};
use plain_reads::Attribute;
use std::alloc::Global;

/// What the forms ask, by kind, form by form.
#[derive(Drop)]
pub struct Asked {
    pub added: Vec<Vec<Datom>>,
    /// As triples.
    pub retracted: Vec<Vec<Datom>>,
    /// The retractions of what is found in the database.
    pub swept: Vec<Vec<Datom>>,
    /// What the additions imply.
    pub replaced: Vec<Vec<Datom>>,
}

impl Asked {
    pub fn of_all_kinds(&self) -> [&[Vec<Datom>]; 4] {
        [&self.added, &self.retracted, &self.swept, &self.replaced]
    }
}

pub fn asked_by(
    alloc: Global,
    db: &Db<'_>,
    names: &[Assigned<'_>],
    forms: &[Vec<Ask<'_>>],
) -> Result<Asked, Memory> {
    let mut asked = Asked {
        added: Vec::new(alloc),
        retracted: Vec::new(alloc),
        swept: Vec::new(alloc),
        replaced: Vec::new(alloc),
    };
    for asks in forms {
        add_form(alloc, &mut asked, db, names, asks)?;
    }
    Ok(asked)
}

/// Adds what a form asks of each kind.
fn add_form(
    alloc: Global,
    asked: &mut Asked,
    db: &Db<'_>,
    names: &[Assigned<'_>],
    asks: &[Ask<'_>],
) -> Result<(), Memory> {
    let added = additions(alloc, db, names, asks)?;
    asked.replaced.push(implied_by(alloc, db, &added)?)?;
    asked.added.push(added)?;
    asked.retracted.push(retractions(alloc, db, names, asks)?)?;
    asked.swept.push(sweeps(alloc, db, names, asks)?)?;
    Ok(())
}

// ---- additions and retractions

fn additions(
    alloc: Global,
    db: &Db<'_>,
    names: &[Assigned<'_>],
    asks: &[Ask<'_>],
) -> Result<Vec<Datom>, Memory> {
    let mut list = Vec::new(alloc);
    for ask in asks {
        if let Ask::Adds(name, Some(attribute), part)
        | Ask::Compares(name, Some(attribute), _, part) = ask
        {
            add_triple(&mut list, db, names, true, name, attribute, part)?;
        }
    }
    Ok(list)
}

fn retractions(
    alloc: Global,
    db: &Db<'_>,
    names: &[Assigned<'_>],
    asks: &[Ask<'_>],
) -> Result<Vec<Datom>, Memory> {
    let mut list = Vec::new(alloc);
    for ask in asks {
        if let Ask::Retracts(name, Some(attribute), part) = ask {
            add_triple(&mut list, db, names, false, name, attribute, part)?;
        }
    }
    Ok(list)
}

/// The datom of an entity, an attribute and a value, where each of them is found.
fn add_triple(
    list: &mut Vec<Datom>,
    db: &Db<'_>,
    names: &[Assigned<'_>],
    added: bool,
    name: &Name<'_>,
    attribute: &Attribute<'_>,
    part: &Operand<'_>,
) -> Result<(), Memory> {
    if let Some(e) = entity_of(db, names, name)? {
        if let Some(v) = value_of_part(db, names, attribute, part)? {
            list.push(change(db, added, e, attribute.id, v))?;
        }
    }
    Ok(())
}

/// The value in a value's place.
pub fn value_of_part(
    db: &Db<'_>,
    names: &[Assigned<'_>],
    attribute: &Attribute<'_>,
    part: &Operand<'_>,
) -> Result<Option<Value>, Memory> {
    match part {
        Operand::Plain(f) => value_in(attribute.kind, f),
        Operand::Entity(name) => Ok(entity_of(db, names, name)?.map(|e| Value::Ref(e))),
    }
}

/// A datom of the new transaction.
fn change(db: &Db<'_>, added: bool, e: u64, a: u64, v: Value) -> Datom {
    let t = db.next_t;
    Datom { e, a, v, t, added }
}

// ---- retractions of what is found

fn sweeps(
    alloc: Global,
    db: &Db<'_>,
    names: &[Assigned<'_>],
    asks: &[Ask<'_>],
) -> Result<Vec<Datom>, Memory> {
    let mut list = Vec::new(alloc);
    for ask in asks {
        sweep(alloc, &mut list, db, names, ask)?;
    }
    Ok(list)
}

fn sweep(
    alloc: Global,
    list: &mut Vec<Datom>,
    db: &Db<'_>,
    names: &[Assigned<'_>],
    ask: &Ask<'_>,
) -> Result<(), Memory> {
    match ask {
        Ask::RetractsAll(name, Some(attribute)) => {
            sweep_values(list, db, entity_of(db, names, name)?, attribute)
        }
        Ask::RetractsEntity(name) => sweep_entity(alloc, list, db, entity_of(db, names, name)?),
        _ => Ok(()),
    }
}

/// Every value of an attribute.
fn sweep_values(
    list: &mut Vec<Datom>,
    db: &Db<'_>,
    e: Option<u64>,
    attribute: &Attribute<'_>,
) -> Result<(), Memory> {
    for d in db.facts {
        if Some(d.e) == e && d.a == attribute.id {
            withdraw(list, db, d)?;
        }
    }
    Ok(())
}

/// All facts of an entity and its parts, and the references to them.
fn sweep_entity(
    alloc: Global,
    list: &mut Vec<Datom>,
    db: &Db<'_>,
    e: Option<u64>,
) -> Result<(), Memory> {
    let Some(e) = e else {
        return Ok(());
    };
    let set = closed_set(alloc, db.facts, e)?;
    for d in db.facts {
        if refers_to(&set, d) || set.contains(&d.e) {
            withdraw(list, db, d)?;
        }
    }
    Ok(())
}

fn refers_to(set: &[u64], d: &Datom) -> bool {
    match &d.v {
        Value::Ref(other) => set.contains(other),
        _ => false,
    }
}

/// Adds the retraction of a fact.
fn withdraw(list: &mut Vec<Datom>, db: &Db<'_>, d: &Datom) -> Result<(), Memory> {
    list.push(change(db, false, d.e, d.a, d.v.copy()?))?;
    Ok(())
}

/// What a form's additions imply: of an attribute with one value, another value that holds goes.
fn implied_by(alloc: Global, db: &Db<'_>, added: &[Datom]) -> Result<Vec<Datom>, Memory> {
    let mut list = Vec::new(alloc);
    for d in db.facts {
        if has_another_value(added, d) && is_one(db.facts, d.a) {
            withdraw(&mut list, db, d)?;
        }
    }
    Ok(list)
}

/// Whether another value of the same entity and attribute is added.
pub fn has_another_value(added: &[Datom], d: &Datom) -> bool {
    added
        .iter()
        .any(|other| other.e == d.e && other.a == d.a && other.v != d.v)
}
