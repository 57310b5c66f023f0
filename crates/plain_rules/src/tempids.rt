//! Names of entities in a transaction, and the entities that tempids stand for.
use crate::attributes::is_identity;
use crate::db::Db;
use edn_form::Edn;
use fb_memory::Memory;
use fb_numbers::{TRANSACTIONS, USER_ENTITIES};
use fb_text::Text;
use plain_asks::{Ask, Name, OWN_TEMPID, Operand, is_same_tempid, is_tempid, names_of, value_in};
use plain_reads::{Attribute, attribute_named, holder, is_issued, named};
use std::alloc::Global;

/// The entity of a tempid.
#[derive(Clone, Copy)]
pub struct Assigned<'a> {
    pub name: Name<'a>,
    pub e: u64,
}

// ---- names in the database

/// The entity that a name has in the database: a number has to be issued, and a tempid has none.
pub fn found(db: &Db<'_>, name: &Name<'_>) -> Result<Option<u64>, Memory> {
    match name {
        Name::Number(n) => Ok(numbered(db, *n)),
        Name::Ident(k) => Ok(named(db.facts, k.as_str())),
        Name::Lookup(k, value) => looked_up(db, k, value),
        Name::Tempid(_) | Name::Nameless(_) => Ok(None),
    }
}

fn numbered(db: &Db<'_>, n: i64) -> Option<u64> {
    let n = u64::try_from(n).ok()?;
    if is_issued(db.entries, n) {
        Some(n)
    } else {
        None
    }
}

fn looked_up(db: &Db<'_>, k: &Text, value: &Edn) -> Result<Option<u64>, Memory> {
    match attribute_named(db.facts, k.as_str()) {
        Some(attribute) => holder_of(db, &attribute, value),
        None => Ok(None),
    }
}

/// The entity that has the value.
fn holder_of(db: &Db<'_>, attribute: &Attribute<'_>, f: &Edn) -> Result<Option<u64>, Memory> {
    match value_in(attribute.kind, f)? {
        Some(v) => Ok(holder(db.facts, attribute.id, &v)),
        None => Ok(None),
    }
}

// ---- tempids

/// The tempids of all asks with their entities: the holder of an identity value, or else the next user entity.
pub fn entities_of_tempids<'a>(
    alloc: Global,
    db: &Db<'_>,
    all: &[Ask<'a>],
) -> Result<Vec<Assigned<'a>>, Memory> {
    let tempids = tempids_in(alloc, all)?;
    let mut list = Vec::new(alloc);
    let mut users = db.users;
    for name in &tempids {
        let e = assigned_to(alloc, db, all, name, &mut users)?;
        list.push(Assigned { name: *name, e })?;
    }
    Ok(list)
}

fn assigned_to(
    alloc: Global,
    db: &Db<'_>,
    all: &[Ask<'_>],
    name: &Name<'_>,
    users: &mut u64,
) -> Result<u64, Memory> {
    let held = holders(alloc, db, all, name)?;
    Ok(match held.first() {
        Some(e) => *e,
        None => {
            *users = users.saturating_add(1);
            USER_ENTITIES.saturating_add(*users)
        }
    })
}

/// The tempids in the order in which they are first met.
fn tempids_in<'a>(alloc: Global, asks: &[Ask<'a>]) -> Result<Vec<Name<'a>>, Memory> {
    let mut met = Vec::new(alloc);
    for ask in asks {
        for name in names_of(ask).iter().flatten() {
            if is_tempid(name) && !is_among(&met, name) {
                met.push(*name)?;
            }
        }
    }
    Ok(met)
}

fn is_among(tempids: &[Name<'_>], name: &Name<'_>) -> bool {
    tempids.iter().any(|other| is_same_tempid(name, other))
}

/// The entities that the asks make of the tempid.
pub fn holders(
    alloc: Global,
    db: &Db<'_>,
    asks: &[Ask<'_>],
    name: &Name<'_>,
) -> Result<Vec<u64>, Memory> {
    let mut held = Vec::new(alloc);
    for ask in asks {
        if let Some(e) = identified(db, name, ask)? {
            held.push(e)?;
        }
    }
    Ok(held)
}

/// The entity that an addition makes of the tempid: the holder of the identity value that it gives.
pub fn identified(db: &Db<'_>, name: &Name<'_>, ask: &Ask<'_>) -> Result<Option<u64>, Memory> {
    match ask {
        Ask::Adds(other, Some(attribute), Operand::Plain(f))
            if is_same_tempid(name, other) && is_identity(db.facts, attribute.id) => {
            holder_of(db, attribute, f)
        }
        _ => Ok(None),
    }
}

/// The entity of a name in the transaction, whose tempids have these entities.
pub fn entity_of(
    db: &Db<'_>,
    names: &[Assigned<'_>],
    name: &Name<'_>,
) -> Result<Option<u64>, Memory> {
    match name {
        Name::Tempid(s) if s.as_str() == OWN_TEMPID => {
            Ok(Some(TRANSACTIONS + u64::from(db.next_t)))
        }
        Name::Tempid(_) | Name::Nameless(_) => Ok(entity_of_tempid(names, name)),
        _ => found(db, name),
    }
}

fn entity_of_tempid(names: &[Assigned<'_>], name: &Name<'_>) -> Option<u64> {
    for tempid in names {
        if is_same_tempid(&tempid.name, name) {
            return Some(tempid.e);
        }
    }
    None
}

/// The tempids with a name by the bytes of their texts, for the answer.
pub fn named_tempids(alloc: Global, names: &[Assigned<'_>]) -> Result<Vec<(Text, u64)>, Memory> {
    let mut list = Vec::new(alloc);
    for tempid in names {
        if let Name::Tempid(s) = &tempid.name {
            put(&mut list, s, tempid.e)?;
        }
    }
    Ok(list)
}

/// Puts the text in its place of a list in order.
fn put(list: &mut Vec<(Text, u64)>, text: &Text, e: u64) -> Result<(), Memory> {
    for at in 0..list.len() {
        if text.as_str() < list[at].0.as_str() {
            list.insert(at, (text.copy()?, e))?;
            return Ok(());
        }
    }
    list.push((text.copy()?, e))?;
    Ok(())
}
