//! Ranges of the tuples of a composite.
use crate::replies;
use crate::sight::Sight;
use crate::stops::{ReadStop, or_refused};
use edn_form::{Edn, Items};
use fb_memory::Memory;
use fb_numbers::TYPE_REF;
use fb_values::{Datom, Value};
use plain_asks::value_in;
use plain_reads::{Attribute, attribute_named, basis};
use std::cmp::Ordering;

/// The tuple of an entity: a value of each attribute, or none.
#[derive(PartialEq, Eq, PartialOrd, Ord, Drop)]
struct Row {
    tuple: Vec<Option<Value>>,
    e: u64,
}

/// An end of a range.
#[derive(Drop)]
enum Bound {
    Open,
    At(Vec<Option<Value>>),
}

impl Row {
    fn is_from(&self, start: &Bound) -> bool {
        match start {
            Bound::Open => true,
            Bound::At(tuple) => self.tuple.cmp(tuple) != Ordering::Less,
        }
    }

    fn is_before(&self, end: &Bound) -> bool {
        match end {
            Bound::Open => true,
            Bound::At(tuple) => self.tuple.cmp(tuple) == Ordering::Less,
        }
    }
}

impl Sight<'_> {
    pub(crate) fn tuples(&self, names: &Edn, start: &Edn, end: &Edn) -> Result<Edn, ReadStop> {
        let attributes = or_refused(self.composite(names)?, "read/bad-tuple", 1)?;
        let start = or_refused(self.bound(&attributes, start)?, "read/bad-component", 2)?;
        let end = or_refused(self.bound(&attributes, end)?, "read/bad-component", 3)?;
        or_refused((!self.window.history).then_some(()), "read/history", 0)?;
        let rows = self.rows(&attributes)?;
        Ok(self.rows_between(&rows, &start, &end)?)
    }

    /// The attributes that the forms name: two to eight different ones, of which an entity has one value each.
    fn composite(&self, names: &Edn) -> Result<Option<Vec<Attribute<'_>>>, Memory> {
        let Edn::Vector(names) = names else {
            return Ok(None);
        };
        let mut list = Vec::new(self.alloc);
        for name in names.as_slice() {
            let Some(attribute) = self.single(name) else {
                return Ok(None);
            };
            if is_among(&list, attribute.id) {
                return Ok(None);
            }
            list.push(attribute)?;
        }
        Ok(Some(list).filter(|list| (2..=8).contains(&list.len())))
    }

    /// The attribute that the form names, where an entity has one value of it.
    fn single(&self, name: &Edn) -> Option<Attribute<'_>> {
        let Edn::Key(name) = name else {
            return None;
        };
        attribute_named(self.facts, name.as_str()).filter(|attribute| !attribute.many)
    }

    /// The end that the form gives: nil, or a vector of a member for each attribute.
    fn bound(&self, attributes: &[Attribute<'_>], form: &Edn) -> Result<Option<Bound>, Memory> {
        match form {
            Edn::Nil => Ok(Some(Bound::Open)),
            Edn::Vector(members) if members.as_slice().len() == attributes.len() => {
                self.bound_at(attributes, members.as_slice())
            }
            _ => Ok(None),
        }
    }

    fn bound_at(
        &self,
        attributes: &[Attribute<'_>],
        members: &[Edn],
    ) -> Result<Option<Bound>, Memory> {
        let mut tuple = Vec::new(self.alloc);
        for (attribute, form) in attributes.iter().zip(members) {
            let Some(member) = member(attribute.kind, form)? else {
                return Ok(None);
            };
            tuple.push(member)?;
        }
        Ok(Some(Bound::At(tuple)))
    }

    /// A row for each entity that has a value of some of the attributes, in order.
    fn rows(&self, attributes: &[Attribute<'_>]) -> Result<Vec<Row>, Memory> {
        let seen = self.seen()?;
        let mut rows = Vec::new(self.alloc);
        for d in &seen {
            if is_among(attributes, d.a) && !has_row(&rows, d.e) {
                let tuple = self.tuple(&seen, attributes, d.e)?;
                rows.push(Row { tuple, e: d.e })?;
            }
        }
        rows.sort()?;
        Ok(rows)
    }

    fn tuple(
        &self,
        seen: &[Datom],
        attributes: &[Attribute<'_>],
        e: u64,
    ) -> Result<Vec<Option<Value>>, Memory> {
        let mut tuple = Vec::new(self.alloc);
        for attribute in attributes {
            tuple.push(least(seen, e, attribute.id)?)?;
        }
        Ok(tuple)
    }

    fn rows_between(&self, rows: &[Row], start: &Bound, end: &Bound) -> Result<Edn, Memory> {
        let mut list = Vec::new(self.alloc);
        for row in rows {
            if row.is_from(start) && row.is_before(end) {
                list.push(self.shown_row(row)?)?;
            }
        }
        replies::tuples(self.alloc, basis(self.entries), list)
    }

    /// `[[1 nil] 17592186044420]`
    fn shown_row(&self, row: &Row) -> Result<Edn, Memory> {
        let mut members = Vec::new(self.alloc);
        for member in &row.tuple {
            members.push(shown_member(member)?)?;
        }
        let pair = [Edn::Vector(Items::of(members)), replies::number(row.e)];
        Ok(Edn::Vector(Items::of(Vec::from_array(self.alloc, pair)?)))
    }
}

fn is_among(attributes: &[Attribute<'_>], a: u64) -> bool {
    attributes.iter().any(|attribute| attribute.id == a)
}

fn has_row(rows: &[Row], e: u64) -> bool {
    rows.iter().any(|row| row.e == e)
}

/// Nil, or a value of the type; an entity by its number.
fn member(kind: u64, form: &Edn) -> Result<Option<Option<Value>>, Memory> {
    match form {
        Edn::Nil => Ok(Some(None)),
        Edn::Int(n) if kind == TYPE_REF => Ok(u64::try_from(*n).ok().map(|e| Some(Value::Ref(e)))),
        _ => Ok(value_in(kind, form)?.map(|v| Some(v))),
    }
}

/// The least value that the entity has of the attribute.
fn least(seen: &[Datom], e: u64, a: u64) -> Result<Option<Value>, Memory> {
    let mut least: Option<&Value> = None;
    for d in seen {
        if d.e == e && d.a == a && least.is_none_or(|v| d.v.cmp(v) == Ordering::Less) {
            least = Some(&d.v);
        }
    }
    match least {
        Some(v) => Ok(Some(v.copy()?)),
        None => Ok(None),
    }
}

fn shown_member(member: &Option<Value>) -> Result<Edn, Memory> {
    match member {
        Some(v) => replies::value(v),
        None => Ok(Edn::Nil),
    }
}
