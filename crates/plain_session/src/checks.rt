//! The rules of the program's guard.
use fb_memory::Memory;
use fb_values::{Datom, Entry, Value};
use plain_reads::{attribute_named, said, standing};
use plain_step::Guard;
use std::alloc::Global;
use tx_refusals::Bar;

/// A text of this attribute has something in it.
const DOC: &str = "db/doc";

/// Who has a value of this attribute has one of `DOC` too.
const EMAIL: &str = "person/email";

/// The rules, which bar something only in a strict session.
#[derive(Clone, Copy)]
pub(crate) struct Checks {
    pub(crate) alloc: Global,
    pub(crate) is_strict: bool,
}

impl Guard for Checks {
    fn judge(&self, entries: &[Entry], changes: &[Datom]) -> Result<Option<Bar>, Memory> {
        if !self.is_strict {
            return Ok(None);
        }
        let mut said = said(self.alloc, entries)?;
        let facts = standing(self.alloc, &said)?;
        for d in changes {
            said.push(d.copy()?)?;
        }
        let after = standing(self.alloc, &said)?;
        Ok(bar_of(&facts, &after, changes))
    }
}

/// By what the changes are barred, where these facts hold before them and after them.
fn bar_of(facts: &[Datom], after: &[Datom], changes: &[Datom]) -> Option<Bar> {
    if changes.iter().any(|d| adds_empty_doc(facts, d)) {
        return Some(Bar::AttrPred);
    }
    if changes.iter().any(|d| lacks_doc(facts, after, d.e)) {
        return Some(Bar::MissingRequired);
    }
    None
}

fn adds_empty_doc(facts: &[Datom], d: &Datom) -> bool {
    d.added && is_named(facts, DOC, d.a) && is_empty_text(&d.v)
}

fn is_empty_text(v: &Value) -> bool {
    match v {
        Value::Str(text) => text.len() == 0,
        _ => false,
    }
}

fn lacks_doc(facts: &[Datom], after: &[Datom], e: u64) -> bool {
    has_one(facts, after, EMAIL, e) && !has_one(facts, after, DOC, e)
}

/// Whether the entity has a value of the attribute that these facts name so.
fn has_one(facts: &[Datom], held: &[Datom], name: &str, e: u64) -> bool {
    held.iter().any(|d| d.e == e && is_named(facts, name, d.a))
}

fn is_named(facts: &[Datom], name: &str, a: u64) -> bool {
    attribute_named(facts, name).is_some_and(|attribute| attribute.id == a)
}
