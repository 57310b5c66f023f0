//! What answers a command, as a form.
use edn_form::{Edn, Items, Pairs};
use fb_memory::Memory;
use fb_numbers::TRANSACTIONS;
use fb_text::Text;
use fb_values::{Datom, Entry, Value};
use plain_reads::attribute_of;
use std::alloc::Global;

/// The number, which no number of a history reaches where it is past the greatest integer of a form.
pub(crate) fn number(n: u64) -> Edn {
    Edn::Int(i64::try_from(n).unwrap_or(i64::MAX))
}

/// A map that begins with these keys.
#[derive(Drop)]
struct Reply {
    alloc: Global,
    pairs: Vec<(Edn, Edn)>,
    /// It lacks a pair, for which there was no memory.
    is_cut: bool,
}

impl Reply {
    fn new(alloc: Global) -> Reply {
        Reply {
            alloc,
            pairs: Vec::new(alloc),
            is_cut: false,
        }
    }

    fn with(mut self, key: &str, form: Result<Edn, Memory>) -> Reply {
        if self.add(key, form).is_err() {
            self.is_cut = true;
        }
        self
    }

    fn with_number(self, key: &str, n: u64) -> Reply {
        self.with(key, Ok(number(n)))
    }

    fn add(&mut self, key: &str, form: Result<Edn, Memory>) -> Result<(), Memory> {
        let form = form?;
        let key = Edn::Key(Text::of(self.alloc, key)?);
        self.pairs.push((key, form))?;
        Ok(())
    }

    fn map(self) -> Result<Edn, Memory> {
        if self.is_cut {
            Err(Memory)
        } else {
            Ok(Edn::Map(Pairs::of(self.pairs)))
        }
    }
}

/// `{:t 2 :tempids {"p" 17592186044418}}`
pub fn receipt(alloc: Global, t: u32, tempids: Vec<(Text, u64)>) -> Result<Edn, Memory> {
    Reply::new(alloc)
        .with_number("t", u64::from(t))
        .with("tempids", entities(alloc, &tempids))
        .map()
}

fn entities(alloc: Global, tempids: &[(Text, u64)]) -> Result<Edn, Memory> {
    let mut entities = Vec::new(alloc);
    for (name, e) in tempids {
        entities.push((Edn::Str(name.copy()?), number(*e)))?;
    }
    Ok(Edn::Map(Pairs::of(entities)))
}

/// `{:basis 3}`
pub(crate) fn basis(alloc: Global, basis: u32) -> Result<Edn, Memory> {
    with_basis(alloc, basis).map()
}

fn with_basis(alloc: Global, basis: u32) -> Reply {
    Reply::new(alloc).with_number("basis", u64::from(basis))
}

/// `{:ok true :basis 3}`
pub(crate) fn done(alloc: Global, basis: u32) -> Result<Edn, Memory> {
    Reply::new(alloc)
        .with("ok", Ok(Edn::Bool(true)))
        .with_number("basis", u64::from(basis))
        .map()
}

/// `{:refused :db.error/cas-failed :at 0 :basis 3}`
pub fn refusal(alloc: Global, keyword: &str, at: usize, basis: u32) -> Result<Edn, Memory> {
    Reply::new(alloc)
        .with("refused", keyword_of(alloc, keyword))
        .with_number("at", at as u64)
        .with_number("basis", u64::from(basis))
        .map()
}

fn keyword_of(alloc: Global, keyword: &str) -> Result<Edn, Memory> {
    Ok(Edn::Key(Text::of(alloc, keyword)?))
}

/// `{:basis 3 :datoms [[17592186044417 :db/doc "hi" 13194139533313 true] ..]}`
pub(crate) fn datoms(
    alloc: Global,
    basis: u32,
    facts: &[Datom],
    datoms: &[Datom],
) -> Result<Edn, Memory> {
    with_basis(alloc, basis)
        .with("datoms", vectors(alloc, facts, datoms))
        .map()
}

/// `{:basis 3 :txs [{:t 1 :data [..]} ..]}`
pub(crate) fn transactions(
    alloc: Global,
    basis: u32,
    facts: &[Datom],
    entries: &[Entry],
) -> Result<Edn, Memory> {
    with_basis(alloc, basis)
        .with("txs", logged(alloc, facts, entries))
        .map()
}

fn logged(alloc: Global, facts: &[Datom], entries: &[Entry]) -> Result<Edn, Memory> {
    let mut list = Vec::new(alloc);
    for entry in entries {
        list.push(transaction(alloc, facts, entry)?)?;
    }
    Ok(Edn::Vector(Items::of(list)))
}

fn transaction(alloc: Global, facts: &[Datom], entry: &Entry) -> Result<Edn, Memory> {
    Reply::new(alloc)
        .with_number("t", u64::from(entry.t))
        .with("data", vectors(alloc, facts, entry.datoms.as_slice()))
        .map()
}

/// `{:basis 3 :pull {:db/doc "hi"}}`
pub(crate) fn pull(alloc: Global, basis: u32, tree: Edn) -> Result<Edn, Memory> {
    with_basis(alloc, basis).with("pull", Ok(tree)).map()
}

/// `{:basis 1 :with [{:t 2 :tempids {}} ..] :reply {:basis 2 :pull nil}}`
pub(crate) fn with(
    alloc: Global,
    basis: u32,
    reports: Vec<Edn>,
    reply: Edn,
) -> Result<Edn, Memory> {
    with_basis(alloc, basis)
        .with("with", Ok(Edn::Vector(Items::of(reports))))
        .with("reply", Ok(reply))
        .map()
}

/// `{:basis 3 :tuples [[[1 nil] 17592186044420] ..]}`
pub(crate) fn tuples(alloc: Global, basis: u32, rows: Vec<Edn>) -> Result<Edn, Memory> {
    with_basis(alloc, basis)
        .with("tuples", Ok(Edn::Vector(Items::of(rows))))
        .map()
}

fn vectors(alloc: Global, facts: &[Datom], datoms: &[Datom]) -> Result<Edn, Memory> {
    let mut list = Vec::new(alloc);
    for d in datoms {
        list.push(vector(alloc, facts, d)?)?;
    }
    Ok(Edn::Vector(Items::of(list)))
}

fn vector(alloc: Global, facts: &[Datom], d: &Datom) -> Result<Edn, Memory> {
    let attribute = attribute(facts, d.a)?;
    vector_of(alloc, d, attribute, value(&d.v)?)
}

fn vector_of(alloc: Global, d: &Datom, attribute: Edn, value: Edn) -> Result<Edn, Memory> {
    let transaction = number(TRANSACTIONS + u64::from(d.t));
    let members = [
        number(d.e),
        attribute,
        value,
        transaction,
        Edn::Bool(d.added),
    ];
    Ok(Edn::Vector(Items::of(Vec::from_array(alloc, members)?)))
}

/// An attribute by its keyword, and what is none by its number.
fn attribute(facts: &[Datom], a: u64) -> Result<Edn, Memory> {
    match attribute_of(facts, a) {
        Some(attribute) => Ok(Edn::Key(attribute.name.copy()?)),
        None => Ok(number(a)),
    }
}

pub(crate) fn value(v: &Value) -> Result<Edn, Memory> {
    Ok(match v {
        Value::Keyword(text) => Edn::Key(text.copy()?),
        Value::Str(text) | Value::Uri(text) => Edn::Str(text.copy()?),
        Value::Symbol(text) => Edn::Sym(text.copy()?),
        Value::Bool(b) => Edn::Bool(*b),
        Value::Long(n) => Edn::Int(*n),
        Value::Ref(e) => number(*e),
        Value::Instant(millis) => Edn::Inst(*millis),
        Value::Uuid(uuid) => Edn::Uuid(*uuid),
    })
}
