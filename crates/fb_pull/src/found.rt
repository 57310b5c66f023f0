//! What is found of what an item asks for, as far as it may be given.
ghost use Rattle.std.specs.Prelude.{◌≡◌, Some, IfOk};
ghost use Rattle.fb_model.specs.Facts.{facts as facts_of};
ghost use Rattle.fb_model.specs.Schema.{attribute_of};
ghost use Rattle.fb_schema.specs.Parts.{model_attribute};
ghost use Rattle.pull_model.specs.Found as model;
ghost use Rattle.pull_model.specs.Tree as tree;
ghost use Rattle.pull_pattern.specs.View.{model_options, model_limit};
ghost use Rattle.fb_pull.specs.Finding.{CanBeSought, Finds, name_sought, most_in, most_entities};
ghost use Rattle.fb_pull.specs.Near.{IsNear};
ghost use Rattle.fb_pull.specs.Views.{Sees};

use crate::facts::{referred, referring, value, values};
use crate::near::Near;
use edn_form::Edn;
use fb_db::Db;
use fb_memory::Memory;
use fb_preds::Selector;
use fb_schema::{Attribute, schemas_tell_of_attributes};
use fb_text::Text;
use pull_pattern::{Limit, Name, Options};
use std::alloc::Global;

/// How many values a pull gives without a limit.
const USUAL_LIMIT: u32 = 1000;

/// What an item asks for.
#[derive(Clone, Copy)]
pub enum Sought<'a> {
    /// What the name means, forward or reversed.
    Named(&'a Name),
    /// An attribute, by its own name.
    Own(&'a Attribute),
}

impl<'a> Sought<'a> {
    /// The name by which it is asked for.
    pub fn name(self) -> &'a Text
        ensures { result.now ≡ name_sought self.entry }
    {
        match self {
            Sought::Named(name) => name.written(),
            Sought::Own(attribute) => &attribute.ident,
        }
    }
}

/// What is found.
#[derive(Drop)]
pub enum Found {
    /// The name is that of no attribute, or no entity can be meant by it.
    Absent,
    /// The form of the one value that there may be.
    Value(Option<Edn>),
    /// The forms of the values, of which there may be several.
    Values(Vec<Edn>),
    /// Entities, which may be parts of this one.
    Entities {
        several: bool,
        parts: bool,
        list: Vec<u64>,
    },
}

/// What is found of what is sought of the entity: of entities one more than may be given as maps, which is one too many.
pub fn found_of<S: Selector>(
    alloc: Global,
    db: &Db<S>,
    near: &Near<'_>,
    e: u64,
    sought: Sought<'_>,
    options: &Options,
    maps: u32,
) -> Result<Found, Memory>
    requires own { CanBeSought (facts_of db.now.snapshot.entries) sought }
    requires near { IsNear db.now (S.selects db.now.filter) e near.now }
    ensures { (facts : model.Db) → Sees db.now (S.selects db.now.filter) facts
        → IfOk result (λ found. Finds (model.found facts e (name_sought sought.entry))
        (model_options options.now) maps found) }
{
    match sought {
        Sought::Named(name) => found_under(alloc, db, near, e, name, options, maps),
        Sought::Own(attribute) => found_forward(alloc, db, near, e, attribute, options, maps),
    }
}

/// What is found under a name, forward or reversed.
fn found_under<S: Selector>(
    alloc: Global,
    db: &Db<S>,
    near: &Near<'_>,
    e: u64,
    name: &Name,
    options: &Options,
    maps: u32,
) -> Result<Found, Memory>
    requires { IsNear db.now (S.selects db.now.filter) e near.now }
    ensures { (facts : model.Db) → Sees db.now (S.selects db.now.filter) facts
        → IfOk result
        (λ found. Finds (model.found facts e name.now) (model_options options.now) maps found) }
{
    schemas_tell_of_attributes();
    match name.reversed() {
        None => match db.snapshot.schema().named(name.written()) {
            Some(attribute) => found_forward(alloc, db, near, e, attribute, options, maps),
            None => Ok(Found::Absent),
        },
        Some(forward) => match db.snapshot.schema().named(forward) {
            Some(attribute) => found_backward(alloc, db, e, attribute, options, maps),
            None => Ok(Found::Absent),
        },
    }
}

fn found_forward<S: Selector>(
    alloc: Global,
    db: &Db<S>,
    near: &Near<'_>,
    e: u64,
    attribute: &Attribute,
    options: &Options,
    maps: u32,
) -> Result<Found, Memory>
    requires known { attribute_of (facts_of db.now.snapshot.entries) attribute.now.id
        ≡ Some (model_attribute attribute.now) }
    requires near { IsNear db.now (S.selects db.now.filter) e near.now }
    ensures { (facts : model.Db) → Sees db.now (S.selects db.now.filter) facts
        → IfOk result (λ found. Finds
        (model.found_forward facts e (Some (model_attribute attribute.now))) (model_options options.now)
        maps found) }
{
    let several = attribute.many;
    let limit = limit_for(several, options);
    if attribute.is_ref() {
        let list = referred(alloc, db, near, e, attribute.id, most_entities(limit, maps))?;
        return Ok(Found::Entities {
            several,
            parts: attribute.component,
            list,
        });
    }
    if !several {
        return Ok(Found::Value(value(db, near, e, attribute.id)?));
    }
    let forms = values(alloc, db, near, e, attribute.id, most_values(limit))?;
    Ok(Found::Values(forms))
}

/// A part has one whole.
fn found_backward<S: Selector>(
    alloc: Global,
    db: &Db<S>,
    e: u64,
    attribute: &Attribute,
    options: &Options,
    maps: u32,
) -> Result<Found, Memory>
    requires { attribute_of (facts_of db.now.snapshot.entries) attribute.now.id
        ≡ Some (model_attribute attribute.now) }
    ensures { (facts : model.Db) → Sees db.now (S.selects db.now.filter) facts
        → IfOk result (λ found. Finds
        (model.found_backward facts e (Some (model_attribute attribute.now))) (model_options options.now)
        maps found) }
{
    if !attribute.is_ref() {
        return Ok(Found::Absent);
    }
    let several = !attribute.component;
    let limit = limit_for(several, options);
    let list = referring(alloc, db, e, attribute.id, most_entities(limit, maps))?;
    Ok(Found::Entities {
        several,
        parts: false,
        list,
    })
}

fn limit_for(several: bool, options: &Options) -> Limit
    ensures { model_limit result ≡ tree.limit_for several (model_options options.now) }
{
    if !several {
        return Limit::First(1);
    }
    match options.limit {
        Some(limit) => limit,
        None => Limit::First(USUAL_LIMIT),
    }
}

fn most_values(limit: Limit) -> Option<usize>
    ensures { result ≡ most_in (model_limit limit) }
{
    match limit {
        Limit::First(n) => Some(n as usize),
        Limit::All => None,
    }
}

/// One entity more than the maps that may be made is too many.
fn most_entities(limit: Limit, maps: u32) -> usize
    ensures { result ≡ most_entities (model_limit limit) maps }
{
    let too_many = maps as usize + 1;
    match limit {
        Limit::First(n) => too_many.min(n as usize),
        Limit::All => too_many,
    }
}
