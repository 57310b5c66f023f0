//! Rows that outlive the database value that they were read from, and that indexes share.
ghost use Rattle.std.specs.Prelude.{◌≡◌, ◌∷◌, map, IfOk};
ghost use Rattle.std.specs.Option.{option_map};
ghost use Rattle.tuple_model.specs.Tuples.{tuple_cmp, row_cmp};
ghost use Rattle.fb_tuples.specs.Lent.{model_row, tuple_lent};

use crate::rows::LentRow;
use fb_chunks::{Share, Shared};
use fb_memory::Memory;
use fb_values::Value;
use std::alloc::Global;
use std::cmp::Ordering;
use std::marker::Model;

/// An entity with a value of each attribute, or none. A copy is one reference count.
#[derive(Drop)]
pub struct Row {
    content: Shared<Content>,
}

#[derive(Drop)]
struct Content {
    tuple: Vec<Option<Value>>,
    e: u64,
}

impl Model for Row {
    ghost use Rattle.tuple_model.specs.Tuples.{Row as TheRow};

    ghost Value = { TheRow };

    ghost view = { λ row. record {
      tuple = row.content.tuple.items;
      e = row.content.e;
    } };
}

impl Row {
    pub fn new(alloc: Global, tuple: Vec<Option<Value>>, e: u64) -> Result<Row, Memory>
        ensures { IfOk result (λ row. row ≡ record { tuple = tuple.items; e = e }) }
    {
        let content = Shared::new(alloc, Content { tuple, e })?;
        Ok(Row { content })
    }

    pub fn tuple(&self) -> &[Option<Value>]
        ensures { result.now ≡ self.now.tuple }
    {
        &self.content.get().tuple
    }

    pub fn e(&self) -> u64
        ensures { result ≡ self.now.e }
    {
        self.content.get().e
    }
}

impl Share for Row {
    fn share(&self) -> Result<Row, Memory> {
        let content = self.content.share()?;
        Ok(Row { content })
    }
}

/// By the tuples, and then by the entities.
pub(crate) fn cmp_rows(x: &Row, y: &Row) -> Ordering
    ensures { result ≡ row_cmp x.now y.now }
{
    cmp_tuples(x.tuple(), y.tuple()).then(x.e().cmp(&y.e()))
}

pub(crate) fn cmp_tuples(x: &[Option<Value>], y: &[Option<Value>]) -> Ordering
    ensures { result ≡ tuple_cmp x.now y.now }
{
    x.cmp(y)
}

/// The same rows with values of their own.
pub(crate) fn kept_rows(alloc: Global, rows: &[LentRow<'_>]) -> Result<Vec<Row>, Memory>
    ensures { IfOk result (λ kept. kept.items ≡ map model_row rows.now) }
{
    let mut kept = Vec::with_capacity(alloc, rows.len())?;
    for row in rows {
        let tuple = kept_tuple(alloc, &row.tuple)?;
        kept.push(Row::new(alloc, tuple, row.e)?)?;
    }
    Ok(kept)
}

fn kept_tuple(alloc: Global, tuple: &[Option<&Value>]) -> Result<Vec<Option<Value>>, Memory>
    ensures { IfOk result (λ kept. kept.items ≡ tuple_lent tuple.now) }
{
    let mut kept = Vec::with_capacity(alloc, tuple.len())?;
    for member in tuple {
        kept.push(kept_member(*member)?)?;
    }
    Ok(kept)
}

fn kept_member(member: Option<&Value>) -> Result<Option<Value>, Memory>
    ensures { IfOk result (λ kept. kept ≡ option_map (λ v. v.now) member.entry) }
{
    match member {
        Some(v) => Ok(Some(v.copy()?)),
        None => Ok(None),
    }
}
