//! The tuples of a composite as an index, which is kept from entry to entry.
ghost use Rattle.std.specs.Prelude.{◌≡◌, ◌++◌, ◌∷◌, [], IfOk, IfErr, OnOk, None, IsTrue, false};
ghost use Rattle.std.specs.Option.{option_map};
ghost use Rattle.fb_model.specs.Facts.{facts};
ghost use Rattle.fb_model.specs.Lawful.{IsLawfulAfter};
ghost use Rattle.fb_db.specs.Seen.{window_of};
ghost use Rattle.tuple_model.specs.Composite.{bad_place as model_bad_place};
ghost use Rattle.tuple_model.specs.Tuples.{AreTuples, range as model_range};
ghost use Rattle.tuple_model.specs.Seen.{AreTuplesIn};
ghost use Rattle.fb_tuples.specs.Indexed.{IsTupleFault};

use crate::faults::TupleFault;
use crate::given::bad_place;
use crate::kept::{Row, kept_rows};
use crate::order::part;
use crate::ranges::lent;
use crate::renewed::renewed;
use fb_db::Db;
use fb_memory::Memory;
use fb_preds::Selector;
use fb_values::{Entry, Value};
use fb_view::Snapshot;
use std::alloc::Global;
use std::marker::Model;

/// The attributes of a composite, and the rows of all entities that have a value of one of them, in order.
#[derive(Drop)]
pub struct TupleIndex {
    alloc: Global,
    attrs: Vec<u64>,
    rows: Vec<Row>,
}

impl Model for TupleIndex {
    ghost use Rattle.std.specs.Prelude.{IsTrue};
    ghost use Rattle.tuple_model.specs.Tuples.{rows_rise};
    ghost use Rattle.fb_tuples.specs.Indexed.{Indexed};

    ghost Value = { Indexed };

    ghost view = { λ i. record {
      attrs = i.attrs.items;
      rows = i.rows.items;
    } };

    ghost invariant = { λ i. IsTrue (rows_rise i.rows.items) };
}

impl TupleIndex {
    /// The tuples in the view. Whether the attributes are a composite is judged first.
    pub fn of<S: Selector>(
        alloc: Global,
        db: &Db<S>,
        attrs: &[u64],
    ) -> Result<TupleIndex, TupleFault>
        ensures index { IfOk result (λ i. (i.attrs ≡ attrs.now)
            × AreTuplesIn db.now.snapshot.entries (window_of db.now) (S.selects db.now.filter)
            i.attrs None None i.rows) }
        ensures composite { IfOk result
            (λ _. (model_bad_place (facts db.now.snapshot.entries) attrs.now ≡ None)
            × (db.now.history ≡ false)) }
        ensures fault { IfErr result
            (IsTupleFault (model_bad_place (facts db.now.snapshot.entries) attrs.now)
            db.now.history) }
    {
        judge(db, attrs)?;
        let found = lent(alloc, db, attrs)?;
        let rows = kept_rows(alloc, &found)?;
        let attrs = copied(alloc, attrs)?;
        Ok(TupleIndex { alloc, attrs, rows })
    }

    /// The rows from the start on and before the end.
    pub fn range(&self, start: Option<&[Option<Value>]>, end: Option<&[Option<Value>]>) -> &[Row]
        ensures { result.now ≡ model_range (option_map (λ bound. bound.now) start.entry)
            (option_map (λ bound. bound.now) end.entry) self.now.rows }
    {
        part(&self.rows, start, end)
    }

    /// The index of the history with the entry, where this one is that of the whole history before. The tuples of the
    /// entry's entities are found anew, and the other rows are shared.
    pub fn after(&self, before: &Snapshot, entry: &Entry) -> Result<TupleIndex, Memory>
        requires stands { AreTuples (facts before.now.entries) self.now.attrs self.now.rows }
        requires lawful { IsLawfulAfter before.now.entries entry.now }
        ensures after { IfOk result (λ i. (i.attrs ≡ self.now.attrs)
            × AreTuples (facts (before.now.entries ++ entry.now ∷ [])) i.attrs i.rows) }
    {
        let rows = renewed(self.alloc, &self.rows, &self.attrs, before, entry)?;
        let attrs = copied(self.alloc, &self.attrs)?;
        Ok(TupleIndex {
            alloc: self.alloc,
            attrs,
            rows,
        })
    }
}

/// Whether the view has tuples of the attributes.
fn judge<S: Selector>(db: &Db<S>, attrs: &[u64]) -> Result<(), TupleFault>
    ensures passed { OnOk result
        ((model_bad_place (facts db.now.snapshot.entries) attrs.now ≡ None)
        × (db.now.history ≡ false)) }
    ensures fault { IfErr result
        (IsTupleFault (model_bad_place (facts db.now.snapshot.entries) attrs.now) db.now.history) }
{
    if let Some(place) = bad_place(db.snapshot.schema(), attrs) {
        return Err(TupleFault::BadTuple { place });
    }
    if db.history {
        return Err(TupleFault::History);
    }
    Ok(())
}

fn copied(alloc: Global, attrs: &[u64]) -> Result<Vec<u64>, Memory>
    ensures { IfOk result (λ copy. copy.items ≡ attrs.now) }
{
    Ok(Vec::from_slice(alloc, attrs)?)
}
