//! Tuples of a database that grows by drawn transactions. After each of them the index of tuples that its entry makes of the one
//! before, and each of some drawn ranges, of the present and of the past, have to be what a plain fold over all that was asked for leaves.
ghost use Rattle.fb_core.specs.Cores.{entry_of};
ghost use Rattle.fb_model.specs.Lawful.{IsLawfulAfter};

use crate::asked::{Ask, ENTITIES, FIRST, MANY, PlainRow, SCHEMA, drawn, rows_before, transaction};
use crate::database::{decided, form_in, transact};
use crate::everything::Everything;
use anyhow::{Result, bail};
use fb_core::{Core, Draft};
use fb_db::Db;
use fb_tuples::{LentRow, Row, TupleFault, TupleIndex, ranged};
use fb_values::{Entry, Value};
use fb_view::Snapshot;
use std::alloc::Global;
use test_data::Dice;
use tuple_model::tuples_in_a_view_are_one_list;

const SEED: u64 = 20_261_201;

const ROUNDS: u32 = 60;

const RANGES_EACH: u32 = 6;

/// All transactions are before it.
const NO_END: u32 = u32::MAX;

/// The first attribute of each composite is held by AVET or not.
const COMPOSITES: &[&[u64]] = &[
    &[FIRST, FIRST + 1],
    &[FIRST + 1, FIRST],
    &[FIRST + 2, FIRST + 1, FIRST],
];

/// How many ranges were compared.
pub(crate) fn grow_and_compare(alloc: Global) -> Result<u32> {
    let mut core = Core::of(alloc, Snapshot::first(alloc)?);
    transact(&mut core, &form_in(alloc, SCHEMA)?)?;
    transact(&mut core, &form_in(alloc, ENTITIES)?)?;
    refuse_many(alloc, core.snapshot())?;
    let mut dice = Dice::new(SEED);
    let mut asks = Vec::new(alloc);
    let mut compared = 0_u32;
    for _ in 0..ROUNDS {
        compared = compared.saturating_add(play(alloc, &mut core, &mut dice, &mut asks)?);
    }
    Ok(compared)
}

/// Makes a transaction, and says how many ranges were compared after it.
fn play(alloc: Global, core: &mut Core, dice: &mut Dice, asks: &mut Vec<Ask>) -> Result<u32> {
    let asked = drawn(dice, core.snapshot().basis().saturating_add(1));
    let text = transaction(alloc, &asked)?;
    let form = form_in(alloc, text.as_str())?;
    asks.extend_from_slice(&asked)?;
    let draft = decided(core, &form)?;
    compare_kept(alloc, core.snapshot(), &draft, asks)?;
    core.accept(draft);
    compare_views(alloc, core.snapshot(), asks, dice)
}

fn refuse_many(alloc: Global, snapshot: &Snapshot) -> Result<()> {
    let db = Db::of(snapshot.share()?, Everything);
    match TupleIndex::of(alloc, &db, &[FIRST, MANY]) {
        Err(TupleFault::BadTuple { place: 1 }) => Ok(()),
        _ => bail!("an attribute of several values is in a composite"),
    }
}

// ---- an index that is kept

fn compare_kept(alloc: Global, before: &Snapshot, draft: &Draft, asks: &[Ask]) -> Result<()>
    requires { IsLawfulAfter before.now.entries (entry_of draft.now) }
{
    for attrs in COMPOSITES {
        let kept = kept_after(alloc, before, draft.entry(), attrs)?;
        let plain = rows_before(alloc, asks, NO_END, attrs)?;
        if !are_kept(kept.range(None, None), &plain, Ends::none()) {
            bail!("an index is not what the transaction leaves");
        }
    }
    Ok(())
}

/// The index that the entry makes of the one before it.
fn kept_after(alloc: Global, before: &Snapshot, entry: &Entry, attrs: &[u64]) -> Result<TupleIndex>
    requires { IsLawfulAfter before.now.entries entry.now }
{
    tuples_in_a_view_are_one_list::<Everything>();
    let db = Db::of(before.share()?, Everything);
    let index = TupleIndex::of(alloc, &db, attrs)?;
    // This call brings into the proof that the snapshot represents its history.
    let _basis = before.basis();
    Ok(index.after(before, entry)?)
}

/// Whether these are the plain rows that are within the ends.
fn are_kept(rows: &[Row], plain: &[PlainRow], ends: Ends<'_>) -> bool {
    let mut rows = rows.iter();
    for row in plain.iter().filter(|row| ends.have(row)) {
        match rows.next() {
            Some(kept) if kept.e() == row.e && kept.tuple() == row.tuple.as_slice() => {}
            _ => return false,
        }
    }
    rows.next().is_none()
}

// ---- ranges

fn compare_views(alloc: Global, snapshot: &Snapshot, asks: &[Ask], dice: &mut Dice) -> Result<u32> {
    let mut compared = 0_u32;
    for attrs in COMPOSITES {
        let mut db = Db::of(snapshot.share()?, Everything);
        let plain = rows_before(alloc, asks, NO_END, attrs)?;
        compare_ranges(alloc, &db, attrs, &plain, dice)?;
        let end = snapshot.basis() / 2 + 2;
        db.as_of(end);
        let plain = rows_before(alloc, asks, end, attrs)?;
        compare_ranges(alloc, &db, attrs, &plain, dice)?;
        compared = compared.saturating_add(2 * RANGES_EACH);
    }
    Ok(compared)
}

fn compare_ranges(
    alloc: Global,
    db: &Db<Everything>,
    attrs: &[u64],
    plain: &[PlainRow],
    dice: &mut Dice,
) -> Result<()> {
    let index = TupleIndex::of(alloc, db, attrs)?;
    for _ in 0..RANGES_EACH {
        let start = drawn_bound(alloc, dice)?;
        let end = drawn_bound(alloc, dice)?;
        let ends = Ends {
            start: start.as_deref(),
            end: end.as_deref(),
        };
        let found = ranged(alloc, db, attrs, ends.start, ends.end)?;
        if !are_lent(&found, plain, ends)
            || !are_kept(index.range(ends.start, ends.end), plain, ends)
        {
            bail!("a range is not what a filter leaves");
        }
    }
    Ok(())
}

fn are_lent(rows: &[LentRow<'_>], plain: &[PlainRow], ends: Ends<'_>) -> bool {
    let mut rows = rows.iter();
    for row in plain.iter().filter(|row| ends.have(row)) {
        match rows.next() {
            Some(lent) if lent.e == row.e && is_lent(&lent.tuple, &row.tuple) => {}
            _ => return false,
        }
    }
    rows.next().is_none()
}

fn is_lent(tuple: &[Option<&Value>], plain: &[Option<Value>]) -> bool {
    tuple.iter().copied().eq(plain.iter().map(Option::as_ref))
}

/// Where a range begins and ends, or none.
#[derive(Clone, Copy)]
struct Ends<'b> {
    start: Option<&'b [Option<Value>]>,
    end: Option<&'b [Option<Value>]>,
}

impl Ends<'_> {
    fn none() -> Ends<'static> {
        Ends {
            start: None,
            end: None,
        }
    }

    fn have(&self, row: &PlainRow) -> bool {
        self.start.is_none_or(|start| row.tuple.as_slice() >= start)
            && self.end.is_none_or(|end| row.tuple.as_slice() < end)
    }
}

/// No bound, or one of up to three members, each of which is nil or a small number.
fn drawn_bound(alloc: Global, dice: &mut Dice) -> Result<Option<Vec<Option<Value>>>> {
    if dice.once_in(5) {
        return Ok(None);
    }
    let mut bound = Vec::new(alloc);
    for _ in 0..dice.roll(4) {
        bound.push(drawn_member(dice))?;
    }
    Ok(Some(bound))
}

fn drawn_member(dice: &mut Dice) -> Option<Value> {
    match dice.roll(5) {
        0 => None,
        n => Some(Value::Long(n as i64 - 1)),
    }
}
