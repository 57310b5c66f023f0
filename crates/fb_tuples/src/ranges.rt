//! The rows of a composite that are in a range.
ghost use Rattle.std.specs.Prelude.{◌≡◌, IfOk, map, false, slice_get, Some, None};
ghost use Rattle.std.specs.Option.{option_map, option_map_or};
ghost use Rattle.fb_db.specs.Seen.{window_of};
ghost use Rattle.tuple_model.specs.Seen.{AreTuplesIn};
ghost use Rattle.tuple_model.specs.Tuples.{Tuple, is_in_range as model_is_in_range};
ghost use Rattle.fb_tuples.specs.Lent.{model_row};
ghost use Rattle.fb_tuples.specs.Reached.{HasRange, first_member};

use crate::order::Bounded;
use crate::reach::{Reach, reached_rows};
use crate::rows::{LentRow, all_rows};
use fb_db::Db;
use fb_memory::Memory;
use fb_preds::Selector;
use fb_values::Value;
use std::alloc::Global;

/// The rows of all entities that have a value of one of the attributes, in order.
pub fn lent<'a, S: Selector>(
    alloc: Global,
    db: &'a Db<S>,
    attrs: &[u64],
) -> Result<Vec<LentRow<'a>>, Memory>
    // A view that shows its history has no tuples.
    requires { db.now.history ≡ false }
    ensures { IfOk result (λ rows. AreTuplesIn db.now.snapshot.entries (window_of db.now)
        (S.selects db.now.filter) attrs.now None None (map model_row rows.items)) }
{
    ranged(alloc, db, attrs, None, None)
}

/// The rows from the start on and before the end, in order. Where the start begins with a value, k rows cost k log n: of
/// an attribute that AVET does not hold, all datoms are walked besides.
pub fn ranged<'a, S: Selector>(
    alloc: Global,
    db: &'a Db<S>,
    attrs: &[u64],
    start: Option<&[Option<Value>]>,
    end: Option<&[Option<Value>]>,
) -> Result<Vec<LentRow<'a>>, Memory>
    // A view that shows its history has no tuples.
    requires { db.now.history ≡ false }
    ensures { IfOk result (λ rows. AreTuplesIn db.now.snapshot.entries (window_of db.now)
        (S.selects db.now.filter) attrs.now (option_map (λ b. b.now) start.entry)
        (option_map (λ b. b.now) end.entry) (map model_row rows.items)) }
{
    let mut rows = candidates(alloc, db, attrs, start, end)?;
    rows.retain(|row| is_in_range(row, start, end));
    rows.sort_unstable();
    Ok(rows)
}

/// Rows among which are those of the range. Where the start begins with a value, no row is in the range whose entity has
/// no value of the first attribute from there on.
fn candidates<'a, S: Selector>(
    alloc: Global,
    db: &'a Db<S>,
    attrs: &[u64],
    start: Option<&[Option<Value>]>,
    end: Option<&[Option<Value>]>,
) -> Result<Vec<LentRow<'a>>, Memory>
    requires { db.now.history ≡ false }
    ensures { IfOk result (λ rows. HasRange db.now.snapshot.entries (window_of db.now)
        (S.selects db.now.filter) attrs.now (option_map (λ b. b.now) start.entry)
        (option_map (λ b. b.now) end.entry) (map model_row rows.items)) }
{
    match (beginning(start), attrs.first()) {
        (Some(least), Some(a)) => behind(alloc, db, attrs, *a, least, end),
        _ => all_rows(alloc, db, attrs),
    }
}

/// Rows among which are those of a range whose start begins with the value. Where the end begins with none, it is below
/// all of these.
fn behind<'a, S: Selector>(
    alloc: Global,
    db: &'a Db<S>,
    attrs: &[u64],
    a: u64,
    least: &Value,
    end: Option<&[Option<Value>]>,
) -> Result<Vec<LentRow<'a>>, Memory>
    requires { db.now.history ≡ false }
    ensures { (bound : Tuple) → first_member bound ≡ Some least.now → slice_get attrs.now 0 ≡ Some a
        → IfOk result (λ rows. HasRange db.now.snapshot.entries (window_of db.now)
        (S.selects db.now.filter) attrs.now (Some bound) (option_map (λ b. b.now) end.entry)
        (map model_row rows.items)) }
{
    match (end, beginning(end)) {
        (Some(_), None) => Ok(Vec::new(alloc)),
        (_, greatest) => reached_rows(alloc, db, attrs, a, Reach { least, greatest }),
    }
}

/// The first value of the bound, if it begins with one.
fn beginning(bound: Option<&[Option<Value>]>) -> Option<&Value>
    ensures { option_map (λ v. v.now) result
        ≡ option_map_or first_member (option_map (λ b. b.now) bound.entry) None }
{
    match bound {
        Some([Some(first), ..]) => Some(first),
        _ => None,
    }
}

/// Whether the row is not below the start, and is below the end.
fn is_in_range(
    row: &LentRow<'_>,
    start: Option<&[Option<Value>]>,
    end: Option<&[Option<Value>]>,
) -> bool
    ensures { result ≡ model_is_in_range (option_map (λ b. b.now) start.entry)
        (option_map (λ b. b.now) end.entry) (model_row row.now) }
{
    let is_reached = match start {
        Some(bound) => !row.is_below(bound),
        None => true,
    };
    let is_left = match end {
        Some(bound) => row.is_below(bound),
        None => true,
    };
    is_reached && is_left
}
