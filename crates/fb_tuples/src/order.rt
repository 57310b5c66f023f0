//! The part of the rows that a range has.
ghost use Rattle.std.specs.Prelude.{◌≡◌, ◌≤◌, map, length, take, drop, IsTrue, Some, None};
ghost use Rattle.std.specs.Option.{option_map};
ghost use Rattle.tuple_model.specs.Tuples.{Row as TheRow, tuple_cmp as model_tuple_cmp, member_cmp as model_member_cmp, rows_rise, range};
ghost use Rattle.fb_tuples.specs.Lent.{model_row, tuple_lent, is_below as model_is_below};

use crate::kept::{Row, cmp_tuples};
use crate::rows::LentRow;
use fb_values::Value;
use std::cmp::Ordering;

/// What is compared with bounds.
pub(crate) trait Bounded {
    /// The row that it stands for.
    ghost stands_for: { Self → TheRow };

    /// Whether its tuple is below the bound.
    fn is_below(&self, bound: &[Option<Value>]) -> bool
        ensures { result ≡ model_is_below bound.now (stands_for self.now) };
}

impl Bounded for LentRow<'_> {
    ghost stands_for = { model_row };

    fn is_below(&self, bound: &[Option<Value>]) -> bool {
        tuple_cmp(&self.tuple, bound) == Ordering::Less
    }
}

impl Bounded for Row {
    ghost stands_for = { λ row. row };

    fn is_below(&self, bound: &[Option<Value>]) -> bool {
        cmp_tuples(self.tuple(), bound) == Ordering::Less
    }
}

/// The rows from the start on and before the end, found by two searches.
pub fn within<'r, 'a>(
    rows: &'r [LentRow<'a>],
    start: Option<&[Option<Value>]>,
    end: Option<&[Option<Value>]>,
) -> &'r [LentRow<'a>]
    requires { IsTrue (rows_rise (map model_row rows.now)) }
    ensures { map model_row result.now
        ≡ range (option_map (λ bound. bound.now) start.entry) (option_map (λ bound. bound.now) end.entry)
        (map model_row rows.now) }
{
    part(rows, start, end)
}

/// The part of rows that rise, found by two searches.
pub(crate) fn part<'r, R: Bounded>(
    rows: &'r [R],
    start: Option<&[Option<Value>]>,
    end: Option<&[Option<Value>]>,
) -> &'r [R]
    requires { IsTrue (rows_rise (map R.stands_for rows.now)) }
    ensures { map R.stands_for result.now
        ≡ range (option_map (λ bound. bound.now) start.entry) (option_map (λ bound. bound.now) end.entry)
        (map R.stands_for rows.now) }
{
    before(from(rows, start), end)
}

/// The rows that are not below the start.
fn from<'r, R: Bounded>(rows: &'r [R], start: Option<&[Option<Value>]>) -> &'r [R]
    requires { IsTrue (rows_rise (map R.stands_for rows.now)) }
    ensures rows { map R.stands_for result.now
        ≡ range (option_map (λ bound. bound.now) start.entry) None (map R.stands_for rows.now) }
    ensures rising { IsTrue (rows_rise (map R.stands_for result.now)) }
{
    match start {
        Some(bound) => &rows[count_below(rows, bound)..],
        None => rows,
    }
}

/// The rows that are below the end.
fn before<'r, R: Bounded>(rows: &'r [R], end: Option<&[Option<Value>]>) -> &'r [R]
    requires { IsTrue (rows_rise (map R.stands_for rows.now)) }
    ensures { map R.stands_for result.now
        ≡ range None (option_map (λ bound. bound.now) end.entry) (map R.stands_for rows.now) }
{
    match end {
        Some(bound) => &rows[..count_below(rows, bound)],
        None => rows,
    }
}

/// How many rows are below the bound: these are the first ones.
fn count_below<R: Bounded>(rows: &[R], bound: &[Option<Value>]) -> usize
    requires { IsTrue (rows_rise (map R.stands_for rows.now)) }
    ensures within { result ≤ length rows.now }
    ensures below { map R.stands_for (take result rows.now)
        ≡ range None (Some bound.now) (map R.stands_for rows.now) }
    ensures behind { map R.stands_for (drop result rows.now)
        ≡ range (Some bound.now) None (map R.stands_for rows.now) }
{
    rows.partition_point(|row| row.is_below(bound))
}

/// By the first member that differs, and then by the length.
fn tuple_cmp(tuple: &[Option<&Value>], bound: &[Option<Value>]) -> Ordering
    ensures { result ≡ model_tuple_cmp (tuple_lent tuple.now) bound.now }
{
    match (tuple, bound) {
        ([], []) => Ordering::Equal,
        ([], [_, ..]) => Ordering::Less,
        ([_, ..], []) => Ordering::Greater,
        ([member, members @ ..], [other, others @ ..]) => match member_cmp(*member, other) {
            Ordering::Equal => tuple_cmp(members, others),
            decided => decided,
        },
    }
}

fn member_cmp(member: Option<&Value>, other: &Option<Value>) -> Ordering
    ensures { result ≡ model_member_cmp (option_map (λ v. v.now) member.entry) other.now }
{
    match (member, other) {
        (None, None) => Ordering::Equal,
        (None, Some(_)) => Ordering::Less,
        (Some(_), None) => Ordering::Greater,
        (Some(v), Some(w)) => v.cmp(w),
    }
}
