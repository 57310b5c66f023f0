//! `[:tuple-range [a ..] start end]`: a range of the tuples of a composite, in the view.
ghost use Rattle.std.specs.Prelude.{ℕ, List, OnOk, Option, Some, map};
ghost use Rattle.std.specs.Option.{option_map};
ghost use Rattle.edn_form.specs.View.{form_of};
ghost use Rattle.fb_model.specs.History.{basis};
ghost use Rattle.fb_model.specs.Facts.{facts};
ghost use Rattle.fb_db.specs.Seen.{window_of};
ghost use Rattle.tx_model.specs.Step as model;
ghost use Rattle.tuple_model.specs.Tuples.{Tuple};
ghost use Rattle.tuple_model.specs.Given.{kinds_of, bound_in};
ghost use Rattle.tuple_model.specs.Seen.{AreTuplesIn};
ghost use Rattle.fb_tuples.specs.Lent.{model_row};
ghost use Rattle.talk_model.specs.Replies.{tuples_reply, IsLineOf};
ghost use Rattle.talk_model.specs.TupleRanges.{HasTuples, of_composite, between};
ghost use Rattle.fb_reads.specs.Answers.{IsLineFor, ShowsRange, sight_in};

use crate::lines::refuse_at;
use edn_form::Edn;
use fb_db::Db;
use fb_memory::Memory;
use fb_preds::{FilterTable, Picks, Selector};
use fb_replies::{what_is_said_has_a_text, write_tuples};
use fb_tuples::{LentRow, bound, composite, ranged};
use fb_values::Value;
use read_refusals::Reason;
use std::alloc::Global;
use view_model::what_is_seen_was_said;

/// Answers a range of tuples.
pub fn answer_tuples<T: FilterTable>(
    alloc: Global,
    view: &Db<Picks<'_, T>>,
    names: &Edn,
    start: &Edn,
    end: &Edn,
    line: &mut Vec<u8>,
) -> Result<(), Memory>
    ensures { (guard : model.Guard) → let table = view.now.filter.table.now in OnOk result
        (IsLineFor
        (HasTuples
        (sight_in (T.place_of table) (T.name_at table) (T.selects_at table)
        guard view.now.snapshot.entries (window_of view.now) view.now.filter.places.items)
        (form_of names.now) (form_of start.now) (form_of end.now))
        line.new.items) }
{
    match composite(alloc, view.snapshot.schema(), names)? {
        Some(attrs) => answer_composite(alloc, view, &attrs, start, end, line),
        None => refuse_at(line, view, Reason::BadTuple, 1),
    }
}

/// Answers a range of the tuples of a composite.
fn answer_composite<S: Selector>(
    alloc: Global,
    view: &Db<S>,
    attrs: &[u64],
    start: &Edn,
    end: &Edn,
    line: &mut Vec<u8>,
) -> Result<(), Memory>
    ensures { let h = view.now.snapshot.entries in OnOk result (IsLineFor
        (ShowsRange h (window_of view.now) (S.selects view.now.filter)
        (of_composite (facts h) view.now.history (Some attrs.now)
        (form_of start.now) (form_of end.now)))
        line.new.items) }
{
    match bound(alloc, view.snapshot.schema(), attrs, start)? {
        Some(start) => answer_from(alloc, view, attrs, start.as_deref(), end, line),
        None => refuse_at(line, view, Reason::BadComponent, 2),
    }
}

/// Answers a range with a start that was read.
fn answer_from<S: Selector>(
    alloc: Global,
    view: &Db<S>,
    attrs: &[u64],
    start: Option<&[Option<Value>]>,
    end: &Edn,
    line: &mut Vec<u8>,
) -> Result<(), Memory>
    ensures { let h = view.now.snapshot.entries in OnOk result (IsLineFor
        (ShowsRange h (window_of view.now) (S.selects view.now.filter)
        (between view.now.history attrs.now (Some (option_map (λ b. b.now) start.entry))
        (bound_in (kinds_of (facts h) attrs.now) (form_of end.now))))
        line.new.items) }
{
    match bound(alloc, view.snapshot.schema(), attrs, end)? {
        Some(end) => answer_between(alloc, view, attrs, start, end.as_deref(), line),
        None => refuse_at(line, view, Reason::BadComponent, 3),
    }
}

/// Answers a range with bounds that were read.
fn answer_between<S: Selector>(
    alloc: Global,
    view: &Db<S>,
    attrs: &[u64],
    start: Option<&[Option<Value>]>,
    end: Option<&[Option<Value>]>,
    line: &mut Vec<u8>,
) -> Result<(), Memory>
    ensures { let h = view.now.snapshot.entries in OnOk result (IsLineFor
        (ShowsRange h (window_of view.now) (S.selects view.now.filter)
        (between view.now.history attrs.now (Some (option_map (λ b. b.now) start.entry))
        (Some (option_map (λ b. b.now) end.entry))))
        line.new.items) }
{
    if view.history {
        return refuse_at(line, view, Reason::History, 0);
    }
    let rows = ranged(alloc, view, attrs, start, end)?;
    write_rows(line, view, &rows)
}

/// The line of a range of tuples of the view.
fn write_rows<S: Selector>(
    line: &mut Vec<u8>,
    view: &Db<S>,
    rows: &[LentRow<'_>],
) -> Result<(), Memory>
    requires { (attrs : List ℕ)
        × (start : Option Tuple)
        × (end : Option Tuple)
        × AreTuplesIn view.now.snapshot.entries (window_of view.now) (S.selects view.now.filter)
        attrs start end (map model_row rows.now) }
    ensures { OnOk result (IsLineOf
        (tuples_reply (basis view.now.snapshot.entries) (map model_row rows.now)) line.new.items) }
{
    what_is_seen_was_said();
    what_is_said_has_a_text();
    write_tuples(line, view.snapshot.basis(), rows)
}
