//! The commands that look: the datoms of an index, and the transactions of the log. Nothing is copied of the history.
ghost use Rattle.std.specs.Prelude.{◌≡◌, OnOk, IfOk, map};
ghost use Rattle.edn_form.specs.View.{form_of, forms_of};
ghost use Rattle.fb_values.specs.declared.indexes.Order.{Order};
ghost use Rattle.fb_model.specs.History.{basis};
ghost use Rattle.fb_model.specs.Facts.{facts};
ghost use Rattle.view_model.specs.Scan.{Range, IsScan, leading, not_below, transactions};
ghost use Rattle.fb_db.specs.Seen.{window_of};
ghost use Rattle.read_model.specs.Points.{log_range as model_log_range};
ghost use Rattle.talk_model.specs.Replies.{datoms_reply, transactions_reply, IsLineOf};
ghost use Rattle.talk_model.specs.Looks.{Shows, HasDatomsAt, HasDatomsBetween, HasTransactions};
ghost use Rattle.fb_reads.specs.Answers.{IsLineFor};

use crate::lines::{refuse, refuse_stop};
use edn_form::Edn;
use fb_db::Db;
use fb_memory::Memory;
use fb_names::{LogRange, components, log_range};
use fb_preds::Selector;
use fb_replies::{
    a_schema_tells_its_history, what_is_said_has_a_text, write_datoms, write_transactions,
};
use fb_scan::{Bounds, Txs, tx_range};
use fb_values::{Datom, Entry, Order};
use fb_view::Snapshot;
use std::alloc::Global;
use view_model::what_is_seen_was_said;

/// `[:datoms index c ..]`
pub fn answer_datoms<S: Selector>(
    alloc: Global,
    view: &Db<S>,
    order: Order,
    given: &[Edn],
    line: &mut Vec<u8>,
) -> Result<(), Memory>
    ensures { OnOk result (IsLineFor
        (HasDatomsAt view.now.snapshot.entries (window_of view.now) (S.selects view.now.filter) order leading (forms_of given.now))
        line.new.items) }
{
    match components(view, order, given) {
        Ok(probe) => {
            let found = fb_scan::lent::datoms(alloc, view, &probe)?;
            write_found(line, view, &found)
        }
        Err(stop) => refuse_stop(line, stop, view.snapshot.basis()),
    }
}

/// `[:seek index c ..]`
pub fn answer_seek<S: Selector>(
    alloc: Global,
    view: &Db<S>,
    order: Order,
    given: &[Edn],
    line: &mut Vec<u8>,
) -> Result<(), Memory>
    ensures { OnOk result (IsLineFor
        (HasDatomsAt view.now.snapshot.entries (window_of view.now) (S.selects view.now.filter) order not_below (forms_of given.now))
        line.new.items) }
{
    match components(view, order, given) {
        Ok(probe) => {
            let found = fb_scan::lent::seek(alloc, view, &probe)?;
            write_found(line, view, &found)
        }
        Err(stop) => refuse_stop(line, stop, view.snapshot.basis()),
    }
}

/// `[:index-range a start end]`
pub fn answer_index_range<S: Selector>(
    alloc: Global,
    view: &Db<S>,
    a: &Edn,
    start: &Edn,
    end: &Edn,
    line: &mut Vec<u8>,
) -> Result<(), Memory>
    ensures { OnOk result (IsLineFor
        (HasDatomsBetween view.now.snapshot.entries (window_of view.now) (S.selects view.now.filter)
        (form_of a.now) (form_of start.now) (form_of end.now))
        line.new.items) }
{
    match fb_names::index_range(view, a, start, end) {
        Ok(range) => {
            let bounds = Bounds {
                start: range.start,
                end: range.end,
            };
            let found = fb_scan::lent::index_range(alloc, view, range.attribute, bounds)?;
            write_found(line, view, &found)
        }
        Err(stop) => refuse_stop(line, stop, view.snapshot.basis()),
    }
}

/// The line of what a scan of the view found.
fn write_found<S: Selector>(
    line: &mut Vec<u8>,
    view: &Db<S>,
    found: &[&Datom],
) -> Result<(), Memory>
    requires { (order : Order)
        × (range : Range)
        × IsScan view.now.snapshot.entries (window_of view.now) (S.selects view.now.filter) order
        range (map (λ d. d.now) found.now) }
    ensures { OnOk result (IsLineOf
        (datoms_reply (basis view.now.snapshot.entries) (facts view.now.snapshot.entries)
        (map (λ d. d.now) found.now))
        line.new.items) }
{
    what_is_seen_was_said();
    what_is_said_has_a_text();
    a_schema_tells_its_history();
    let snapshot = &view.snapshot;
    write_datoms(line, snapshot.basis(), snapshot.schema(), found)
}

/// `[:tx-range start end]`: whatever the window and the filters.
pub fn answer_tx_range(
    alloc: Global,
    snapshot: &Snapshot,
    start: &Edn,
    end: &Edn,
    line: &mut Vec<u8>,
) -> Result<(), Memory>
    ensures { OnOk result (IsLineFor
        (Shows (basis snapshot.now.entries)
        (HasTransactions snapshot.now.entries)
        (model_log_range snapshot.now.entries (form_of start.now) (form_of end.now)))
        line.new.items) }
{
    match log_range(snapshot, start, end) {
        Ok(range) => write_log(alloc, line, snapshot, range),
        Err(refusal) => refuse(line, refusal, snapshot.basis()),
    }
}

/// The line of the transactions of the range.
fn write_log(
    alloc: Global,
    line: &mut Vec<u8>,
    snapshot: &Snapshot,
    range: LogRange,
) -> Result<(), Memory>
    ensures { OnOk result (IsLineOf
        (transactions_reply (basis snapshot.now.entries) (facts snapshot.now.entries)
        (transactions snapshot.now.entries range.start range.stop))
        line.new.items) }
{
    what_is_said_has_a_text();
    a_schema_tells_its_history();
    let entries = lent(alloc, tx_range(snapshot, range.start, range.stop))?;
    write_transactions(line, snapshot.basis(), snapshot.schema(), &entries)
}

/// References to the entries.
fn lent<'a>(alloc: Global, mut txs: Txs<'a>) -> Result<Vec<&'a Entry>, Memory>
    ensures { IfOk result (λ entries. map (λ entry. entry.now) entries.items ≡ txs.entry) }
{
    let mut entries = Vec::new(alloc);
    while let Some(entry) = txs.next() {
        entries.push(entry)?;
    }
    Ok(entries)
}
