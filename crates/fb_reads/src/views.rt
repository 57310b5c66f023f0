//! The turns of a view: what the later looks see. The line is written first, so that a view changes only where all
//! went well.
ghost use Rattle.std.specs.Prelude.{◌≡◌, [], OnOk, OnErr, if◌then◌else◌, is_some, map};
ghost use Rattle.edn_form.specs.View.{form_of};
ghost use Rattle.fb_model.specs.History.{basis};
ghost use Rattle.view_model.specs.Window as window;
ghost use Rattle.fb_db.specs.Seen.{window_of};
ghost use Rattle.read_model.specs.Points.{point_in};
ghost use Rattle.talk_model.specs.Replies.{done_reply, IsLineOf};
ghost use Rattle.talk_model.specs.Looks.{refused};
ghost use Rattle.talk_model.specs.Reads.{done_at};
ghost use Rattle.talk_model.specs.Session.{with_name};
ghost use Rattle.fb_reads.specs.Answers.{narrowed, no_filter as model_no_filter};

use crate::lines::refuse;
use edn_form::Edn;
use fb_db::Db;
use fb_memory::Memory;
use fb_names::point;
use fb_preds::{FilterTable, Picks, Selector};
use fb_replies::write_done;
use fb_text::Text;
use read_refusals::{Reason, Refusal};

/// `[:as-of point]`
pub fn see_as_of<S: Selector>(
    view: &mut Db<S>,
    form: &Edn,
    line: &mut Vec<u8>,
) -> Result<(), Memory>
    ensures line { OnOk result (IsLineOf
        (done_at (basis view.old.snapshot.entries)
        (point_in view.old.snapshot.entries (form_of form.now)))
        line.new.items) }
    ensures window { OnOk result (window_of view.new
        ≡ narrowed window.as_of (point_in view.old.snapshot.entries (form_of form.now))
        (window_of view.old)) }
    ensures unchanged { OnErr result (window_of view.new ≡ window_of view.old) }
    ensures snapshot { view.new.snapshot ≡ view.old.snapshot }
    ensures filter { view.new.filter ≡ view.old.filter }
{
    let basis = view.snapshot.basis();
    match point(&view.snapshot, form) {
        Ok(end) => {
            write_done(line, basis)?;
            view.as_of(end);
            Ok(())
        }
        Err(refusal) => refuse(line, refusal, basis),
    }
}

/// `[:since point]`
pub fn see_since<S: Selector>(
    view: &mut Db<S>,
    form: &Edn,
    line: &mut Vec<u8>,
) -> Result<(), Memory>
    ensures line { OnOk result (IsLineOf
        (done_at (basis view.old.snapshot.entries)
        (point_in view.old.snapshot.entries (form_of form.now)))
        line.new.items) }
    ensures window { OnOk result (window_of view.new
        ≡ narrowed window.since (point_in view.old.snapshot.entries (form_of form.now))
        (window_of view.old)) }
    ensures unchanged { OnErr result (window_of view.new ≡ window_of view.old) }
    ensures snapshot { view.new.snapshot ≡ view.old.snapshot }
    ensures filter { view.new.filter ≡ view.old.filter }
{
    let basis = view.snapshot.basis();
    match point(&view.snapshot, form) {
        Ok(end) => {
            write_done(line, basis)?;
            view.since(end);
            Ok(())
        }
        Err(refusal) => refuse(line, refusal, basis),
    }
}

/// `[:history]`
pub fn see_history<S: Selector>(view: &mut Db<S>, line: &mut Vec<u8>) -> Result<(), Memory>
    ensures line { OnOk result
        (IsLineOf (done_reply (basis view.old.snapshot.entries)) line.new.items) }
    ensures window { OnOk result (window_of view.new ≡ window.with_history (window_of view.old)) }
    ensures unchanged { OnErr result (window_of view.new ≡ window_of view.old) }
    ensures snapshot { view.new.snapshot ≡ view.old.snapshot }
    ensures filter { view.new.filter ≡ view.old.filter }
{
    write_done(line, view.snapshot.basis())?;
    view.with_history();
    Ok(())
}

/// `[:filter :name]`
pub fn add_filter<T: FilterTable>(
    view: &mut Db<Picks<'_, T>>,
    name: &Text,
    line: &mut Vec<u8>,
) -> Result<(), Memory>
    ensures line { let basis = basis view.old.snapshot.entries in OnOk result
        (IsLineOf
        (if is_some (T.place_of view.old.filter.table.now name.now) then done_reply basis
        else refused basis model_no_filter)
        line.new.items) }
    ensures names { let names = map (T.name_at view.old.filter.table.now)
        view.old.filter.places.items in OnOk result
        (map (T.name_at view.old.filter.table.now) view.new.filter.places.items
        ≡ (if is_some (T.place_of view.old.filter.table.now name.now) then with_name names name.now
        else names)) }
    ensures unchanged { OnErr result (view.new.filter.places.items ≡ view.old.filter.places.items) }
    ensures window { window_of view.new ≡ window_of view.old }
    ensures snapshot { view.new.snapshot ≡ view.old.snapshot }
    ensures table { view.new.filter.table ≡ view.old.filter.table }
{
    let basis = view.snapshot.basis();
    let Some(place) = view.filter.table.place(name) else {
        return refuse(line, no_filter(), basis);
    };
    write_done(line, basis)?;
    view.filter.add(place)
}

fn no_filter() -> Refusal
    ensures { result ≡ model_no_filter }
{
    Refusal {
        reason: Reason::NoFilter,
        at: 1,
    }
}

/// `[:unfilter]`
pub fn see_whole<T: FilterTable>(
    view: &mut Db<Picks<'_, T>>,
    line: &mut Vec<u8>,
) -> Result<(), Memory>
    ensures line { OnOk result
        (IsLineOf (done_reply (basis view.old.snapshot.entries)) line.new.items) }
    ensures window { OnOk result (window_of view.new ≡ window.whole) }
    ensures places { OnOk result (view.new.filter.places.items ≡ []) }
    ensures unchanged { OnErr result ((window_of view.new ≡ window_of view.old)
        × (view.new.filter.places.items ≡ view.old.filter.places.items)) }
    ensures snapshot { view.new.snapshot ≡ view.old.snapshot }
    ensures table { view.new.filter.table ≡ view.old.filter.table }
{
    write_done(line, view.snapshot.basis())?;
    view.widen();
    view.filter.clear();
    Ok(())
}
