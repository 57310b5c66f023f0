//! Whether two entries are the same.
ghost use Rattle.std.specs.Prelude.{◌≡◌, ◌↔◌, slice_get, Some, IsTrue};
ghost use Rattle.std.specs.Bool.{Decides};
ghost use Rattle.fb_model.specs.Facts.{is_of};

use fb_history::EntryList;
use fb_values::{Datom, Entry};

/// Whether the history's entry of this t is that one.
pub(crate) fn has_at(entries: &EntryList, t: u32, entry: &Entry) -> bool
    ensures { Decides result (slice_get entries.now t ≡ Some entry.now) }
{
    t < entries.len() && is_same(entries.at(t), entry)
}

fn is_same(x: &Entry, y: &Entry) -> bool
    ensures { Decides result (x.now ≡ y.now) }
{
    x.t == y.t && x.instant == y.instant && are_same(x.datoms.as_slice(), y.datoms.as_slice())
}

fn are_same(xs: &[Datom], ys: &[Datom]) -> bool
    ensures { Decides result (xs.now ≡ ys.now) }
{
    if xs.len() != ys.len() {
        return false;
    }
    for (place, x) in xs.iter().enumerate() {
        if !is_same_datom(x, &ys[place]) {
            return false;
        }
    }
    true
}

fn is_same_datom(x: &Datom, y: &Datom) -> bool
    ensures { Decides result (x.now ≡ y.now) }
{
    have_one_triple(x, y) && are_of_one_change(x, y)
}

fn have_one_triple(x: &Datom, y: &Datom) -> bool
    ensures { result ≡ is_of y.now.e y.now.a y.now.v x.now }
{
    x.e == y.e && x.a == y.a && x.v == y.v
}

fn are_of_one_change(x: &Datom, y: &Datom) -> bool
    ensures { IsTrue result ↔ ((x.now.t ≡ y.now.t) × (x.now.added ≡ y.now.added)) }
{
    x.t == y.t && x.added == y.added
}
