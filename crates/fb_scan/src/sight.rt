//! What a database value sees of an index: its window comes first, and then its filter.
ghost use Rattle.std.specs.Prelude.{◌≡◌, ◌&&◌, ◌↔◌, IsTrue};
ghost use Rattle.std.specs.Option.{option_copied};
ghost use Rattle.fb_db.specs.Seen.{window_of};
ghost use Rattle.fb_scan.specs.Steps.{showing};
ghost use Rattle.fb_scan.specs.Walks.{extent_of, is_followed, is_shown};

use fb_db::Db;
use fb_index::Extent;
use fb_preds::Selector;
use fb_values::Datom;

/// What a walk reads: where the window shows no history and ends after the last entry, what holds is enough.
pub fn extent_of<S: Selector>(db: &Db<S>, history: bool) -> Extent
    ensures { result ≡ extent_of db.now.snapshot.entries (window_of (showing history db.now)) }
{
    if !history && db.snapshot.basis() < db.to {
        Extent::Held
    } else {
        Extent::Said
    }
}

/// Whether the index holds the datom, the window shows it beside the next one, and the filter selects it.
pub fn sees<S: Selector>(
    db: &Db<S>,
    history: bool,
    extent: Extent,
    held: bool,
    d: &Datom,
    next: Option<&Datom>,
) -> bool
    ensures { IsTrue result
        ↔ (IsTrue (held && is_shown extent (window_of (showing history db.now)) d.now
        (option_copied next.entry))
        × S.selects db.now.filter d.now) }
{
    held && shows(db, history, extent, d, next) && db.filter.test(d)
}

/// Whether the window shows the datom beside the next one.
fn shows<S: Selector>(
    db: &Db<S>,
    history: bool,
    extent: Extent,
    d: &Datom,
    next: Option<&Datom>,
) -> bool
    ensures { result ≡ is_shown extent (window_of (showing history db.now)) d.now
        (option_copied next.entry) }
{
    let within = db.from <= d.t && d.t < db.to;
    match extent {
        Extent::Held => within,
        Extent::Said => within && (history || (d.added && !is_followed(db, d, next))),
    }
}

/// Whether the next datom is of the same triple, and comes before the window's end.
fn is_followed<S: Selector>(db: &Db<S>, d: &Datom, next: Option<&Datom>) -> bool
    ensures { result ≡ is_followed (window_of db.now) d.now (option_copied next.entry) }
{
    match next {
        None => false,
        Some(next) => next.e == d.e && next.a == d.a && next.v == d.v && next.t < db.to,
    }
}
