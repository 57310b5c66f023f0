//! The first datom of a scan, where no other is asked for. One seek finds it, and no memory is taken.
ghost use Rattle.std.specs.Option.{option_copied};
ghost use Rattle.view_model.specs.Scan.{leading};
ghost use Rattle.view_model.specs.Window.{without_history};
ghost use Rattle.fb_db.specs.Seen.{window_of};
ghost use Rattle.fb_scan.specs.Firsts.{IsFirst};
ghost use Rattle.fb_scan.specs.Steps.{showing};

use crate::ends::End;
use crate::walk::Scan;
use fb_db::Db;
use fb_preds::Selector;
use fb_values::{Datom, Probe};

/// The first of the datoms that have the probe's leading components.
pub fn first_row<'a, S: Selector>(db: &'a Db<S>, probe: &Probe) -> Option<&'a Datom>
    ensures { IsFirst db.now.snapshot.entries (window_of db.now) (S.selects db.now.filter)
        probe.now.order (leading probe.now) (option_copied result) }
{
    first_showing(db, db.history, probe)
}

/// The same in the view without history, whatever the database value shows.
pub fn first_present<'a, S: Selector>(db: &'a Db<S>, probe: &Probe) -> Option<&'a Datom>
    ensures { IsFirst db.now.snapshot.entries (without_history (window_of db.now))
        (S.selects db.now.filter) probe.now.order (leading probe.now) (option_copied result) }
{
    first_showing(db, false, probe)
}

fn first_showing<'a, S: Selector>(db: &'a Db<S>, history: bool, probe: &Probe) -> Option<&'a Datom>
    ensures { IsFirst db.now.snapshot.entries (window_of (showing history db.now))
        (S.selects db.now.filter) probe.now.order (leading probe.now) (option_copied result) }
{
    let mut scan = Scan::showing(db, history, probe, End::Behind(probe));
    match scan.next() {
        Some(datom) => Some(datom),
        None => None,
    }
}
