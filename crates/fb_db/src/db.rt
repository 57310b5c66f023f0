//! The value, and how a point in time and the history flag change its window.
ghost use Rattle.std.specs.Prelude.{◌≡◌};
ghost use Rattle.view_model.specs.Window as window;
ghost use Rattle.fb_db.specs.Seen.{window_of};

use fb_preds::Selector;
use fb_view::Snapshot;

/// One past the greatest t.
const END: u32 = 1 << 31;

/// A snapshot, of which reads see the datoms from t `from` on and before t `to`, also those that hold no longer where
/// `history` says so, as far as the filter selects them.
#[derive(Drop)]
pub struct Db<S> {
    pub snapshot: Snapshot,
    pub from: u32,
    pub to: u32,
    pub history: bool,
    pub filter: S,
}

impl<S: Selector> Db<S> {
    /// All of the snapshot that the filter selects.
    pub fn of(snapshot: Snapshot, filter: S) -> Db<S>
        ensures snapshot { result.snapshot ≡ snapshot }
        ensures window { window_of result ≡ window.whole }
        ensures filter { result.filter ≡ filter }
    {
        Db {
            snapshot,
            from: 0,
            to: END,
            history: false,
            filter,
        }
    }

    /// Sees nothing from the end on.
    pub fn as_of(&mut self, end: u32)
        ensures window { window_of self.new ≡ window.as_of end (window_of self.old) }
        ensures snapshot { self.new.snapshot ≡ self.old.snapshot }
        ensures filter { self.new.filter ≡ self.old.filter }
    {
        self.to = self.to.min(end);
    }

    /// Sees nothing before the end.
    pub fn since(&mut self, end: u32)
        ensures window { window_of self.new ≡ window.since end (window_of self.old) }
        ensures snapshot { self.new.snapshot ≡ self.old.snapshot }
        ensures filter { self.new.filter ≡ self.old.filter }
    {
        self.from = self.from.max(end);
    }

    /// Sees also what was retracted, and the retractions.
    pub fn with_history(&mut self)
        ensures window { window_of self.new ≡ window.with_history (window_of self.old) }
        ensures snapshot { self.new.snapshot ≡ self.old.snapshot }
        ensures filter { self.new.filter ≡ self.old.filter }
    {
        self.history = true;
    }

    /// Sees the whole again that the filter selects.
    pub fn widen(&mut self)
        ensures window { window_of self.new ≡ window.whole }
        ensures snapshot { self.new.snapshot ≡ self.old.snapshot }
        ensures filter { self.new.filter ≡ self.old.filter }
    {
        self.from = 0;
        self.to = END;
        self.history = false;
    }
}
