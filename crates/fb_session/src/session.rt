//! What a session keeps between two commands.
ghost use Rattle.std.specs.Prelude.{◌≡◌, ◌<◌, IfOk, OnOk, vec_len, vec_capacity, map};
ghost use Rattle.fb_model.specs.History.{basis};
ghost use Rattle.fb_session.specs.Sessions.{IsOpened, Forgets, filter_of, served_by};

use crate::line::Line;
use crate::outcome::{Places, Served, SessionEnd};
use crate::waiting::Waiting;
use fb_db::Db;
use fb_desk::Desk;
use fb_memory::Memory;
use fb_preds::{FilterTable, Picks, Selector};
use fb_view::Snapshot;
use std::alloc::Global;

/// A session with such a filter: what its reads see, what it answered so far, and the lines that
/// wait to go out together.
#[derive(Drop)]
pub struct Session<S> {
    /// What its reads see. The snapshot is the last one that the desk was answered.
    pub(crate) view: Db<S>,
    /// For each line that was written whole or waits, the t of the last entry that it rests on.
    pub(crate) places: Vec<u32>,
    /// The t of each transaction that was committed.
    pub(crate) commits: Vec<u32>,
    /// The line that was built last.
    pub(crate) line: Line,
    /// The lines that go out next.
    pub(crate) waiting: Waiting,
}

impl<'p, P: FilterTable> Session<Picks<'p, P>> {
    /// A session that has seen what the desk was answered last, and did nothing yet.
    pub fn open<T: Desk>(
        alloc: Global,
        desk: &T,
        preds: &'p P,
    ) -> Result<Session<Picks<'p, P>>, Memory>
        ensures opened { IfOk result (λ session. IsOpened session
            (λ p. map (P.name_at p.table.now) p.places.items) (T.state desk.now)) }
        ensures table { IfOk result (λ session. (filter_of session).table.now ≡ preds.now) }
    {
        let snapshot = desk.snapshot().share()?;
        // This call brings into the proof that the snapshot's history is lawful.
        let _basis = snapshot.basis();
        Ok(Session {
            view: Db::of(snapshot, Picks::none(alloc, preds)),
            places: Vec::new(alloc),
            commits: Vec::new(alloc),
            line: Line::empty(alloc),
            waiting: Waiting::none(alloc),
        })
    }
}

impl<S: Selector> Session<S> {
    /// Makes room for one more place and one more commit.
    pub(crate) fn make_room(&mut self) -> Result<(), Memory>
        ensures view { self.new.view ≡ self.old.view }
        ensures places { self.new.places.items ≡ self.old.places.items }
        ensures commits { self.new.commits.items ≡ self.old.commits.items }
        ensures waiting { self.new.waiting ≡ self.old.waiting }
        ensures place { OnOk result (vec_len self.new.places < vec_capacity self.new.places) }
        ensures commit { OnOk result (vec_len self.new.commits < vec_capacity self.new.commits) }
    {
        self.places.reserve(1)?;
        self.commits.reserve(1)?;
        Ok(())
    }

    /// Lets go of where it answered so far and of what it committed. It goes on as before.
    pub fn forget(&mut self)
        ensures { Forgets self.old self.new }
    {
        self.places.clear();
        self.commits.clear();
    }

    /// Sees this from now on, through the same window and filters.
    pub(crate) fn see(&mut self, snapshot: Snapshot)
        ensures snapshot { self.new.view ≡ record self.old.view { snapshot = snapshot } }
        ensures rest { self.new ≡ record self.old { view = self.new.view } }
    {
        self.view.snapshot = snapshot;
    }

    /// The t up to which it has seen the history.
    pub(crate) fn place(&self) -> u32
        ensures { result ≡ basis self.now.view.snapshot.entries }
    {
        self.view.snapshot.basis()
    }

    pub(crate) fn served(self, end: SessionEnd) -> Served
        ensures { result ≡ served_by self end }
    {
        Served {
            end,
            places: Places::of(self.places),
            commits: Places::of(self.commits),
        }
    }
}
