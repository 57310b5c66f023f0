//! Which command a form is, and its line.
ghost use denote.Param.Send.{IsSync};
ghost use Rattle.std.specs.Prelude.{◌≡◌, ◌<◌, OnOk, OnErr, vec_len, vec_capacity, is_some, map, None};
ghost use Rattle.std.specs.Option.{option_map};
ghost use Rattle.edn_form.specs.View.{form_of};
ghost use Rattle.fb_model.specs.History.{basis};
ghost use Rattle.talk_model.specs.Session.{Standing};
ghost use Rattle.talk_model.specs.Replies.{basis_reply, IsLineOf};
ghost use Rattle.fb_preds.specs.Naming.{selected_by};
ghost use Rattle.fb_commands.specs.View.{model_read};
ghost use Rattle.fb_desk.specs.Desks.{GoesOn, glanced, loaded};
ghost use Rattle.fb_session.specs.Sessions.{HasStanding, Shows, KeepsCommit, LoadsOnceAtMost, AnswersRead, Answered, Unanswered};
ghost use Rattle.fb_session.specs.Terms.{terms_at};

use crate::session::Session;
use edn_form::Edn;
use fb_commands::{Command, Read, command_in};
use fb_desk::{Desk, Glance};
use fb_memory::Memory;
use fb_ports::Clock;
use fb_preds::{FilterTable, Picks, Selector};
use fb_reads::answer_read;
use fb_replies::write_basis;
use fb_view::Snapshot;
use std::alloc::Global;
use std::sync::Wait;
use std::thread::Threads;
use tx_step::Guard;

/// Asks for a merge, where that is asked.
fn ring_for<R: Threads + Wait + Sync, T: Desk>(
    rt: &R,
    desk: &mut T,
    asked: Read<'_>,
) -> Result<(), Memory>
    requires { IsSync R.row }
    ensures { T.state desk.new ≡ T.state desk.old }
{
    match asked {
        Read::RequestIndex => desk.ring(rt),
        _ => Ok(()),
    }
}

impl<P: FilterTable> Session<Picks<'_, P>> {
    /// Does what the form asks and builds its line.
    pub(crate) fn reply<R: Threads + Wait + Sync, T: Desk, K: Clock, G: Guard<Snapshot>>(
        &mut self,
        rt: &R,
        alloc: Global,
        desk: &mut T,
        clock: &K,
        guard: &G,
        form: &Edn,
    ) -> Result<(), Memory>
        requires sync { IsSync R.row }
        requires left { 0 < (T.state desk.old).left }
        requires room { vec_len self.old.commits < vec_capacity self.old.commits }
        ensures goes_on { GoesOn (T.state desk.old) (T.state desk.new) }
        ensures ok { let table = self.old.view.filter.table.now in OnOk result
            ((before : Standing)
            → HasStanding self.old.view (λ p. map (P.name_at p.table.now) p.places.items)
            (T.state desk.old) before
            → Answered
            (terms_at K.may_answer G.bars P.place_of P.selects_at clock.now guard.now table)
            (form_of form.now) self.old self.new (λ p. map (P.name_at p.table.now) p.places.items)
            (T.state desk.old) (T.state desk.new) before self.new.line.bytes.items) }
        ensures err { OnErr result (Unanswered (form_of form.now) self.old self.new
            (T.state desk.old) (T.state desk.new)) }
        ensures table { self.new.view.filter.table ≡ self.old.view.filter.table }
        ensures places { self.new.places ≡ self.old.places }
        ensures waiting { self.new.waiting ≡ self.old.waiting }
    {
        match command_in(form) {
            Some(Command::Transact(asked)) => self.transact(rt, desk, clock, guard, asked),
            Some(Command::Db) => self.look(desk),
            Some(Command::Sync) => self.catch_up(rt, desk),
            Some(Command::Read(asked)) => {
                ring_for(rt, desk, asked)?;
                self.read(alloc, Some(asked), guard)
            }
            None => self.read(alloc, None, guard),
        }
    }

    /// Answers of what was seen before.
    fn read<G: Guard<Snapshot>>(
        &mut self,
        alloc: Global,
        asked: Option<Read<'_>>,
        guard: &G,
    ) -> Result<(), Memory>
        ensures ok { let table = self.old.view.filter.table.now in OnOk result
            (AnswersRead self.old.view self.new.view (λ p. map (P.name_at p.table.now) p.places.items)
            (λ name. is_some (P.place_of table name))
            (selected_by (P.place_of table) (P.selects_at table)) (G.bars guard.now)
            (option_map (λ read. model_read read) asked.entry) self.new.line.bytes.items) }
        ensures table { self.new.view.filter.table ≡ self.old.view.filter.table }
        ensures rest { self.new ≡ record self.old { view = self.new.view; line = self.new.line } }
    {
        answer_read(alloc, &mut self.view, asked, guard, &mut self.line.bytes)
    }
}

impl<S: Selector> Session<S> {
    /// Sees what was mailed.
    fn look<T: Desk>(&mut self, desk: &mut T) -> Result<(), Memory>
        requires { 0 < (T.state desk.old).left }
        ensures goes_on { GoesOn (T.state desk.old) (T.state desk.new) }
        ensures shows { OnOk result (Shows self.old self.new (T.state desk.new)) }
        ensures keeps { KeepsCommit self.old self.new (T.state desk.old) (T.state desk.new) None }
        ensures tally { (T.state desk.new).tally ≡ glanced (T.state desk.old).tally }
        ensures filter { self.new.view.filter ≡ self.old.view.filter }
        ensures places { self.new.places ≡ self.old.places }
        ensures waiting { self.new.waiting ≡ self.old.waiting }
    {
        match desk.db()? {
            Glance::Fresh(snapshot) => self.show(snapshot),
            Glance::Held(snapshot) => self.show(snapshot),
        }
    }

    /// Sees all that there is.
    fn catch_up<R: Threads + Wait + Sync, T: Desk>(
        &mut self,
        rt: &R,
        desk: &mut T,
    ) -> Result<(), Memory>
        requires { 0 < (T.state desk.old).left }
        ensures goes_on { GoesOn (T.state desk.old) (T.state desk.new) }
        ensures shows { OnOk result (Shows self.old self.new (T.state desk.new)) }
        ensures keeps { KeepsCommit self.old self.new (T.state desk.old) (T.state desk.new) None }
        ensures tally { OnOk result ((T.state desk.new).tally ≡ loaded (T.state desk.old).tally) }
        ensures loads { OnErr result (LoadsOnceAtMost (T.state desk.old) (T.state desk.new)) }
        ensures filter { self.new.view.filter ≡ self.old.view.filter }
        ensures places { self.new.places ≡ self.old.places }
        ensures waiting { self.new.waiting ≡ self.old.waiting }
    {
        let snapshot = desk.sync(rt)?;
        self.show(snapshot)
    }

    fn show(&mut self, snapshot: Snapshot) -> Result<(), Memory>
        ensures view { self.new.view ≡ record self.old.view { snapshot = snapshot } }
        ensures rest { self.new ≡ record self.old { view = self.new.view; line = self.new.line } }
        ensures line { OnOk result
            (IsLineOf (basis_reply (basis snapshot.entries)) self.new.line.bytes.items) }
    {
        self.see(snapshot);
        let basis = self.place();
        write_basis(&mut self.line.bytes, basis)
    }
}
