//! How a form is answered, and how its line goes out: at once, behind the lines that waited, where
//! the desk is asked. That of a read waits, so that the lines of a run of reads are one write.
ghost use denote.Param.Send.{IsSync};
ghost use Rattle.std.specs.Prelude.{◌≡◌, ◌<◌, ◌++◌, ◌∷◌, [], false, ℕ, List, OnOk, OnErr, MatchResult, map, vec_len, vec_capacity};
ghost use Rattle.std.specs.Io.KnownBytes.{append_known};
ghost use Rattle.edn_form.specs.View.{form_of};
ghost use Rattle.fb_model.specs.History.{basis};
ghost use Rattle.talk_model.specs.Session.{Standing};
ghost use Rattle.fb_ports.specs.Faults.{Counts};
ghost use Rattle.fb_desk.specs.Desks.{GoesOn};
ghost use Rattle.fb_session.specs.Asks.{is_for_desk};
ghost use Rattle.fb_session.specs.Sessions.{HasStanding, Answered, Unanswered, Became, StopCount, filter_of, end_of};
ghost use Rattle.fb_session.specs.Terms.{terms_at};
ghost use Rattle.fb_session.specs.WaitingLines.{Waits, IsKept, IsBroken};
ghost use Rattle.fb_session.specs.Written.{TakesPart};

use crate::outcome::SessionEnd;
use crate::session::Session;
use crate::writing::write_bytes;
use edn_form::Edn;
use fb_commands::{Command, command_in};
use fb_desk::Desk;
use fb_memory::Memory;
use fb_ports::{Clock, Failed, Sink};
use fb_preds::{FilterTable, Picks, Selector};
use fb_view::Snapshot;
use std::alloc::Global;
use std::sync::Wait;
use std::thread::Threads;
use tx_step::Guard;

/// Why a form was not answered, or its line not written.
#[derive(Drop)]
pub enum AnswerError {
    /// The sink failed.
    WriteFault,
    /// Memory was refused.
    Memory,
}

impl AnswerError {
    /// How a session ends that stops so.
    pub(crate) fn end(self) -> SessionEnd
        ensures { result ≡ end_of self }
    {
        match self {
            AnswerError::WriteFault => SessionEnd::WriteFault,
            AnswerError::Memory => SessionEnd::Memory,
        }
    }
}

impl From<Memory> for AnswerError {
    ghost use Rattle.fb_session.specs.declared.answering.AnswerError.{AnswerError};

    ghost from_gives = { λ _ stop. stop ≡ AnswerError.Memory };

    fn from(_: Memory) -> AnswerError {
        AnswerError::Memory
    }
}

impl From<Failed> for AnswerError {
    ghost use Rattle.fb_session.specs.declared.answering.AnswerError.{AnswerError};

    ghost from_gives = { λ _ stop. stop ≡ AnswerError.WriteFault };

    fn from(_: Failed) -> AnswerError {
        AnswerError::WriteFault
    }
}

/// Whether the desk is asked for the form.
fn is_for_desk(form: &Edn) -> bool
    ensures { result ≡ is_for_desk (form_of form.now) }
{
    match command_in(form) {
        Some(Command::Transact(_)) => true,
        Some(Command::Db) => true,
        Some(Command::Sync) => true,
        Some(Command::Read(_)) => false,
        None => false,
    }
}

impl<P: FilterTable> Session<Picks<'_, P>> {
    /// Answers the form by one line, which is written behind those that waited, or waits with
    /// them. Where the desk is asked for the form, none waits before or after.
    pub fn answer<R: Threads + Wait + Sync, O: Sink, T: Desk, K: Clock, G: Guard<Snapshot>>(
        &mut self,
        rt: &R,
        alloc: Global,
        sink: &mut O,
        desk: &mut T,
        clock: &K,
        guard: &G,
        form: &Edn,
    ) -> Result<(), AnswerError>
        requires sync { IsSync R.row }
        requires left { 0 < (T.state desk.old).left }
        ensures goes_on { GoesOn (T.state desk.old) (T.state desk.new) }
        ensures became { Became
            (λ p. terms_at K.may_answer G.bars P.place_of P.selects_at clock.now guard.now p.table.now)
            (form_of form.now) self.old self.new (λ p. map (P.name_at p.table.now) p.places.items)
            (T.state desk.old) (T.state desk.new) (O.contents sink.old) (O.contents sink.new)
            result }
        ensures table { (filter_of self.new).table ≡ (filter_of self.old).table }
        ensures count { MatchResult result (λ _. O.faults sink.new ≡ O.faults sink.old)
            (λ stop. StopCount stop (O.faults sink.old) (O.faults sink.new)) }
    {
        if is_for_desk(form) {
            self.answer_at_once(rt, alloc, sink, desk, clock, guard, form)
        } else {
            self.answer_in_time(rt, alloc, sink, desk, clock, guard, form)
        }
    }

    /// Answers a form for which the desk is asked, when no line waits any more.
    fn answer_at_once<R: Threads + Wait + Sync, O: Sink, T: Desk, K: Clock, G: Guard<Snapshot>>(
        &mut self,
        rt: &R,
        alloc: Global,
        sink: &mut O,
        desk: &mut T,
        clock: &K,
        guard: &G,
        form: &Edn,
    ) -> Result<(), AnswerError>
        requires sync { IsSync R.row }
        requires left { 0 < (T.state desk.old).left }
        ensures goes_on { GoesOn (T.state desk.old) (T.state desk.new) }
        ensures became { Became
            (λ p. terms_at K.may_answer G.bars P.place_of P.selects_at clock.now guard.now p.table.now)
            (form_of form.now) self.old self.new (λ p. map (P.name_at p.table.now) p.places.items)
            (T.state desk.old) (T.state desk.new) (O.contents sink.old) (O.contents sink.new)
            result }
        ensures table { self.new.view.filter.table ≡ self.old.view.filter.table }
        ensures count { MatchResult result (λ _. O.faults sink.new ≡ O.faults sink.old)
            (λ stop. StopCount stop (O.faults sink.old) (O.faults sink.new)) }
    {
        self.write_waiting(sink)?;
        self.reply_in_room(rt, alloc, desk, clock, guard, form)?;
        self.write_own(sink)?;
        Ok(())
    }

    /// Answers a form of what was seen before. Its line may wait.
    fn answer_in_time<R: Threads + Wait + Sync, O: Sink, T: Desk, K: Clock, G: Guard<Snapshot>>(
        &mut self,
        rt: &R,
        alloc: Global,
        sink: &mut O,
        desk: &mut T,
        clock: &K,
        guard: &G,
        form: &Edn,
    ) -> Result<(), AnswerError>
        requires sync { IsSync R.row }
        requires left { 0 < (T.state desk.old).left }
        requires quiet { is_for_desk (form_of form.now) ≡ false }
        ensures goes_on { GoesOn (T.state desk.old) (T.state desk.new) }
        ensures became { Became
            (λ p. terms_at K.may_answer G.bars P.place_of P.selects_at clock.now guard.now p.table.now)
            (form_of form.now) self.old self.new (λ p. map (P.name_at p.table.now) p.places.items)
            (T.state desk.old) (T.state desk.new) (O.contents sink.old) (O.contents sink.new)
            result }
        ensures table { self.new.view.filter.table ≡ self.old.view.filter.table }
        ensures count { MatchResult result (λ _. O.faults sink.new ≡ O.faults sink.old)
            (λ stop. StopCount stop (O.faults sink.old) (O.faults sink.new)) }
    {
        if self
            .reply_in_room(rt, alloc, desk, clock, guard, form)
            .is_err()
        {
            self.write_waiting(sink)?;
            return Err(AnswerError::Memory);
        }
        self.keep_line(sink)?;
        Ok(())
    }

    /// Does what the form asks and builds its line, with room for its place and its commit.
    fn reply_in_room<R: Threads + Wait + Sync, T: Desk, K: Clock, G: Guard<Snapshot>>(
        &mut self,
        rt: &R,
        alloc: Global,
        desk: &mut T,
        clock: &K,
        guard: &G,
        form: &Edn,
    ) -> Result<(), Memory>
        requires sync { IsSync R.row }
        requires left { 0 < (T.state desk.old).left }
        ensures goes_on { GoesOn (T.state desk.old) (T.state desk.new) }
        ensures ok { let table = self.old.view.filter.table.now in OnOk result
            ((before : Standing)
            → HasStanding self.old.view (λ p. map (P.name_at p.table.now) p.places.items)
            (T.state desk.old) before
            → Answered
            (terms_at K.may_answer G.bars P.place_of P.selects_at clock.now guard.now table)
            (form_of form.now) self.old self.new (λ p. map (P.name_at p.table.now) p.places.items)
            (T.state desk.old) (T.state desk.new) before self.new.line.bytes.items) }
        ensures err { OnErr result (Unanswered (form_of form.now) self.old self.new
            (T.state desk.old) (T.state desk.new)) }
        ensures table { self.new.view.filter.table ≡ self.old.view.filter.table }
        ensures places { self.new.places.items ≡ self.old.places.items }
        ensures waiting { self.new.waiting ≡ self.old.waiting }
        ensures room { OnOk result (vec_len self.new.places < vec_capacity self.new.places) }
    {
        self.make_room()?;
        self.reply(rt, alloc, desk, clock, guard, form)
    }
}

impl<S: Selector> Session<S> {
    /// Puts the line behind those that wait, or writes it with them.
    fn keep_line<O: Sink>(&mut self, sink: &mut O) -> Result<(), Failed>
        requires { vec_len self.old.places < vec_capacity self.old.places }
        ensures rest { self.new
            ≡ record self.old { places = self.new.places; waiting = self.new.waiting } }
        ensures place { OnOk result (self.new.places.items
            ≡ self.old.places.items ++ basis self.old.view.snapshot.entries ∷ []) }
        ensures ok { OnOk result ((lines : List (List ℕ)) → Waits self.old.waiting lines
            → IsKept lines self.old.line.bytes.items self.new.waiting (O.contents sink.old)
            (O.contents sink.new)) }
        ensures err { OnErr result ((lines : List (List ℕ)) → Waits self.old.waiting lines
            → IsBroken lines self.old.line.bytes.items self.old.places.items
            self.new.places.items (O.contents sink.old) (O.contents sink.new)) }
        ensures counted { Counts result (O.faults sink.old) (O.faults sink.new) }
    {
        if self.waiting.keep(self.line.bytes.as_slice()) {
            self.note_place();
            return Ok(());
        }
        self.write_waiting(sink)?;
        self.write_own(sink)
    }

    /// Writes the line alone.
    fn write_own<O: Sink>(&mut self, sink: &mut O) -> Result<(), Failed>
        requires { vec_len self.old.places < vec_capacity self.old.places }
        ensures rest { self.new ≡ record self.old { places = self.new.places } }
        ensures place { OnOk result (self.new.places.items
            ≡ self.old.places.items ++ basis self.old.view.snapshot.entries ∷ []) }
        ensures whole { OnOk result (O.contents sink.new
            ≡ append_known (O.contents sink.old) self.old.line.bytes.items) }
        ensures places { OnErr result (self.new.places ≡ self.old.places) }
        ensures part { OnErr result (TakesPart self.old.line.bytes.items (O.contents sink.old)
            (O.contents sink.new)) }
        ensures counted { Counts result (O.faults sink.old) (O.faults sink.new) }
    {
        if write_bytes(sink, self.line.bytes.as_slice()).is_err() {
            return Err(Failed);
        }
        self.note_place();
        Ok(())
    }

    /// Notes what the line rests on.
    fn note_place(&mut self)
        requires { vec_len self.old.places < vec_capacity self.old.places }
        ensures rest { self.new ≡ record self.old { places = self.new.places } }
        ensures places { self.new.places.items
            ≡ self.old.places.items ++ basis self.old.view.snapshot.entries ∷ [] }
    {
        let place = self.place();
        self.places.push_reserved(place);
    }
}
