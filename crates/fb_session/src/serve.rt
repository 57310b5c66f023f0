//! The loop over the forms of a script.
ghost use denote.Param.Send.{IsSync};
ghost use Rattle.std.specs.Prelude.{◌≡◌, ◌≤◌, ◌++◌, ℕ, List, Some, IfOk, IfErr, length, map};
ghost use Rattle.std.specs.List.{last_or};
ghost use Rattle.edn_form.specs.View.{form_of};
ghost use Rattle.fb_model.specs.History.{basis};
ghost use Rattle.talk_model.specs.Script.{most_commands};
ghost use Rattle.talk_model.specs.Prefixes.{Prefixes};
ghost use Rattle.fb_desk.specs.Desks.{WentOn};
ghost use Rattle.fb_session.specs.Asks.{Asks};
ghost use Rattle.fb_session.specs.Replies.{Replies, SourceCount, SinkCount};
ghost use Rattle.fb_session.specs.Sessions.{over, IsOpened, IsCommand, NoCommand, Finishes, FinishCount, served_by, Talks};
ghost use Rattle.fb_session.specs.Terms.{terms_at};
ghost use Rattle.fb_session.specs.WaitingLines.{Waits};

use crate::outcome::{Served, SessionEnd};
use crate::reading::{ReadStop, read_script};
use crate::session::Session;
use edn_core::{Edn, EdnFault, Frames, read_form_in};
use fb_desk::Desk;
use fb_ports::{Clock, Sink, Source};
use fb_preds::{FilterTable, Picks};
use fb_view::Snapshot;
use std::alloc::Global;
use std::sync::Wait;
use std::thread::Threads;
use tx_step::Guard;

/// How many commands a script may have.
const MOST_COMMANDS: usize = 1_000_000;

/// Runs one script: reads the source to its end, and then answers its forms, one line each.
pub fn serve_desk<
    R: Threads + Wait + Sync,
    I: Source,
    O: Sink,
    T: Desk,
    K: Clock,
    G: Guard<Snapshot>,
    P: FilterTable,
>(
    rt: &R,
    alloc: Global,
    source: &mut I,
    sink: &mut O,
    desk: &mut T,
    clock: &K,
    guard: &G,
    preds: &P,
) -> Served
    requires sync { IsSync R.row }
    requires left { most_commands ≤ (T.state desk.old).left }
    ensures replies { Replies
        (over
        (terms_at K.may_answer G.bars P.place_of P.selects_at clock.now guard.now preds.now)
        (T.state desk.new))
        (basis (T.state desk.old).entries)
        (record {
          held = I.left source.old;
          left = I.left source.new;
          had = O.contents sink.old;
          has = O.contents sink.new;
          places = result.places;
          commits = result.commits;
          end = result.end;
        }) }
    ensures prefixes { Prefixes (basis (T.state desk.old).entries)
        (basis (T.state desk.new).entries) result.places result.commits }
    ensures commits { (T.state desk.new).commits ≡ (T.state desk.old).commits ++ result.commits }
    ensures went_on { WentOn (T.state desk.old) (T.state desk.new) }
    ensures asked { Asks (I.left source.old) (I.left source.new) result
        (T.state desk.old).tally (T.state desk.new).tally }
    ensures seen { result.end ≡ SessionEnd.Done
        → last_or (Some (basis (T.state desk.old).entries)) result.places
        ≡ Some (basis (T.state desk.new).entries) }
    ensures source_count { SourceCount result.end (I.faults source.old) (I.faults source.new) }
    ensures sink_count { SinkCount result.end (O.faults sink.old) (O.faults sink.new) }
{
    match read_script(alloc, source) {
        Ok(script) => serve_script(
            rt,
            alloc,
            script.as_slice(),
            sink,
            desk,
            clock,
            guard,
            preds,
        ),
        Err(ReadStop::TooLong) => Served::nothing(alloc, SessionEnd::TooLong),
        Err(ReadStop::Fault) => Served::nothing(alloc, SessionEnd::ReadFault),
        Err(ReadStop::Memory) => Served::nothing(alloc, SessionEnd::Memory),
    }
}

/// Answers the forms of the script.
fn serve_script<
    R: Threads + Wait + Sync,
    O: Sink,
    T: Desk,
    K: Clock,
    G: Guard<Snapshot>,
    P: FilterTable,
>(
    rt: &R,
    alloc: Global,
    script: &[u8],
    sink: &mut O,
    desk: &mut T,
    clock: &K,
    guard: &G,
    preds: &P,
) -> Served
    requires sync { IsSync R.row }
    requires left { most_commands ≤ (T.state desk.old).left }
    ensures answers { Talks
        (terms_at K.may_answer G.bars P.place_of P.selects_at clock.now guard.now preds.now)
        script.now (T.state desk.old) (T.state desk.new) (O.contents sink.old)
        (O.contents sink.new) result }
    ensures count { SinkCount result.end (O.faults sink.old) (O.faults sink.new) }
{
    let Ok(mut session) = Session::open(alloc, desk, preds) else {
        return Served::nothing(alloc, SessionEnd::Memory);
    };
    let end = session.answer_all(rt, alloc, script, sink, desk, clock, guard);
    session.served(end)
}

impl<P: FilterTable> Session<Picks<'_, P>> {
    /// Answers the forms of the script, one after another, up to the first that is not answered.
    fn answer_all<R: Threads + Wait + Sync, O: Sink, T: Desk, K: Clock, G: Guard<Snapshot>>(
        &mut self,
        rt: &R,
        alloc: Global,
        script: &[u8],
        sink: &mut O,
        desk: &mut T,
        clock: &K,
        guard: &G,
    ) -> SessionEnd
        requires sync { IsSync R.row }
        requires opened { IsOpened self.old (λ p. map (P.name_at p.table.now) p.places.items)
            (T.state desk.old) }
        requires left { most_commands ≤ (T.state desk.old).left }
        ensures answers { let table = self.old.view.filter.table.now in Talks
            (terms_at K.may_answer G.bars P.place_of P.selects_at clock.now guard.now table)
            script.now (T.state desk.old) (T.state desk.new) (O.contents sink.old)
            (O.contents sink.new) (served_by self.new result) }
        ensures count { SinkCount result (O.faults sink.old) (O.faults sink.new) }
    {
        let (mut frames, mut at) = (Frames::new(alloc), 0);
        'forms: loop {
            match self.next_command(&mut frames, alloc, script, at) {
                Ok((form, next)) => {
                    let answered = self.answer(rt, alloc, sink, desk, clock, guard, &form);
                    drop(form);
                    if let Err(stop) = answered {
                        return stop.end();
                    }
                    at = next;
                }
                Err(end) => return self.finish(sink, end),
            }
        }
    }

    /// The next command after `at`, and the place after it; or how the session ends.
    fn next_command(
        &self,
        frames: &mut Frames,
        alloc: Global,
        script: &[u8],
        at: usize,
    ) -> Result<(Edn, usize), SessionEnd>
        ensures ok { IfOk result
            (λ r. IsCommand script.now at (length self.now.places.items) (form_of r.0) r.1) }
        ensures err { IfErr result (NoCommand script.now at (length self.now.places.items)) }
    {
        match read_form_in(frames, alloc, script, at) {
            Ok(Some(_)) if self.places.len() >= MOST_COMMANDS => Err(SessionEnd::TooMany),
            Ok(Some(read)) => Ok(read),
            Ok(None) => Err(SessionEnd::Done),
            Err(EdnFault::Memory) => Err(SessionEnd::Memory),
            Err(fault) => Err(SessionEnd::Script(fault)),
        }
    }

    /// Ends so, when the lines that wait have gone out.
    fn finish<O: Sink>(&mut self, sink: &mut O, end: SessionEnd) -> SessionEnd
        ensures rest { self.new
            ≡ record self.old { places = self.new.places; waiting = self.new.waiting } }
        ensures ends { (lines : List (List ℕ)) → Waits self.old.waiting lines
            → Finishes lines self.old.places.items self.new.places.items (O.contents sink.old)
            (O.contents sink.new) end result }
        ensures count { FinishCount end result (O.faults sink.old) (O.faults sink.new) }
    {
        if self.write_waiting(sink).is_err() {
            return SessionEnd::WriteFault;
        }
        end
    }
}
