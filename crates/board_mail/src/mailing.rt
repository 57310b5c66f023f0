//! Mailing a snapshot, and looking at one's mail. A single compare-and-exchange decides in each, and neither waits.
ghost use Rattle.std.specs.Prelude.{◌≡◌, ◌+◌, ◌<◌, List, length, OnOk, IfErr};
ghost use Rattle.std.specs.List.{All};
ghost use Rattle.board_rule.specs.declared.view.Code.{Code};
ghost use Rattle.board_rule.specs.declared.view.Grab.TheVariants.{Free, Grabbed};
ghost use Rattle.board_rule.specs.Views.{codes, HasTurn, history_of, found, skipped, tried_too, tried_down, IsTried};
ghost use Rattle.board_rule.specs.Calls.{view_of, board_of};
ghost use Rattle.board_mail.specs.Mailbox.{mailed};
ghost use Rattle.board_mail.specs.Peeks.{Peeks};

use board_rule::{
    Board, BoardSeat, Held, Mailed, Named, Note, step_holder_grab, step_holder_let_go, step_look,
    step_mail, step_reader_grab, step_reader_let_go,
};
use fb_memory::Memory;
use std::mem;

/// What a session finds in its mail.
#[derive(Drop)]
pub enum Mail<S> {
    /// A copy of the snapshot that lies there.
    Fresh(S),
    /// The holder of the turn was about to mail.
    Held,
}

/// Mails a snapshot to a session, by the holder of the turn, and gives back the one that lay there, to be dropped after the turn.
/// Where the session's reader is looking at its mail it mails nothing, and hands `s` back.
pub fn put<H: Named, S: Mailed + Named<Entry = H::Entry>>(
    board: &Board<H, S>,
    seat: &mut BoardSeat,
    _held: &mut Held<H>,
    session: u32,
    s: S,
) -> Result<S, S>
    requires seat { board_of seat.old ≡ board.now.table.shared.table_id }
    requires turn { HasTurn (view_of seat.old) }
    requires session { session < board.now.table.shared.key.sessions }
    requires free { (view_of seat.old).grab ≡ Free }
    requires whole { codes H.Entry.row.coded.code (S.entries s) ≡ history_of (view_of seat.old) }
    ensures seat { board_of seat.new ≡ board_of seat.old }
    ensures held { _held.new ≡ _held.old }
    ensures mailed { OnOk result (view_of seat.new ≡ mailed (view_of seat.old) session) }
    ensures skipped { IfErr result (λ back. (back ≡ s)
        × (view_of seat.new ≡ skipped (view_of seat.old) session)) }
{
    if !step_holder_grab(board, seat, session) {
        return Err(s);
    }
    let Some(was) = step_mail(board, seat, session, Some(s)) else {
        unreachable!()
    };
    step_holder_let_go(board, seat, session);
    Ok(was)
}

/// Mails a snapshot to a session, or tries to: what is left over is given back.
fn try_put<H: Named, S: Mailed + Named<Entry = H::Entry>>(
    board: &Board<H, S>,
    seat: &mut BoardSeat,
    held: &mut Held<H>,
    session: u32,
    s: S,
) -> S
    requires seat { board_of seat.old ≡ board.now.table.shared.table_id }
    requires turn { HasTurn (view_of seat.old) }
    requires session { session < board.now.table.shared.key.sessions }
    requires free { (view_of seat.old).grab ≡ Free }
    requires whole { codes H.Entry.row.coded.code (S.entries s) ≡ history_of (view_of seat.old) }
    ensures seat { board_of seat.new ≡ board_of seat.old }
    ensures held { held.new ≡ held.old }
    ensures tried { view_of seat.new
        ≡ record (view_of seat.old) {
          grab = Free;
          tried = tried_too session (view_of seat.old).tried;
          met = (view_of seat.new).met;
        } }
{
    match put(board, seat, held, session, s) {
        Ok(left) | Err(left) => left,
    }
}

/// Mails a snapshot to each session, from the last down to the first, as a commit asks before the turn ends. As many come back, those
/// that lay there and those that were not mailed, to be dropped after the turn.
pub fn put_each<H: Named, S: Mailed + Named<Entry = H::Entry>>(
    board: &Board<H, S>,
    seat: &mut BoardSeat,
    held: &mut Held<H>,
    mut snapshots: Vec<S>,
) -> Vec<S>
    requires seat { board_of seat.old ≡ board.now.table.shared.table_id }
    requires turn { HasTurn (view_of seat.old) }
    requires free { (view_of seat.old).grab ≡ Free }
    requires sessions { length snapshots.items ≡ board.now.table.shared.key.sessions }
    requires whole { All
        (λ s. codes H.Entry.row.coded.code (S.entries s) ≡ history_of (view_of seat.old))
        snapshots.items }
    ensures seat { board_of seat.new ≡ board_of seat.old }
    ensures held { held.new ≡ held.old }
    ensures back { length result.items ≡ length snapshots.items }
    ensures mailed { view_of seat.new
        ≡ record (view_of seat.old) {
          grab = Free;
          tried = tried_down board.now.table.shared.key.sessions (view_of seat.old).tried;
          met = (view_of seat.new).met;
        } }
    ensures tried { IsTried board.now.table.shared.key.sessions (view_of seat.new).tried }
{
    let Some(last) = snapshots.pop() else {
        return snapshots;
    };
    let mut session = snapshots.len();
    let mut left = try_put(board, seat, held, session as u32, last);
    while session > 0 {
        session -= 1;
        // What the session after this one left takes the snapshot's place.
        let next = mem::replace(&mut snapshots[session], left);
        left = try_put(board, seat, held, session as u32, next);
    }
    snapshots.push_reserved(left);
    snapshots
}

fn note_found<'a, H: Named, S: Mailed + Named<Entry = H::Entry>>(
    board: &'a Board<H, S>,
    seat: &mut BoardSeat,
)
    requires seat { board_of seat.old ≡ board.now.table.shared.table_id }
    requires grabbed { (view_of seat.old).grab ≡ Grabbed }
    ensures seat { board_of seat.new ≡ board_of seat.old }
    ensures found { (l : List Code) × (view_of seat.new ≡ found (view_of seat.old) l) }
{
    let note: Note<'a, H> = Note::Found;
    step_look(board, seat, note);
}

/// A copy of the snapshot in the session's own mail slot, where it stays.
pub fn peek<H: Named, S: Mailed + Named<Entry = H::Entry>>(
    board: &Board<H, S>,
    seat: &mut BoardSeat,
) -> Result<Mail<S>, Memory>
    requires seat { board_of seat.old ≡ board.now.table.shared.table_id }
    requires session { (view_of seat.old).number < board.now.table.shared.key.sessions }
    requires free { (view_of seat.old).grab ≡ Free }
    ensures seat { board_of seat.new ≡ board_of seat.old }
    ensures peeks { Peeks (λ s. codes H.Entry.row.coded.code (S.entries s)) (view_of seat.old)
        result (view_of seat.new) }
{
    if !step_reader_grab(board, seat) {
        return Ok(Mail::Held);
    }
    note_found(board, seat);
    let session = seat.number();
    let Some(snapshot) = step_mail(board, seat, session, None) else {
        unreachable!()
    };
    let copy = snapshot.share();
    step_mail(board, seat, session, Some(snapshot));
    step_reader_let_go(board, seat, copy.is_ok());
    Ok(Mail::Fresh(copy?))
}
