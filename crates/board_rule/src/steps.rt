//! The steps of the turn. Each is one atomic event on the table.
ghost use Rattle.std.specs.Prelude.{◌≡◌, ℕ, ◌+◌, ◌<◌, List, [], ◌∷◌, ◌++◌, length, Some, None, IfSome};
ghost use Rattle.board_rule.specs.declared.view.Code.{Code};
ghost use Rattle.board_rule.specs.declared.view.At.TheVariants.{Home, Away};
ghost use Rattle.board_rule.specs.declared.view.Grab.TheVariants.{Free, Grabbed};
ghost use Rattle.board_rule.specs.Seat.{first_of};
ghost use Rattle.board_rule.specs.Views.{worker, StartsWith, AreLawful, codes, HasTurn, history_of, authors_of, named_of, marks_of, IsSoundSince, Fits, MayMark, IsTried, drew, noted, found, added, ended, counted, giver, newcomer, both, Looks};
ghost use Rattle.board_rule.specs.Plays.{at_of, CoreHas};
ghost use Rattle.board_rule.specs.Notes.{MayNote, Notes};
ghost use Rattle.board_rule.specs.Calls.{view_of, board_of};

use crate::board::{Board, SlotValue};
use crate::named::{Mailed, Named};
use crate::note::Note;
use crate::plays::{
    DrawTicket, LoadCount, Look, NoteFound, NoteMarks, PickedHistory, PickedMarks, PickedOrigin,
    PutCore, Reunite, ServeNext, SplitSeat, StoreCount, TakeCore,
};
use crate::seat::BoardSeat;
use crate::view::{Code, View};
use atomic_table::{Badge, Seat};
use std::marker::Brand;
use std::mem;

/// The seat of the table, in whose place is a badge of no seat.
pub(crate) fn open<H, S>(badge: &mut Badge<View<Code>>) -> Seat<SlotValue<H, S>, View<Code>>
    requires { badge.old.views ≡ first_of badge.old.views ∷ [] }
    ensures { (result.table_id ≡ badge.old.table_id)
        × (result.id ≡ badge.old.id)
        × (result.me ≡ (first_of badge.old.views, [])) }
{
    mem::replace(badge, Badge::blank()).into_seat()
}

/// Draws a ticket.
pub fn step_draw<H: Named, S: Mailed + Named<Entry = H::Entry>>(
    board: &Board<H, S>,
    seat: &mut BoardSeat,
)
    requires seat { board_of seat.old ≡ board.now.table.shared.table_id }
    requires free { (view_of seat.old).ticket ≡ None }
    requires few { (view_of seat.old).draws < 4294967296 }
    ensures seat { board_of seat.new ≡ board_of seat.old }
    ensures drew { (t : ℕ) × (view_of seat.new ≡ drew (view_of seat.old) t) }
{
    let mut opened = open(&mut seat.badge);
    let ticket = board
        .table
        .shared
        .fetch_add::<DrawTicket>(&mut opened, 0, 1);
    seat.badge = opened.into_badge();
    seat.ticket = Some(ticket);
    seat.draws += 1;
}

fn look<H: Named, S: Mailed + Named<Entry = H::Entry>>(
    board: &Board<H, S>,
    seat: &mut BoardSeat,
) -> u64
    requires { board_of seat.old ≡ board.now.table.shared.table_id }
    ensures seat { board_of seat.new ≡ board_of seat.old }
    ensures looks { Looks (AreLawful H.Entry.row.coded.code H.follows) (view_of seat.old).turn
        (view_of seat.old) result (view_of seat.new) }
{
    let mut opened = open(&mut seat.badge);
    let served = board.table.shared.load::<Look<H>>(&mut opened, 1);
    seat.badge = opened.into_badge();
    served
}

fn note_marks<H: Named, S: Mailed + Named<Entry = H::Entry>, B: PickedMarks>(
    board: &Board<H, S>,
    seat: &mut BoardSeat,
    _home: &H,
) -> u64
    requires picked { B.marks ≡ H.marks _home.now }
    requires seat { board_of seat.old ≡ board.now.table.shared.table_id }
    requires may { HasTurn (view_of seat.old)
        × ((view_of seat.old).core ≡ Away)
        × MayMark (view_of seat.old).number (named_of (view_of seat.old)) (H.marks _home.now) }
    ensures seat { board_of seat.new ≡ board_of seat.old }
    ensures noted { view_of seat.new ≡ noted (view_of seat.old) (H.marks _home.now) }
{
    let mut opened = open(&mut seat.badge);
    let served = board.table.shared.load::<NoteMarks<B>>(&mut opened, 1);
    seat.badge = opened.into_badge();
    served
}

fn note_found<H: Named, S: Mailed + Named<Entry = H::Entry>>(
    board: &Board<H, S>,
    seat: &mut BoardSeat,
) -> u64
    requires seat { board_of seat.old ≡ board.now.table.shared.table_id }
    requires grabbed { (view_of seat.old).grab ≡ Grabbed }
    ensures seat { board_of seat.new ≡ board_of seat.old }
    ensures found { (l : List Code) × (view_of seat.new ≡ found (view_of seat.old) l) }
{
    let mut opened = open(&mut seat.badge);
    let served = board.table.shared.load::<NoteFound>(&mut opened, 1);
    seat.badge = opened.into_badge();
    served
}

/// The ticket served. Where it is the seat's own, and nothing is noted, the seat has the turn, and knows the history.
pub fn step_look<H: Named, S: Mailed + Named<Entry = H::Entry>>(
    board: &Board<H, S>,
    seat: &mut BoardSeat,
    note: Note<'_, H>,
) -> u64
    requires seat { board_of seat.old ≡ board.now.table.shared.table_id }
    requires may { MayNote H.marks note (view_of seat.old) }
    ensures seat { board_of seat.new ≡ board_of seat.old }
    ensures notes { Notes (AreLawful H.Entry.row.coded.code H.follows) H.marks note.entry
        (view_of seat.old) result (view_of seat.new) }
{
    match note {
        Note::Nothing => look(board, seat),
        Note::Marks(home) => note_marks::<H, S, Brand>(board, seat, home),
        Note::Found => note_found(board, seat),
    }
}

fn store_count<H: Named, S: Mailed + Named<Entry = H::Entry>, B: PickedHistory>(
    board: &Board<H, S>,
    seat: &mut BoardSeat,
    _home: &H,
    basis: u32,
)
    requires picked { (B.entries ≡ codes H.Entry.row.coded.code (H.entries _home.now))
        × (B.authors ≡ H.authors _home.now) }
    requires seat { board_of seat.old ≡ board.now.table.shared.table_id }
    requires turn { HasTurn (view_of seat.old) × ((view_of seat.old).core ≡ Away) }
    requires entry { (l : List H.Entry)
        × (e : H.Entry)
        × (codes H.Entry.row.coded.code l ≡ history_of (view_of seat.old))
        × (H.entries _home.now ≡ l ++ e ∷ [])
        × H.follows l e }
    requires author { H.authors _home.now
        ≡ authors_of (view_of seat.old) ++ (view_of seat.old).number ∷ [] }
    requires basis { basis + 1 ≡ length (H.entries _home.now) }
    ensures seat { board_of seat.new ≡ board_of seat.old }
    ensures added { view_of seat.new
        ≡ added (view_of seat.old) (codes H.Entry.row.coded.code (H.entries _home.now))
        (H.authors _home.now) basis }
{
    let mut opened = open(&mut seat.badge);
    board
        .table
        .shared
        .store::<StoreCount<B>>(&mut opened, 2, basis as u64);
    seat.badge = opened.into_badge();
}

/// Adds an entry to the history: `home`, which the holder of the turn took out of slot 0, stands for the history with it.
pub fn step_commit<H: Named, S: Mailed + Named<Entry = H::Entry>>(
    board: &Board<H, S>,
    seat: &mut BoardSeat,
    home: &H,
)
    requires seat { board_of seat.old ≡ board.now.table.shared.table_id }
    requires turn { HasTurn (view_of seat.old) × ((view_of seat.old).core ≡ Away) }
    requires entry { (l : List H.Entry)
        × (e : H.Entry)
        × (codes H.Entry.row.coded.code l ≡ history_of (view_of seat.old))
        × (H.entries home.now ≡ l ++ e ∷ [])
        × H.follows l e }
    requires author { H.authors home.now
        ≡ authors_of (view_of seat.old) ++ (view_of seat.old).number ∷ [] }
    requires open { ((named_of (view_of seat.old)).stop ≡ None)
        × ((marks_of (view_of seat.old)).stop ≡ None) }
    ensures seat { board_of seat.new ≡ board_of seat.old }
    ensures added { (t : ℕ)
        × (t + 1 ≡ length (H.entries home.now))
        × (view_of seat.new
        ≡ added (view_of seat.old) (codes H.Entry.row.coded.code (H.entries home.now))
        (H.authors home.now) t) }
{
    let basis = home.basis();
    store_count::<H, S, Brand>(board, seat, home, basis);
}

/// Ends the turn: the next ticket is served, and the next marks, where there are any, are the named ones.
pub fn step_leave<H: Named, S: Mailed + Named<Entry = H::Entry>>(
    board: &Board<H, S>,
    seat: &mut BoardSeat,
)
    requires seat { board_of seat.old ≡ board.now.table.shared.table_id }
    requires turn { HasTurn (view_of seat.old) }
    requires home { (view_of seat.old).core ≡ Home }
    requires free { (view_of seat.old).grab ≡ Free }
    requires tried { IsTried board.now.table.shared.key.sessions (view_of seat.old).tried }
    ensures seat { board_of seat.new ≡ board_of seat.old }
    ensures ended { view_of seat.new ≡ ended (view_of seat.old) }
{
    let Some(ticket) = seat.ticket else {
        unreachable!()
    };
    let mut opened = open(&mut seat.badge);
    board
        .table
        .shared
        .store::<ServeNext>(&mut opened, 1, ticket + 1);
    seat.badge = opened.into_badge();
    seat.ticket = None;
}

/// The basis of the history, all of which the seat has then seen.
pub fn step_count<H: Named, S: Mailed + Named<Entry = H::Entry>>(
    board: &Board<H, S>,
    seat: &mut BoardSeat,
) -> u32
    requires { board_of seat.old ≡ board.now.table.shared.table_id }
    ensures seat { board_of seat.new ≡ board_of seat.old }
    ensures counted { (l : List Code)
        × (view_of seat.new ≡ counted (view_of seat.old) l)
        × (result + 1 ≡ length l)
        × StartsWith l (view_of seat.old).seen
        × (HasTurn (view_of seat.old) → l ≡ history_of (view_of seat.old)) }
{
    let mut opened = open(&mut seat.badge);
    let count = board.table.shared.load::<LoadCount>(&mut opened, 2);
    seat.badge = opened.into_badge();
    count as u32
}

fn move_core<H: Named, S: Mailed + Named<Entry = H::Entry>, B: PickedOrigin<H>>(
    board: &Board<H, S>,
    seat: &mut BoardSeat,
    put: Option<H>,
) -> Option<H>
    requires picked { (h : H) → H.origin h ≡ H.origin board.now.table.shared.key.home.value
        → B.kept h }
    requires seat { board_of seat.old ≡ board.now.table.shared.table_id }
    requires turn { HasTurn (view_of seat.old) }
    requires fits { IfSome put (λ h. Fits (codes H.Entry.row.coded.code (H.entries h)) (H.authors h)
        (H.marks h) (IsSoundSince H.sound H.origin board.now.table.shared.key.home.value h)
        (view_of seat.old)) }
    ensures seat { board_of seat.new ≡ board_of seat.old }
    ensures put { view_of seat.new ≡ record (view_of seat.old) { core = at_of put } }
    ensures was { CoreHas
        (λ h. Fits (codes H.Entry.row.coded.code (H.entries h)) (H.authors h) (H.marks h)
        (H.sound h × B.kept h) (view_of seat.old))
        (view_of seat.old).core result }
{
    let shared = &board.table.shared;
    let mut opened = open(&mut seat.badge);
    shared.load::<TakeCore<H, B>>(&mut opened, 1);
    let SlotValue::Core(was) = shared.exchange(&mut opened, 0, SlotValue::Core(put)) else {
        unreachable!()
    };
    shared.load::<PutCore>(&mut opened, 1);
    seat.badge = opened.into_badge();
    was
}

/// Puts `put` into slot 0, and answers what was there. Both have the origin with which the board was opened.
pub fn step_core<H: Named, S: Mailed + Named<Entry = H::Entry>>(
    board: &Board<H, S>,
    seat: &mut BoardSeat,
    put: Option<H>,
) -> Option<H>
    requires seat { board_of seat.old ≡ board.now.table.shared.table_id }
    requires turn { HasTurn (view_of seat.old) }
    requires fits { IfSome put (λ h. Fits (codes H.Entry.row.coded.code (H.entries h)) (H.authors h)
        (H.marks h) (IsSoundSince H.sound H.origin board.now.table.shared.key.home.value h)
        (view_of seat.old)) }
    ensures seat { board_of seat.new ≡ board_of seat.old }
    ensures put { view_of seat.new ≡ record (view_of seat.old) { core = at_of put } }
    ensures was { CoreHas
        (λ h. Fits (codes H.Entry.row.coded.code (H.entries h)) (H.authors h) (H.marks h)
        (IsSoundSince H.sound H.origin board.now.table.shared.key.home.value h) (view_of seat.old))
        (view_of seat.old).core result }
{
    move_core::<H, S, Brand>(board, seat, put)
}

/// A new seat, by the first one alone. It has the least number that no seat was given, and has seen what this one has.
pub fn step_split<H: Named, S: Mailed + Named<Entry = H::Entry>>(
    board: &Board<H, S>,
    seat: &mut BoardSeat,
) -> BoardSeat
    requires seat { board_of seat.old ≡ board.now.table.shared.table_id }
    requires first { (view_of seat.old).number ≡ worker }
    requires few { (view_of seat.old).given < 2147483648 }
    ensures seat { (board_of seat.new ≡ board_of seat.old) × (board_of result ≡ board_of seat.old) }
    ensures giver { view_of seat.new ≡ giver (view_of seat.old) }
    ensures newcomer { view_of result ≡ newcomer (view_of seat.old) }
{
    let mut opened = open(&mut seat.badge);
    let fresh = board.table.shared.split_seat::<SplitSeat>(&mut opened);
    seat.badge = opened.into_badge();
    let number = seat.given;
    seat.given += 1;
    BoardSeat {
        number,
        given: 0,
        draws: 0,
        ticket: None,
        badge: fresh.into_badge(),
    }
}

/// Takes in another seat, whose notes this one keeps.
pub fn step_join<H: Named, S: Mailed + Named<Entry = H::Entry>>(
    board: &Board<H, S>,
    seat: &mut BoardSeat,
    other: BoardSeat,
)
    requires seat { (board_of seat.old ≡ board.now.table.shared.table_id)
        × (board_of other ≡ board.now.table.shared.table_id) }
    requires tickets { ((view_of seat.old).ticket ≡ None) × ((view_of other).ticket ≡ None) }
    requires free { ((view_of seat.old).grab ≡ Free) × ((view_of other).grab ≡ Free) }
    ensures seat { board_of seat.new ≡ board_of seat.old }
    ensures both { view_of seat.new ≡ both (view_of seat.old) (view_of other) }
{
    let BoardSeat {
        number: _,
        given: _,
        draws: _,
        ticket: _,
        badge,
    } = other;
    let mut opened = open(&mut seat.badge);
    board
        .table
        .shared
        .join_seat::<Reunite>(&mut opened, badge.into_seat());
    seat.badge = opened.into_badge();
}
