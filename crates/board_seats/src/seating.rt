//! How a board is opened with a seat for each session, and how the seats come together again.
ghost use Rattle.std.specs.Prelude.{◌≡◌, ◌+◌, ◌<◌, ◌≤◌, [], map, length, None, IfOk, IfErr, vec_capacity};
ghost use Rattle.std.specs.List.{All};
ghost use Rattle.board_rule.specs.declared.seat.BoardSeat.{BoardSeat};
ghost use Rattle.board_rule.specs.Views.{worker, IsLawful, codes, starting, IsIdle};
ghost use Rattle.board_rule.specs.Calls.{view_of, board_of};
ghost use Rattle.board_seats.specs.Seating.{AreNew, AreIdle, AreNoted, HasSeen};

use board_rule::{
    Board, BoardSeat, BoardStop, Mailed, Mails, Named, Patience, step_join, step_split,
};
use std::alloc::Global;

/// A board that was opened.
#[derive(Drop)]
pub struct Opened<H: Named, S: Mailed + Named<Entry = H::Entry>> {
    pub board: Board<H, S>,
    /// The first seat, the worker's.
    pub first: BoardSeat,
    /// The seats of the sessions, in the order of their numbers.
    pub seats: Vec<BoardSeat>,
}

/// Splits a seat for each session from the first one. `room` has room for them.
fn split_each<H: Named, S: Mailed + Named<Entry = H::Entry>>(
    board: &Board<H, S>,
    first: &mut BoardSeat,
    count: u32,
    room: Vec<BoardSeat>,
) -> Vec<BoardSeat>
    requires seat { board_of first.old ≡ board.now.table.shared.table_id }
    requires first { ((view_of first.old).number ≡ worker) × ((view_of first.old).given ≡ 0) }
    requires few { count < 2147483648 }
    requires empty { room.items ≡ [] }
    requires room { count ≤ vec_capacity room }
    ensures seat { board_of first.new ≡ board_of first.old }
    ensures given { view_of first.new ≡ record (view_of first.old) { given = count } }
    ensures count { length result.items ≡ count }
    ensures seats { AreNew board.now.table.shared.table_id (view_of first.old).start
        (view_of first.old).seen result.items }
{
    let mut seats = room;
    for _ in 0..count {
        seats.push_reserved(step_split(board, first));
    }
    seats
}

/// A board of the history of `home`, with a mail slot and a seat for each snapshot. Seats that wait stay awake as `patience`
/// says. Where memory runs out, `home` is handed back.
pub fn open<H: Named, S: Mailed + Named<Entry = H::Entry>>(
    alloc: Global,
    home: H,
    mails: Mails<S>,
    patience: Patience,
) -> Result<Opened<H, S>, BoardStop<H>>
    requires history { IsLawful H.follows (H.entries home) }
    requires home { (H.authors home ≡ []) × ((H.marks home).stop ≡ None) × H.sound home }
    requires mails { All (λ s. S.entries s ≡ H.entries home) mails × (length mails < 2147483648) }
    ensures board { IfOk result
        (λ o. (board_of o.first ≡ o.board.table.shared.table_id)
        × (o.board.table.shared.key.sessions ≡ length mails)
        × (o.board.table.shared.key.start + 1 ≡ length (H.entries home))
        × (o.board.table.shared.key.home.value ≡ home)) }
    ensures first { IfOk result (λ o. view_of o.first
        ≡ record
        (starting o.board.table.shared.key.start
        (codes H.Entry.row.coded.code (H.entries home)) (H.marks home).covered)
        { given = length mails }) }
    ensures count { IfOk result (λ o. length o.seats.items ≡ length mails) }
    ensures seats { IfOk result (λ o. AreNew o.board.table.shared.table_id
        o.board.table.shared.key.start (codes H.Entry.row.coded.code (H.entries home))
        o.seats.items) }
    ensures stop { IfErr result (λ stop. stop.home ≡ home) }
{
    let Ok(room) = Vec::with_capacity(alloc, mails.len()) else {
        return Err(BoardStop { home });
    };
    let basis = home.basis();
    let (board, mut first) = Board::new(alloc, home, basis, mails, patience)?;
    let seats = split_each(&board, &mut first, board.sessions(), room);
    Ok(Opened {
        board,
        first,
        seats,
    })
}

/// What a caller keeps a seat in.
pub trait Seated: Drop {
    ghost seat: { Self → BoardSeat };

    fn into_seat(self) -> BoardSeat
        ensures { result ≡ seat self };
}

/// Joins seats to the first one, which keeps a note of each, and of what it had seen itself. It takes no memory.
pub fn gather<H: Named, S: Mailed + Named<Entry = H::Entry>, T: Seated>(
    board: &Board<H, S>,
    first: &mut BoardSeat,
    mut seats: Vec<T>,
)
    requires seat { board_of first.old ≡ board.now.table.shared.table_id }
    requires idle { IsIdle (view_of first.old) }
    requires seats { AreIdle board.now.table.shared.table_id (map T.seat seats.items) }
    ensures seat { board_of first.new ≡ board_of first.old }
    ensures gathered { view_of first.new
        ≡ record (view_of first.old) {
          seats = (view_of first.old).seats + length seats.items;
          seen = (view_of first.new).seen;
          joined = (view_of first.new).joined;
        } }
    ensures noted { AreNoted (map T.seat seats.items) (view_of first.new) }
    ensures own { HasSeen (view_of first.old).seen (view_of first.new) }
{
    while let Some(seat) = seats.pop() {
        step_join(board, first, seat.into_seat());
    }
}
