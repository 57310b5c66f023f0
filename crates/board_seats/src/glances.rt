//! A glance at the mail.
ghost use Rattle.std.specs.Prelude.{◌≡◌, ◌<◌, List};
ghost use Rattle.board_rule.specs.declared.view.Grab.TheVariants.{Free};
ghost use Rattle.board_rule.specs.Calls.{view_of, board_of};
ghost use Rattle.board_seats.specs.Sight.{Sees};
ghost use Rattle.board_seats.specs.Glancing.{Glances, Finds};

use board_mail::{Mail, peek};
use board_rule::{Board, BoardSeat, Mailed, Named};
use fb_memory::Memory;

/// A copy of the snapshot in the session's own mail. There is none where the holder of the turn was about to mail.
pub fn glance<H: Named, S: Mailed + Named<Entry = H::Entry>>(
    board: &Board<H, S>,
    seat: &mut BoardSeat,
) -> Result<Option<S>, Memory>
    requires seat { board_of seat.old ≡ board.now.table.shared.table_id }
    requires session { (view_of seat.old).number < board.now.table.shared.key.sessions }
    requires free { (view_of seat.old).grab ≡ Free }
    ensures seat { board_of seat.new ≡ board_of seat.old }
    ensures glances { Glances H.Entry.row.coded.code S.entries (view_of seat.old) result
        (view_of seat.new) }
    ensures finds { (last : List H.Entry)
        → Sees H.Entry.row.coded.code (view_of seat.old) last
        → Finds H.Entry.row.coded.code S.entries last result (view_of seat.new) }
{
    match peek(board, seat) {
        Ok(Mail::Fresh(snapshot)) => Ok(Some(snapshot)),
        Ok(Mail::Held) => Ok(None),
        Err(fault) => Err(fault),
    }
}
