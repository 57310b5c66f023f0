//! Laws of the definitions. None of these functions does anything: each is its contract.
ghost use Rattle.std.specs.Prelude.{◌≡◌};
ghost use Rattle.atomic_table.specs.Seated.{TableId};
ghost use Rattle.board_rule.specs.Calls.{view_of};
ghost use Rattle.fb_conn.specs.declared.seats.Seat.{Seat};
ghost use Rattle.fb_conn.specs.Seats.{IsAtRest, state_of};

/// A desk is of one seat: what is the same seat in the states of sessions is of one table and has one number.
pub fn states_tell_seats_apart()
    ensures { (table other : TableId) (old new : Seat) → IsAtRest table old → IsAtRest other new
        → (state_of new).seat ≡ (state_of old).seat
        → IsAtRest table new × ((view_of new.board).number ≡ (view_of old.board).number) }
{}
