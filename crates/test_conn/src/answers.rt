//! What the connection answers, in the words of the model.
ghost use Rattle.std.specs.Prelude.{◌≡◌, ℕ, ◌<◌};
ghost use Rattle.fb_conn.specs.Seats.{IsSeatOf};
ghost use Rattle.board_rule.specs.Calls.{view_of};
ghost use Rattle.test_conn.specs.Seated.{IsSession};

use crate::calls::{Call, Said, Turn};
use crate::forms::Forms;
use crate::logs::CountingLog;
use anyhow::{Result, bail};
use edn_form::Edn;
use fb_conn::laws::states_tell_seats_apart;
use fb_conn::{Conn, Seat};
use fb_desk::{Glance, Receipt, Reply, TxFault};
use fb_memory::Memory;
use fb_text::Text;
use fb_view::Snapshot;
use mem_ports::FixedClock;
use std::sync::Wait;
use tx_step::NoGuard;

/// The first of January 2024.
const CLOCK: i64 = 1_704_067_200_000;

/// A seat makes far fewer calls.
const MOST_TURNS: u64 = 1000;

/// What a call was answered.
#[derive(Drop)]
pub(crate) struct Answer {
    pub(crate) said: Said,
    pub(crate) snapshot: Snapshot,
}

/// The t in the line that was made before the entry was recorded.
#[derive(Clone, Copy)]
struct Line {
    t: Option<u32>,
}

impl Reply for Line {
    ghost says = { λ _ _ _. Unit {0} };

    fn receipt(&mut self, t: u32, _tempids: &[(Text, u64)]) -> Result<(), Memory> {
        self.t = Some(t);
        Ok(())
    }
}

/// Asks for the call at the session's seat.
pub(crate) fn ask<R: Wait>(
    rt: &R,
    conn: &Conn<CountingLog>,
    seat: &mut Seat,
    turn: Turn,
    forms: &Forms,
) -> Result<Answer>
    requires { IsSeatOf conn.now seat.old }
    ensures { (k : ℕ) → IsSession conn.now k seat.old → IsSession conn.now k seat.new }
{
    if seat.draws() > MOST_TURNS {
        bail!("a seat took too many turns");
    }
    match turn.call {
        Call::Good => transact(rt, conn, seat, forms.good(turn.who)),
        Call::Bad => transact(rt, conn, seat, forms.bad()),
        Call::Db => look(conn, seat),
        Call::Sync => sync(rt, conn, seat),
    }
}

fn transact<R: Wait>(
    rt: &R,
    conn: &Conn<CountingLog>,
    seat: &mut Seat,
    asked: &Edn,
) -> Result<Answer>
    requires seat { IsSeatOf conn.now seat.old }
    requires turns { (view_of seat.old.board).draws < 4294967296 }
    ensures { (k : ℕ) → IsSession conn.now k seat.old → IsSession conn.now k seat.new }
{
    states_tell_seats_apart();
    let clock = FixedClock::new(CLOCK);
    let mut line = Line { t: None };
    let outcome = conn.transact(rt, seat, &clock, &NoGuard, asked, &mut line);
    told(outcome, line)
}

fn look(conn: &Conn<CountingLog>, seat: &mut Seat) -> Result<Answer>
    requires { IsSeatOf conn.now seat.old }
    ensures { (k : ℕ) → IsSession conn.now k seat.old → IsSession conn.now k seat.new }
{
    states_tell_seats_apart();
    let outcome = conn.db(seat);
    glanced(outcome)
}

fn sync<R: Wait>(rt: &R, conn: &Conn<CountingLog>, seat: &mut Seat) -> Result<Answer>
    requires seat { IsSeatOf conn.now seat.old }
    requires turns { (view_of seat.old.board).draws < 4294967296 }
    ensures { (k : ℕ) → IsSession conn.now k seat.old → IsSession conn.now k seat.new }
{
    states_tell_seats_apart();
    let outcome = conn.sync(rt, seat);
    shown(outcome)
}

/// The answer to a transaction. Its line was made exactly where an entry was to be recorded.
fn told(outcome: Result<Receipt, TxFault>, line: Line) -> Result<Answer> {
    if line.t != recorded(&outcome) {
        bail!("the line of a transaction was made too late, or for nothing");
    }
    match outcome {
        Ok(receipt) => Ok(accepted(receipt)),
        Err(fault) => not_accepted(fault),
    }
}

/// The t of the entry that was recorded, or was to be.
fn recorded(outcome: &Result<Receipt, TxFault>) -> Option<u32> {
    match outcome {
        Ok(receipt) => Some(receipt.t),
        Err(TxFault::LogFault { at, .. }) => Some(*at),
        Err(_) => None,
    }
}

fn accepted(receipt: Receipt) -> Answer {
    let said = Said::Receipt {
        t: u64::from(receipt.t),
        entity: first_entity(receipt.tempids.as_slice()),
    };
    Answer {
        said,
        snapshot: receipt.snapshot,
    }
}

fn not_accepted(fault: TxFault) -> Result<Answer> {
    let (said, snapshot) = match fault {
        TxFault::Refused { refusal, snapshot } => (Said::Refused(refusal), snapshot),
        TxFault::LogFault { at, snapshot } => (Said::LogFault(u64::from(at)), snapshot),
        TxFault::Stopped { at, snapshot } => (Said::Stopped(u64::from(at)), snapshot),
        TxFault::Memory => bail!("out of memory"),
    };
    Ok(Answer { said, snapshot })
}

/// The entity of the only tempid that has a name, or 0.
fn first_entity(tempids: &[(Text, u64)]) -> u64 {
    match tempids {
        [tempid] => tempid.1,
        _ => 0,
    }
}

fn glanced(outcome: Result<Glance, Memory>) -> Result<Answer> {
    match outcome? {
        Glance::Fresh(snapshot) => Ok(Answer {
            said: Said::Shown,
            snapshot,
        }),
        Glance::Held(_) => bail!("somebody else held the mail"),
    }
}

fn shown(outcome: Result<Snapshot, Memory>) -> Result<Answer> {
    Ok(Answer {
        said: Said::Shown,
        snapshot: outcome?,
    })
}
