//! The desk.
ghost use Rattle.std.specs.Prelude.{◌≡◌};
ghost use Rattle.fb_conn.specs.Seats.{IsSeatOf, IsSeatOf-prop};

use edn_form::Edn;
use fb_conn::{Conn, Seat};
use fb_desk::{Desk, Glance, Receipt, Reply, TxFault};
use fb_log::Log;
use fb_memory::Memory;
use fb_ports::Clock;
use fb_view::Snapshot;
use std::sync::Wait;
use std::thread::Threads;
use tx_step::Guard;

/// A session's desk.
#[derive(Drop)]
pub struct ConnDesk<'a, L: Log> {
    conn: &'a Conn<L>,
    seat: Seat,
    ghost seated: { IsSeatOf conn.now seat } by { IsSeatOf-prop conn.now seat },
}

impl<'a, L: Log> ConnDesk<'a, L> {
    pub fn new(conn: &'a Conn<L>, seat: Seat) -> ConnDesk<'a, L>
        requires { IsSeatOf conn.now seat }
        ensures conn { result.conn.now ≡ conn.now }
        ensures seat { result.seat ≡ seat }
    {
        ConnDesk { conn, seat }
    }

    /// Gives the seat back.
    pub fn into_seat(self) -> Seat
        ensures seat { result ≡ self.entry.seat }
        ensures seated { IsSeatOf self.entry.conn.now result }
    {
        self.seat
    }
}

impl<'a, L: Log> Desk for ConnDesk<'a, L> {
    ghost use Rattle.fb_conn.specs.Seats.{state_of};

    ghost state = { λ desk. state_of desk.seat };

    fn snapshot(&self) -> &Snapshot {
        self.seat.last()
    }

    fn transact<R: Threads + Wait + Sync, K: Clock, G: Guard<Snapshot>, A: Reply>(
        &mut self,
        rt: &R,
        clock: &K,
        guard: &G,
        asked: &Edn,
        reply: &mut A,
    ) -> Result<Receipt, TxFault> {
        self.conn
            .transact(rt, &mut self.seat, clock, guard, asked, reply)
    }

    fn db(&mut self) -> Result<Glance, Memory> {
        self.conn.db(&mut self.seat)
    }

    fn sync<R: Threads + Wait + Sync>(&mut self, rt: &R) -> Result<Snapshot, Memory> {
        self.conn.sync(rt, &mut self.seat)
    }

    /// Asks the worker, which merges when it comes to it.
    fn ring<R: Threads + Wait + Sync>(&mut self, rt: &R) -> Result<(), Memory> {
        self.conn.ring(rt);
        Ok(())
    }
}
