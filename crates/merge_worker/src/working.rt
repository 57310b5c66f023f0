//! Merging beside the sessions, in rounds.
ghost use Rattle.std.specs.Prelude.{◌≡◌, ◌↔◌, ℕ, ◌<◌, None, Some, IfOk, IfErr, OnOk, OnErr, IsErrOf, IsTrue, IsFalse};
ghost use Rattle.io_faults.specs.Faults.{Rose};
ghost use Rattle.fb_model.specs.History.{basis};
ghost use Rattle.board_rule.specs.Calls.{view_of};
ghost use Rattle.fb_conn.specs.Seats.{IsWorkerOf};
ghost use Rattle.fb_roots.specs.declared.bases.Base.{Base};
ghost use Rattle.fb_roots.specs.Bases.{IsBaseOf};
ghost use Rattle.merge_worker.specs.declared.ends.WorkEnd.{WorkEnd};
ghost use Rattle.merge_worker.specs.Work.{IsOldOrKept, AreAhead, AreOldOrKept, start_of, is_due, IsOutOfIds, IsOutOfTurns, IsSpent, IsSameWorker, AreStill};
ghost use Rattle.merge_worker.specs.Ends.{HasCause, IsUnfailed};

use crate::bases::{merged_base, start};
use crate::catching_up::{catch_up, take_latest};
use crate::ends::WorkEnd;
use crate::gates::{Gate, Point};
use crate::worth::worth_of;
use fb_conn::{Bell, Conn, Seat};
use fb_log::Log;
use fb_memory::Memory;
use fb_roots::{Base, RootStore};
use std::alloc::Global;
use std::sync::Wait;
use std::thread::Threads;

/// After so many turns a seat has no two left.
const MOST_TURNS: u64 = 4_294_967_294;

/// Merges whenever a merge is due and worth what it writes; once no session is left, until none is due. The trees of a merge are kept
/// before the sessions get them. A merge starts from the trees `ahead`, if there are any, which are not adopted yet, and else from the
/// base. Trees that were kept and could not be adopted are ahead afterwards. Where there is nothing to merge it sleeps until it is rung.
pub fn work<L: Log, T: RootStore, R: Threads + Wait + Sync, G: Gate>(
    rt: &R,
    alloc: Global,
    conn: &Conn<L>,
    seat: &mut Seat,
    store: &mut T,
    base: &mut Base,
    ahead: &mut Option<Base>,
    gate: &G,
) -> WorkEnd
    requires seat { IsWorkerOf conn.now seat.old }
    requires base { IsBaseOf base.old seat.old.last.entries (view_of seat.old.board).covered }
    requires ahead { AreAhead ahead.old seat.old.last.entries }
    requires fits { T.fits store.old (start_of base.old ahead.old).roots }
    ensures seat { IsWorkerOf conn.now seat.new }
    ensures same { IsSameWorker (view_of seat.old.board) (view_of seat.new.board) }

    // The adopted trees are of the same entries as the base, which is the one from before, or is kept.
    ensures base { IsBaseOf base.new seat.new.last.entries (view_of seat.new.board).covered }
    ensures kept { (begun : T) → T.goes begun store.old
        → IsOldOrKept (T.keeps begun) base.old store.new base.new }
    ensures stays { (begun : T) (older : Base) → T.goes begun store.old
        → T.keeps begun older store.old → T.keeps begun older store.new }
    ensures ahead { AreAhead ahead.new seat.new.last.entries }
    ensures ahead_kept { (begun : T) → T.goes begun store.old
        → AreOldOrKept (T.keeps begun) ahead.old store.new ahead.new }
    ensures fits { (result ≡ WorkEnd.StoreFault → ⊥)
        → T.fits store.new (start_of base.new ahead.new).roots }
    ensures shut { result ≡ WorkEnd.Shut → IsFalse (is_due conn.now.merge_at seat.new.last) }
    ensures fault { result ≡ WorkEnd.StoreFault → Rose (T.faults store.old) (T.faults store.new) }
    ensures unfailed { (result ≡ WorkEnd.StoreFault → ⊥)
        → ((begun : T) → T.goes begun store.old → T.goes begun store.new)
        × (T.faults store.new ≡ T.faults store.old) }

    // Where nothing fails, it ends with `Spent` exactly where no further round could merge.
    ensures spent { result ≡ WorkEnd.Spent
        ↔ (IsUnfailed result
        × IsSpent conn.now.merge_at (view_of seat.new.board) seat.new.last (T.next store.new)
        (start_of base.new ahead.new)) }
{
    let mut shut = false;
    for _ in rt.forever() {
        let worth = worth_of(start(base, ahead), shut);
        let merged = match round(rt, alloc, conn, seat, store, base, ahead, worth, gate) {
            Ok(merged) => merged,
            Err(end) => return end,
        };
        if merged {
            continue;
        }
        if is_out_of_turns(seat) {
            return WorkEnd::Spent;
        }
        if shut {
            return WorkEnd::Shut;
        }
        conn.ring_from(worth);
        if let Bell::Shut = conn.wait(rt) {
            shut = true;
        }
    }
    unreachable!()
}

/// Whether the seat has no turns left for a round, which takes two at least.
pub(crate) fn is_out_of_turns(seat: &Seat) -> bool
    ensures { IsTrue result ↔ IsOutOfTurns (view_of seat.now.board) }
{
    seat.draws() > MOST_TURNS
}

/// Looks at the latest value, and merges it where that is due and `worth` of its datoms are live. It says whether it did.
fn round<L: Log, T: RootStore, R: Threads + Wait + Sync, G: Gate>(
    rt: &R,
    alloc: Global,
    conn: &Conn<L>,
    seat: &mut Seat,
    store: &mut T,
    base: &mut Base,
    ahead: &mut Option<Base>,
    worth: u64,
    gate: &G,
) -> Result<bool, WorkEnd>
    requires seat { IsWorkerOf conn.now seat.old }
    requires base { IsBaseOf base.old seat.old.last.entries (view_of seat.old.board).covered }
    requires ahead { AreAhead ahead.old seat.old.last.entries }
    requires fits { T.fits store.old (start_of base.old ahead.old).roots }
    ensures seat { IsWorkerOf conn.now seat.new }
    ensures same { IsSameWorker (view_of seat.old.board) (view_of seat.new.board) }
    ensures base { IsBaseOf base.new seat.new.last.entries (view_of seat.new.board).covered }
    ensures kept { (begun : T) → T.goes begun store.old
        → IsOldOrKept (T.keeps begun) base.old store.new base.new }
    ensures stays { (begun : T) (older : Base) → T.goes begun store.old
        → T.keeps begun older store.old → T.keeps begun older store.new }
    ensures ahead { AreAhead ahead.new seat.new.last.entries }
    ensures ahead_kept { (begun : T) → T.goes begun store.old
        → AreOldOrKept (T.keeps begun) ahead.old store.new ahead.new }
    ensures fits { (IsErrOf result WorkEnd.StoreFault → ⊥)
        → T.fits store.new (start_of base.new ahead.new).roots }
    ensures not_due { IfOk result (λ merged. IsFalse merged → worth ≡ 0
        → IsFalse (is_due conn.now.merge_at seat.new.last)) }
    ensures end { IfErr result (HasCause (Rose (T.faults store.old) (T.faults store.new))
        (IsSpent conn.now.merge_at (view_of seat.new.board) seat.new.last (T.next store.new)
        (start_of base.new ahead.new))) }
    ensures unfailed { (IsErrOf result WorkEnd.StoreFault → ⊥)
        → ((begun : T) → T.goes begun store.old → T.goes begun store.new)
        × (T.faults store.new ≡ T.faults store.old) }
{
    if !begins(rt, conn, seat, worth)? {
        return Ok(false);
    }
    merge_last(rt, alloc, conn, seat, store, base, ahead, gate)?;
    Ok(true)
}

/// Takes the first turn of a round. It says whether the latest value, which the seat has from then on, is to be merged: whether it
/// is due, and worth it.
fn begins<L: Log, R: Wait>(
    rt: &R,
    conn: &Conn<L>,
    seat: &mut Seat,
    worth: u64,
) -> Result<bool, WorkEnd>
    requires seat { IsWorkerOf conn.now seat.old }
    ensures seat { IsWorkerOf conn.now seat.new }
    ensures same { IsSameWorker (view_of seat.old.board) (view_of seat.new.board) }
    ensures covered { (view_of seat.new.board).covered ≡ (view_of seat.old.board).covered }
    ensures trees { AreStill seat.old.last.entries seat.new.last.entries }
    ensures turn { OnOk result ((view_of seat.new.board).draws < 4294967296) }
    ensures due { IfOk result
        (λ begins. IsTrue begins → IsTrue (is_due conn.now.merge_at seat.new.last)) }
    ensures not_due { IfOk result (λ begins. IsFalse begins → worth ≡ 0
        → IsFalse (is_due conn.now.merge_at seat.new.last)) }
    ensures end { IfErr result (HasCause ⊥ (IsOutOfTurns (view_of seat.new.board))) }
{
    if is_out_of_turns(seat) {
        return Err(WorkEnd::Spent);
    }
    let latest = take_latest(rt, conn, seat)?;
    Ok(conn.due(&latest) && latest.live_len() >= worth)
}

/// Merges the seat's last value. Its trees are kept, and then adopted.
fn merge_last<L: Log, T: RootStore, R: Threads + Wait + Sync, G: Gate>(
    rt: &R,
    alloc: Global,
    conn: &Conn<L>,
    seat: &mut Seat,
    store: &mut T,
    base: &mut Base,
    ahead: &mut Option<Base>,
    gate: &G,
) -> Result<(), WorkEnd>
    requires seat { IsWorkerOf conn.now seat.old }
    requires turn { (view_of seat.old.board).draws < 4294967296 }
    requires base { IsBaseOf base.old seat.old.last.entries (view_of seat.old.board).covered }
    requires ahead { AreAhead ahead.old seat.old.last.entries }
    requires fits { T.fits store.old (start_of base.old ahead.old).roots }
    ensures seat { IsWorkerOf conn.now seat.new }
    ensures same { IsSameWorker (view_of seat.old.board) (view_of seat.new.board) }
    ensures last { IsErrOf result WorkEnd.Spent → seat.new.last ≡ seat.old.last }
    ensures base { IsBaseOf base.new seat.new.last.entries (view_of seat.new.board).covered }
    ensures kept { (begun : T) → T.goes begun store.old
        → IsOldOrKept (T.keeps begun) base.old store.new base.new }
    ensures stays { (begun : T) (older : Base) → T.goes begun store.old
        → T.keeps begun older store.old → T.keeps begun older store.new }
    ensures ahead { AreAhead ahead.new seat.new.last.entries }
    ensures ahead_kept { (begun : T) → T.goes begun store.old
        → AreOldOrKept (T.keeps begun) ahead.old store.new ahead.new }
    ensures fits { (IsErrOf result WorkEnd.StoreFault → ⊥)
        → T.fits store.new (start_of base.new ahead.new).roots }
    ensures end { IfErr result (HasCause (Rose (T.faults store.old) (T.faults store.new))
        (IsOutOfIds (T.next store.new) (start_of base.new ahead.new))) }
    ensures unfailed { (IsErrOf result WorkEnd.StoreFault → ⊥)
        → ((begun : T) → T.goes begun store.old → T.goes begun store.new)
        × (T.faults store.new ≡ T.faults store.old) }
{
    let begin = seat.last();
    // This call brings into the proof that the snapshot represents its history.
    let _basis = begin.basis();
    gate.pass(Point::BeforeMerge);
    let next = merged_base(rt, alloc, store, start(base, ahead), begin)?;
    gate.pass(Point::AfterMerge);
    store.keep(alloc, &next)?;
    gate.pass(Point::BeforeAdopt);
    adopt(rt, conn, seat, base, ahead, next)?;
    Ok(())
}

/// Adopts trees of the seat's last value, which are kept. They become the base, or, where memory runs out, are ahead of it.
fn adopt<L: Log, R: Wait>(
    rt: &R,
    conn: &Conn<L>,
    seat: &mut Seat,
    base: &mut Base,
    ahead: &mut Option<Base>,
    next: Base,
) -> Result<(), Memory>
    requires seat { IsWorkerOf conn.now seat.old }
    requires turn { (view_of seat.old.board).draws < 4294967296 }
    requires base { IsBaseOf base.old seat.old.last.entries (view_of seat.old.board).covered }
    requires next { IsBaseOf next seat.old.last.entries (basis seat.old.last.entries) }
    ensures seat { IsWorkerOf conn.now seat.new }
    ensures same { IsSameWorker (view_of seat.old.board) (view_of seat.new.board) }
    ensures trees { AreStill seat.old.last.entries seat.new.last.entries }
    ensures base { IsBaseOf base.new seat.new.last.entries (view_of seat.new.board).covered }
    ensures adopted { OnOk result ((base.new ≡ next) × (ahead.new ≡ None)) }
    ensures kept { OnErr result ((base.new ≡ base.old) × (ahead.new ≡ Some next)) }
    ensures ahead { OnErr result (AreAhead ahead.new seat.new.last.entries) }
{
    match publish(rt, conn, seat, &next) {
        Ok(()) => {
            *base = next;
            *ahead = None;
            Ok(())
        }
        Err(fault) => {
            *ahead = Some(next);
            Err(fault)
        }
    }
}

/// Takes the last turn of a round, in which the trees are adopted, once most of what came meanwhile has been added to them.
fn publish<L: Log, R: Wait>(
    rt: &R,
    conn: &Conn<L>,
    seat: &mut Seat,
    next: &Base,
) -> Result<(), Memory>
    requires seat { IsWorkerOf conn.now seat.old }
    requires turn { (view_of seat.old.board).draws < 4294967296 }
    requires next { IsBaseOf next.now seat.old.last.entries (basis seat.old.last.entries) }
    ensures seat { IsWorkerOf conn.now seat.new }
    ensures same { IsSameWorker (view_of seat.old.board) (view_of seat.new.board) }
    ensures trees { AreStill seat.old.last.entries seat.new.last.entries }
    ensures adopted { OnOk result ((view_of seat.new.board).covered ≡ next.now.c) }
    ensures unchanged { OnErr result
        ((view_of seat.new.board).covered ≡ (view_of seat.old.board).covered) }
{
    let roots = next.roots.share()?;
    let last = seat.last();
    // This call brings into the proof that the snapshot represents its history.
    let _basis = last.basis();
    let fresh = last.rebased(last, roots)?;
    let ahead = catch_up(rt, conn, seat, fresh)?;
    conn.publish(rt, seat, &ahead)
}
