//! The walk of a scan: one seek, and then a step for each datom.
ghost use Rattle.std.specs.Prelude.{◌≡◌, ◌<◌, ◌++◌, ◌∷◌, [], List, length, IfOk, IfSome, MatchOption, map};
ghost use Rattle.std.specs.List.{slice_get};
ghost use Rattle.std.specs.Option.{option_copied};
ghost use Rattle.fb_values.specs.declared.facts.Datom.{Datom as TheDatom};
ghost use Rattle.fb_values.specs.declared.indexes.Probe.{Probe as TheProbe};
ghost use Rattle.fb_model.specs.Facts.{facts};
ghost use Rattle.fb_model.specs.Schema.{covers};
ghost use Rattle.view_model.specs.Window.{Window};
ghost use Rattle.fb_db.specs.Seen.{window_of};
ghost use Rattle.fb_scan.specs.declared.ends.End.{End as TheEnd};
ghost use Rattle.fb_scan.specs.Ends.{IsIn, IsWalk};
ghost use Rattle.fb_scan.specs.Steps.{AreRead, HasGiven, IsWalkUpto, KnowsEnd, showing};
ghost use Rattle.fb_scan.specs.Walks.{is_shown};

use crate::ends::End;
use crate::held::{Known, holds};
use crate::sight::{extent_of, sees};
use fb_db::Db;
use fb_index::{Extent, Sides, Walk};
use fb_memory::Memory;
use fb_preds::Selector;
use fb_values::{Datom, Order, Probe};
use std::alloc::Global;

/// A scan that gives its datoms one after another, and copies none.
#[derive(Drop)]
pub struct Scan<'a, 'p, S> {
    db: &'a Db<S>,
    /// Whether history is shown, in place of what the database value says.
    history: bool,
    extent: Extent,
    order: Order,
    end: End<'p>,
    /// What is known of the attribute at which it ends.
    known: Option<Known>,
    /// What is left to read.
    walk: Walk<'a, 'p>,
}

impl<'a, 'p, S: Selector> Scan<'a, 'p, S> {
    /// The scan of what the database value sees of the probe's index, from the probe on and not beyond the end.
    pub fn start(db: &'a Db<S>, from: &Probe, end: End<'p>) -> Scan<'a, 'p, S>
        requires { IsIn from.now.order end }
        ensures { HasGiven db.now (S.selects db.now.filter) from.now end.entry result [] }
    {
        Scan::showing(db, db.history, from, end)
    }

    /// The same scan, which shows history or none whatever the database value says.
    pub(crate) fn showing(
        db: &'a Db<S>,
        history: bool,
        from: &Probe,
        end: End<'p>,
    ) -> Scan<'a, 'p, S>
        requires { IsIn from.now.order end }
        ensures { HasGiven (showing history db.now) (S.selects db.now.filter) from.now end.entry
            result [] }
    {
        let sides = sides(db, history, from.order);
        Scan {
            db,
            history,
            extent: sides.extent,
            order: from.order,
            end,
            known: Known::at(&db.snapshot, from.order, end),
            walk: sides.walk(from, end.last_read(sides.extent)),
        }
    }

    /// The next datom.
    pub fn next(&mut self) -> Option<&'a Datom>
        ensures next { (db : Db S) (from : TheProbe) (end : TheEnd) (found : List TheDatom)
            → HasGiven db (S.selects db.filter) from end self.old found
            → MatchOption result
            (IsWalk db.snapshot.entries (window_of db) (S.selects db.filter) from end found)
            (λ d. HasGiven db (S.selects db.filter) from end self.new (found ++ d.now ∷ [])) }
        ensures less { IfSome result (λ _. length self.new.walk < length self.old.walk) }
    {
        while let Some(datom) = self.walk.next() {
            if self.end.is_past(datom) {
                return None;
            }
            let held = self.holds(datom.a);
            let next = self.following();
            if sees(self.db, self.history, self.extent, held, datom, next) {
                return Some(datom);
            }
        }
        None
    }

    /// Whether the index holds the attribute.
    fn holds(&self, a: u64) -> bool
        ensures { KnowsEnd self.now
            → result ≡ covers (facts self.now.db.now.snapshot.entries) self.now.order a }
    {
        match self.known {
            Some(known) if known.a == a => known.is_held,
            _ => holds(&self.db.snapshot, self.order, a),
        }
    }

    /// The datom beside which the window looks at the one before it. Where what holds is read, it looks at none.
    fn following(&self) -> Option<&'a Datom>
        ensures { (w : Window) (d : TheDatom)
            → is_shown self.now.extent w d (option_copied result)
            ≡ is_shown self.now.extent w d (slice_get self.now.walk 0) }
    {
        match self.extent {
            Extent::Said => self.walk.peek(),
            Extent::Held => None,
        }
    }
}

/// What the database value sees of the probe's index, from the probe on and not beyond the end; at most so many, where a
/// number is given.
pub fn lend<'a, S: Selector>(
    alloc: Global,
    db: &'a Db<S>,
    from: &Probe,
    end: End<'_>,
    most: Option<usize>,
) -> Result<Vec<&'a Datom>, Memory>
    requires { IsIn from.now.order end }
    ensures { IfOk result (λ ds. IsWalkUpto most db.now.snapshot.entries (window_of db.now)
        (S.selects db.now.filter) from.now end.entry (map (λ d. d.now) ds.items)) }
{
    let mut found = Vec::new(alloc);
    let mut scan = Scan::start(db, from, end);
    while most != Some(found.len()) {
        let Some(datom) = scan.next() else {
            return Ok(found);
        };
        found.push(datom)?;
    }
    Ok(found)
}

/// The lists that a scan reads in an order.
fn sides<S: Selector>(db: &Db<S>, history: bool, order: Order) -> Sides<'_>
    ensures { AreRead db.now.snapshot (window_of (showing history db.now)) order result }
{
    db.snapshot.sides(order, extent_of(db, history))
}
