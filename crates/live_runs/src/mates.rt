//! Which datom of a triple runs have.
ghost use Rattle.std.specs.Prelude.{◌≡◌, ◌<◌};
ghost use Rattle.std.specs.List.{list_any};
ghost use Rattle.live_runs.specs.Mates.{IsMateIn, is_mate};
ghost use Rattle.live_runs.specs.Runs.{AreRuns, runs_datoms};

use crate::aim::Aim;
use crate::runs::Runs;
use crate::table::Table;
use fb_search::Steps;
use fb_values::{Datom, Order};
use std::marker::Brand;
use std::sync::ledger::{Blank, Ledger};

impl Runs {
    /// Whether they have a datom of another one's triple.
    pub fn has_mate(&self, table: &Table, order: Order, d: &Datom) -> bool
        requires { AreRuns order table.now self.now }
        ensures { result ≡ list_any (is_mate d.now) (runs_datoms order table.now self.now) }
    {
        self.mate(table, order, d).is_some()
    }

    /// The number of the first datom of another one's triple. The other one may be there or not.
    pub fn mate(&self, table: &Table, order: Order, d: &Datom) -> Option<u32>
        requires { AreRuns order table.now self.now }
        ensures { IsMateIn table.now (runs_datoms order table.now self.now) d.now result }
    {
        self.mate_by::<Brand>(table, order, d, Blank::new(1))
    }

    /// The comparisons count in a ledger of their own, which nobody reads.
    fn mate_by<L: Ledger>(
        &self,
        table: &Table,
        order: Order,
        d: &Datom,
        blank: Blank,
    ) -> Option<u32>
        requires runs { AreRuns order table.now self.now }
        requires name { blank.name ≡ L.name }
        requires parts { blank.parts ≡ L.parts }
        requires some { 0 < blank.parts }
        ensures { IsMateIn table.now (runs_datoms order table.now self.now) d.now result }
    {
        let aim = Aim::of_triple(order, d);
        let mut walk = self.walk_from(table, &aim, &mut Steps::<L>::of(blank));
        let number = walk.next_number()?;
        if is_mate(d, table.at(number)) {
            Some(number)
        } else {
            None
        }
    }
}

/// Whether both are of one triple.
pub fn is_mate(d: &Datom, x: &Datom) -> bool
    ensures { result ≡ is_mate d.now x.now }
{
    x.e == d.e && x.a == d.a && x.v == d.v
}
