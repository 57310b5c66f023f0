//! What a search among members looks for.
ghost use Rattle.std.specs.Prelude.{◌≡◌, ◌<◌, length};
ghost use Rattle.fb_search.specs.Places.{is_below};
ghost use Rattle.live_runs.specs.Mates.{triple_of};
ghost use Rattle.live_runs.specs.Members.{IsMember, datom_of};

use crate::mates::is_mate;
use crate::members::Member;
use crate::table::Table;
use fb_prefix::{Sought, prefix_of, sought_by};
use fb_search::stands_after;
use fb_values::{Datom, Order, Probe, cmp_probe};
use std::cmp::Ordering;
use std::marker::Model;

/// What the datoms are compared with.
#[derive(Drop)]
pub enum What<'a> {
    Probe(&'a Probe),
    /// All datoms of the datom's triple.
    Triple(Order, &'a Datom),
}

/// What is looked for, and what prefixes tell of it.
#[derive(Drop)]
pub struct Aim<'a> {
    what: What<'a>,
    sought: Sought,
}

impl<'a> Model for Aim<'a> {
    ghost use Rattle.fb_values.specs.declared.indexes.Probe.{Probe};
    ghost use Rattle.live_runs.specs.Seeks.{IsSoughtBy, aim_of};

    ghost Value = { Probe };

    ghost view = { λ a. aim_of a.what };

    ghost invariant = { λ a. IsSoughtBy (aim_of a.what) a.sought };
}

impl<'a> Aim<'a> {
    pub fn of_probe(probe: &'a Probe) -> Aim<'a>
        ensures { result ≡ probe.now }
    {
        Aim {
            sought: sought_by(probe),
            what: What::Probe(probe),
        }
    }

    pub fn of_triple(order: Order, d: &'a Datom) -> Aim<'a>
        ensures { result ≡ triple_of order d.now }
    {
        Aim {
            sought: Sought {
                from: prefix_of(order, d),
                is_whole: false,
            },
            what: What::Triple(order, d),
        }
    }

    pub fn order(&self) -> Order
        ensures { result ≡ self.now.order }
    {
        match &self.what {
            What::Probe(probe) => probe.order,
            What::Triple(order, _) => *order,
        }
    }

    /// Whether a member's datom is below it. Its prefix tells most comparisons.
    pub fn is_above(&self, table: &Table, m: &Member) -> bool
        requires { IsMember self.now.order table.now m.now }
        ensures { result ≡ is_below self.now (datom_of table.now m.now.number) }
    {
        if m.prefix.is_below(&self.sought.from) {
            true
        } else if self.sought.is_whole || self.sought.from.is_below(&m.prefix) {
            false
        } else {
            self.is_above_datom(table, m.number)
        }
    }

    /// Apart, as the comparison of two datoms is.
    #[inline(never)]
    fn is_above_datom(&self, table: &Table, number: u32) -> bool
        requires { number < length table.now }
        ensures { result ≡ is_below self.now (datom_of table.now number) }
    {
        let datom = table.at(number);
        match &self.what {
            What::Probe(probe) => cmp_probe(probe, datom) == Ordering::Greater,
            What::Triple(order, d) => is_triple_above(*order, d, datom),
        }
    }
}

/// Whether a datom stands before all datoms of another one's triple.
fn is_triple_above(order: Order, d: &Datom, x: &Datom) -> bool
    ensures { result ≡ is_below (triple_of order d.now) x.now }
{
    !is_mate(d, x) && stands_after(order, d, x)
}
