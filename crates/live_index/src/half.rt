//! One half of the live index: what holds, or what does not.
ghost use Rattle.std.specs.Prelude.{◌≡◌, ℕ, ◌+◌, ◌-◌, ◌*◌, ◌^◌, ◌<◌, ◌≤◌, [], length};
ghost use Rattle.std.specs.List.{list_any, slice_get};
ghost use Rattle.std.specs.Option.{option_copied};
ghost use Rattle.fb_values.specs.declared.indexes.Order.TheVariants.{Eavt};
ghost use Rattle.fb_values.specs.Lists.{list_in};
ghost use Rattle.fb_values.specs.Rising.{IsRising};
ghost use Rattle.live_runs.specs.Bounds.{blocks_at_least};
ghost use Rattle.live_runs.specs.Changed.{from_probe};
ghost use Rattle.live_runs.specs.Walks.{IsFirstOf};
ghost use Rattle.live_index.specs.Ending.{is_mate};
ghost use Rattle.live_index.specs.Lists.{AreIf, lists_if, looked_at};
ghost use Rattle.live_index.specs.Walks.{IsRest, before_rest, rest_of};

use crate::orders::Orders;
use fb_search::Steps;
use fb_values::{Datom, Order, Probe};
use live_runs::{RunsWalk, Table};
use std::marker::Model;
use std::sync::ledger::Ledger;

/// Four lists of datoms, each strictly rising in its order.
#[derive(Drop)]
pub struct Half<'a> {
    table: &'a Table,
    orders: Option<&'a Orders>,
}

impl<'a> Model for Half<'a> {
    ghost use Rattle.fb_values.specs.Lists.{Lists};
    ghost use Rattle.live_index.specs.Lists.{AreIf, lists_if, looked_at};

    ghost Value = { Lists };

    ghost view = { λ h. lists_if h.table.now (looked_at h.orders) };

    ghost invariant = { λ h. AreIf h.table.now (looked_at h.orders) };
}

impl<'a> Half<'a> {
    pub(crate) fn of(table: &'a Table, orders: Option<&'a Orders>) -> Half<'a>
        requires { AreIf table.now (looked_at orders) }
        ensures { result ≡ lists_if table.now (looked_at orders.entry) }
    {
        Half { table, orders }
    }

    /// How many datoms the order's list has.
    pub fn len(&self, order: Order) -> u64
        ensures { result ≡ length (list_in self.now order) }
    {
        match self.orders {
            None => 0,
            Some(orders) => orders.list(order).len() as u64,
        }
    }

    /// The walk over the order's list.
    pub fn walk(&self, order: Order) -> HalfWalk<'a>
        ensures { result ≡ list_in self.now order }
    {
        match self.orders {
            None => HalfWalk::of(Rest::Nothing),
            Some(orders) => HalfWalk::of(Rest::Runs(orders.list(order).walk(self.table, order))),
        }
    }

    /// The walk from the first datom on that is not below the probe, over the list of the probe's order.
    pub fn seek<L: Ledger>(&self, probe: &Probe, steps: &mut Steps<L>) -> HalfWalk<'a>
        ensures place { result ≡ from_probe probe.now (list_in self.now probe.now.order) }
        ensures rising { IsRising probe.now.order (list_in self.now probe.now.order) }
        // At most twice the binary digits of the number of blocks, and 18 more, however few the blocks are.
        ensures cost { (digits : ℕ)
            → blocks_at_least (length (list_in self.now probe.now.order)) < 2 ^ digits
            → steps.new ≤ steps.old + 2 * digits + 18 }
    {
        match self.orders {
            None => HalfWalk::of(Rest::Nothing),
            Some(orders) => {
                let runs = orders.list(probe.order);
                HalfWalk::of(Rest::Runs(runs.seek(self.table, probe, steps)))
            }
        }
    }

    /// Whether a datom of the datom's triple is there. No comparison counts.
    pub fn has_mate(&self, datom: &Datom) -> bool
        ensures { result ≡ list_any (is_mate datom.now) (list_in self.now Eavt) }
    {
        match self.orders {
            None => false,
            Some(orders) => {
                let order = Order::Eavt;
                orders.list(order).has_mate(self.table, order, datom)
            }
        }
    }
}

/// What is left of a list.
#[derive(Drop)]
pub enum Rest<'a> {
    Nothing,
    Runs(RunsWalk<'a>),
}

impl<'a> Rest<'a> {
    fn next(&mut self) -> Option<&'a Datom>
        requires { IsRest self.old }
        ensures rest { IsRest self.new }
        ensures first { IsFirstOf (rest_of self.old) (rest_of self.new) result }
    {
        match self {
            Rest::Nothing => None,
            Rest::Runs(walk) => walk.next(),
        }
    }
}

/// What is left of a half's list, with its first datom at hand.
#[derive(Drop)]
pub struct HalfWalk<'a> {
    first: Option<&'a Datom>,
    rest: Rest<'a>,
}

impl<'a> Model for HalfWalk<'a> {
    ghost use Rattle.std.specs.Prelude.{List};
    ghost use Rattle.fb_values.specs.declared.facts.Datom.{Datom};
    ghost use Rattle.live_index.specs.Walks.{IsRest, before_rest, rest_of};

    ghost Value = { List Datom };

    ghost view = { λ h. before_rest h.first (rest_of h.rest) };

    ghost invariant = { λ h. IsRest h.rest };
}

impl<'a> HalfWalk<'a> {
    pub(crate) fn of(mut rest: Rest<'a>) -> HalfWalk<'a>
        requires { IsRest rest }
        ensures { result ≡ rest_of rest.entry }
    {
        let first = rest.next();
        HalfWalk { first, rest }
    }

    /// Nothing.
    pub(crate) fn none() -> HalfWalk<'a>
        ensures { result ≡ [] }
    {
        HalfWalk::of(Rest::Nothing)
    }

    /// The next datom, without a step.
    pub fn first(&self) -> Option<&'a Datom>
        ensures { option_copied result ≡ slice_get self.now 0 }
    {
        self.first
    }

    /// The next datom.
    pub fn next(&mut self) -> Option<&'a Datom>
        ensures { IsFirstOf self.old self.new result }
    {
        let first = self.first?;
        self.first = self.rest.next();
        Some(first)
    }
}
