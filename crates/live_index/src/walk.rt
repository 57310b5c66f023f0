//! The datoms since the trees were made, one by one: what holds and what does not side by side.
ghost use Rattle.std.specs.Prelude.{◌≡◌, ℕ, ◌+◌, ◌*◌, ◌^◌, ◌<◌, ◌≤◌, length};
ghost use Rattle.std.specs.Option.{option_copied};
ghost use Rattle.std.specs.Ordering.{is_lt};
ghost use Rattle.fb_values.specs.Orders.{key_cmp};
ghost use Rattle.fb_values.specs.Lists.{list_in};
ghost use Rattle.fb_values.specs.Rising.{IsRising};
ghost use Rattle.fb_model.specs.Facts.{standing};
ghost use Rattle.live_runs.specs.Bounds.{blocks_at_least};
ghost use Rattle.live_runs.specs.Changed.{from_probe};
ghost use Rattle.live_runs.specs.Walks.{IsFirstOf};
ghost use Rattle.live_index.specs.Halves.{withdrawn};
ghost use Rattle.live_index.specs.Walks.{comes_first};

use crate::half::HalfWalk;
use crate::live::Live;
use fb_search::Steps;
use fb_values::{Datom, Order, Probe, cmp_in};
use std::cmp::Ordering;
use std::marker::Model;
use std::sync::ledger::Ledger;

/// What is left of an order's live datoms.
#[derive(Drop)]
pub struct Walk<'a> {
    order: Order,
    holding: HalfWalk<'a>,
    past: HalfWalk<'a>,
}

impl<'a> Model for Walk<'a> {
    ghost use Rattle.std.specs.Prelude.{List};
    ghost use Rattle.fb_values.specs.declared.facts.Datom.{Datom};
    ghost use Rattle.live_index.specs.Halves.{IsPair, merged};

    ghost Value = { List Datom };

    ghost view = { λ w. merged w.order w.holding w.past };

    ghost invariant = { λ w. IsPair w.order w.holding w.past };
}

impl Live {
    /// The walk over what was said.
    pub fn said(&self, order: Order) -> Walk<'_>
        ensures { result ≡ list_in self.now order }
    {
        Walk {
            order,
            holding: self.holding().walk(order),
            past: self.past().walk(order),
        }
    }

    /// The walk over what was said, from the first datom on that is not below the probe.
    pub fn seek<L: Ledger>(&self, probe: &Probe, steps: &mut Steps<L>) -> Walk<'_>
        ensures place { result ≡ from_probe probe.now (list_in self.now probe.now.order) }
        ensures rising { IsRising probe.now.order (list_in self.now probe.now.order) }
        // Each half is sought in once.
        ensures cost { (holding past : ℕ)
            → blocks_at_least (length (standing (list_in self.now probe.now.order))) < 2 ^ holding
            → blocks_at_least (length (withdrawn (list_in self.now probe.now.order))) < 2 ^ past
            → steps.new ≤ steps.old + 2 * holding + 2 * past + 36 }
    {
        Walk {
            order: probe.order,
            holding: self.holding().seek(probe, steps),
            past: self.past().seek(probe, steps),
        }
    }

    /// The walk over what holds, from the first datom on that is not below the probe.
    pub fn seek_holding<L: Ledger>(&self, probe: &Probe, steps: &mut Steps<L>) -> Walk<'_>
        ensures place { result
            ≡ from_probe probe.now (standing (list_in self.now probe.now.order)) }
        ensures cost { (digits : ℕ)
            → blocks_at_least (length (standing (list_in self.now probe.now.order))) < 2 ^ digits
            → steps.new ≤ steps.old + 2 * digits + 18 }
    {
        Walk {
            order: probe.order,
            holding: self.holding().seek(probe, steps),
            past: HalfWalk::none(),
        }
    }
}

impl<'a> Walk<'a> {
    /// The next datom.
    pub fn next(&mut self) -> Option<&'a Datom>
        ensures { IsFirstOf self.old self.new result }
    {
        if is_next(self.order, self.holding.first(), self.past.first()) {
            self.holding.next()
        } else {
            self.past.next()
        }
    }
}

/// Whether the next datom is that of what holds.
fn is_next(order: Order, holding: Option<&Datom>, past: Option<&Datom>) -> bool
    ensures { result ≡ comes_first order (option_copied holding.entry)
        (option_copied past.entry) }
{
    match (holding, past) {
        (None, _) => false,
        (Some(_), None) => true,
        (Some(holding), Some(past)) => is_before(order, holding, past),
    }
}

/// Whether the first datom is below the second in the order.
pub fn is_before(order: Order, x: &Datom, y: &Datom) -> bool
    ensures { result ≡ is_lt (key_cmp order x.now y.now) }
{
    cmp_in(order, x, y) == Ordering::Less
}
