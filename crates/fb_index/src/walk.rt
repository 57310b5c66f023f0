//! A walk along both lists of an order, datom by datom.
ghost use Rattle.std.specs.Prelude.{◌≡◌, IfSome};
ghost use Rattle.std.specs.List.{slice_get};
ghost use Rattle.std.specs.Option.{option_copied};
ghost use Rattle.fb_values.specs.declared.indexes.Order.{Order};
ghost use Rattle.fb_values.specs.Rising.{IsRising};
ghost use Rattle.live_runs.specs.Walks.{IsFirstOf};
ghost use Rattle.live_index.specs.Walks.{comes_first};
ghost use Rattle.seg_tree.specs.Nodes.{tree_datoms};
ghost use Rattle.fb_index.specs.Ranges.{from_probe, within};
ghost use Rattle.fb_index.specs.Sides.{whole, AreBeside};

use crate::ranges::is_past;
use crate::sides::Sides;
use fb_values::{Datom, Order, Probe, cmp_in};
use seg_tree::Place;
use std::cmp::Ordering;
use std::marker::Model;

/// What is left of the datoms of an order, up to a probe where one is given. Of each list the walk has the first one that is
/// left at hand, so that a step compares these two and moves along one list.
#[derive(Drop)]
pub struct Walk<'a, 'p> {
    sides: Sides<'a>,
    end: Option<&'p Probe>,
    older: Option<&'a Datom>,
    /// After the older datom at hand.
    place: Place,
    live: Option<&'a Datom>,
    /// After the live datom at hand.
    rest: live_index::Walk<'a>,
}

impl<'a, 'p> Model for Walk<'a, 'p> {
    ghost use Rattle.std.specs.Prelude.{◌≡◌, List, IfSome};
    ghost use Rattle.std.specs.Option.{option_copied};
    ghost use Rattle.fb_values.specs.declared.facts.Datom.{Datom};
    ghost use Rattle.fb_values.specs.Rising.{IsRising};
    ghost use Rattle.live_index.specs.Halves.{IsPair, merged};
    ghost use Rattle.live_index.specs.Walks.{before_rest};
    ghost use Rattle.seg_tree.specs.Nodes.{tree_datoms};
    ghost use Rattle.fb_index.specs.Ranges.{within};
    ghost use Rattle.fb_index.specs.Sides.{older_ahead, AreBeside};

    ghost Value = { List Datom };

    ghost view = { λ w. merged w.sides.order
        (before_rest w.older (within (option_copied w.end)
        (older_ahead w.sides.extent w.sides.tree.now w.sides.live.now w.place)))
        (before_rest w.live (within (option_copied w.end) w.rest)) };

    ghost invariant = { λ w.
        (AreBeside w.sides.extent w.sides.order (tree_datoms w.sides.tree.now) w.sides.live.now)
        × (IfSome (option_copied w.end) (λ probe. probe.order ≡ w.sides.order))
        × (IsPair w.sides.order
        (before_rest w.older (within (option_copied w.end)
        (older_ahead w.sides.extent w.sides.tree.now w.sides.live.now w.place)))
        (before_rest w.live (within (option_copied w.end) w.rest)))
        × (IsRising w.sides.order w.rest) };
}

impl<'a> Sides<'a> {
    /// The walk over the datoms that are not below the first probe, and not above the end where one is given. It goes past none
    /// that stands above the end.
    pub fn walk<'p>(&self, from: &Probe, end: Option<&'p Probe>) -> Walk<'a, 'p>
        requires beside { AreBeside self.now.extent self.now.order (tree_datoms self.now.tree.now)
            self.now.live.now }
        requires order { from.now.order ≡ self.now.order }
        requires end_order { IfSome (option_copied end) (λ probe. probe.order ≡ self.now.order) }
        ensures { result ≡ within (option_copied end.entry)
            (from_probe from.now
            (whole self.now.extent self.now.order (tree_datoms self.now.tree.now)
            self.now.live.now)) }
    {
        let (older, place) = self.next_older(end, self.tree.place(from));
        let mut rest = self.live_walk(from);
        let live = next_live(end, &mut rest);
        Walk {
            sides: *self,
            end,
            older,
            place,
            live,
            rest,
        }
    }
}

impl<'a, 'p> Walk<'a, 'p> {
    /// The next datom, before which the walk stays.
    pub fn peek(&self) -> Option<&'a Datom>
        ensures { option_copied result ≡ slice_get self.now 0 }
    {
        if is_first(self.sides.order, self.older, self.live) {
            self.older
        } else {
            self.live
        }
    }

    /// The next datom.
    pub fn next(&mut self) -> Option<&'a Datom>
        ensures { IsFirstOf self.old self.new result }
    {
        let sides = self.sides;
        if is_first(sides.order, self.older, self.live) {
            let first = self.older;
            (self.older, self.place) = sides.next_older(self.end, self.place);
            first
        } else {
            let first = self.live?;
            self.live = next_live(self.end, &mut self.rest);
            Some(first)
        }
    }
}

/// The next live datom that is not above the end.
fn next_live<'a>(end: Option<&Probe>, rest: &mut live_index::Walk<'a>) -> Option<&'a Datom>
    requires { IfSome (option_copied end) (λ probe. IsRising probe.order rest.old) }
    ensures first { IsFirstOf (within (option_copied end.entry) rest.old)
        (within (option_copied end.entry) rest.new) result }
    ensures rising { (order : Order) → IsRising order rest.old → IsRising order rest.new }
{
    let datom = rest.next()?;
    if is_past(end, datom) {
        None
    } else {
        Some(datom)
    }
}

/// Whether of the first datoms of two lists the left one comes first.
fn is_first(order: Order, left: Option<&Datom>, right: Option<&Datom>) -> bool
    ensures { result ≡ comes_first order (option_copied left.entry)
        (option_copied right.entry) }
{
    match (left, right) {
        (None, _) => false,
        (Some(_), None) => true,
        (Some(left), Some(right)) => cmp_in(order, left, right) == Ordering::Less,
    }
}
