//! The lists of an order, a tree's and the live ones, read as one rising list.
ghost use Rattle.std.specs.Prelude.{◌≡◌, find, IfOk, IfSome};
ghost use Rattle.std.specs.Option.{option_map, option_copied};
ghost use Rattle.fb_values.specs.declared.facts.Datom.{Datom};
ghost use Rattle.fb_values.specs.Lists.{list_in};
ghost use Rattle.fb_model.specs.Facts.{value_eq};
ghost use Rattle.live_runs.specs.Walks.{IsFirstOf};
ghost use Rattle.seg_tree.specs.Nodes.{tree_datoms};
ghost use Rattle.fb_index.specs.Ranges.{from_probe, within, led_to};
ghost use Rattle.fb_index.specs.Sides.{live_read, is_read, older_ahead, whole, AreBeside};

use crate::ranges::{held_walk, is_past, said_walk};
use fb_memory::Memory;
use fb_values::{Datom, Order, Probe, Value};
use live_index::Live;
use seg_tree::{Place, Tree};
use std::alloc::Global;

/// What is read of an order.
#[derive(Clone, Copy, Debug, PartialEq, Eq)]
pub enum Extent {
    /// All datoms.
    Said,
    /// What holds. The tree has facts alone.
    Held,
}

/// The lists of one order.
#[derive(Clone, Copy, Drop)]
pub struct Sides<'a> {
    pub extent: Extent,
    pub order: Order,
    pub tree: &'a Tree,
    pub live: &'a Live,
}

impl<'a> Sides<'a> {
    /// Copies of the datoms that the probe leads to.
    pub fn led(&self, alloc: Global, probe: &Probe) -> Result<Vec<Datom>, Memory>
        requires beside { AreBeside self.now.extent self.now.order (tree_datoms self.now.tree.now)
            self.now.live.now }
        requires order { probe.now.order ≡ self.now.order }
        ensures { IfOk result (λ found. found.items ≡ led_to probe.now
            (whole self.now.extent self.now.order (tree_datoms self.now.tree.now)
            self.now.live.now)) }
    {
        let mut found = Vec::new(alloc);
        let mut walk = self.walk(probe, Some(probe));
        while let Some(datom) = walk.next() {
            datom.copy_into(&mut found)?;
        }
        Ok(found)
    }

    /// The entity of the first datom that the probe leads to and that has the value.
    pub fn first_with(&self, probe: &Probe, v: &Value) -> Option<u64>
        requires beside { AreBeside self.now.extent self.now.order (tree_datoms self.now.tree.now)
            self.now.live.now }
        requires order { probe.now.order ≡ self.now.order }
        ensures { result ≡ option_map (λ (d : Datom). d.e) (find (λ (d : Datom). value_eq d.v v.now)
            (led_to probe.now
            (whole self.now.extent self.now.order (tree_datoms self.now.tree.now)
            self.now.live.now))) }
    {
        let mut walk = self.walk(probe, Some(probe));
        while let Some(datom) = walk.peek() {
            if datom.v == *v {
                return Some(datom.e);
            }
            walk.next();
        }
        None
    }

    /// The walk over the live datoms that are read, from the first one on that is not below the probe.
    pub(crate) fn live_walk(&self, probe: &Probe) -> live_index::Walk<'a>
        requires { probe.now.order ≡ self.now.order }
        ensures { result ≡ from_probe probe.now
            (live_read self.now.extent (list_in self.now.live.now self.now.order)) }
    {
        match self.extent {
            Extent::Said => said_walk(self.live, probe),
            Extent::Held => held_walk(self.live, probe),
        }
    }

    /// The tree's first datom from a place on that is read and not above the end, and the place after it.
    pub(crate) fn next_older(&self, end: Option<&Probe>, from: Place) -> (Option<&'a Datom>, Place)
        requires beside { AreBeside self.now.extent self.now.order (tree_datoms self.now.tree.now)
            self.now.live.now }
        requires order { IfSome (option_copied end)
            (λ probe. probe.order ≡ self.now.order) }
        ensures { IsFirstOf
            (within (option_copied end.entry)
            (older_ahead self.now.extent self.now.tree.now self.now.live.now from))
            (within (option_copied end.entry)
            (older_ahead self.now.extent self.now.tree.now self.now.live.now result.1))
            result.0 }
    {
        let mut place = from;
        while let Some(d) = self.tree.at(place) {
            if is_past(end, d) {
                return (None, place);
            }
            let behind = self.tree.next(place);
            if self.reads(d) {
                return (Some(d), behind);
            }
            place = behind;
        }
        (None, place)
    }

    /// Whether the tree's datom is read.
    fn reads(&self, d: &Datom) -> bool
        ensures { result ≡ is_read self.now.extent self.now.live.now d.now }
    {
        match self.extent {
            Extent::Said => true,
            Extent::Held => !self.live.past().has_mate(d),
        }
    }
}
