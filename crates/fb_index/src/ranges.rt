//! The datoms that a probe leads to, read out of the live index and out of a tree.
ghost use Rattle.std.specs.Prelude.{◌≡◌, ◌++◌, ◌<◌, IfOk};
ghost use Rattle.std.specs.Option.{option_copied};
ghost use Rattle.fb_values.specs.Lists.{list_in};
ghost use Rattle.fb_values.specs.Rising.{IsRising};
ghost use Rattle.fb_model.specs.Facts.{standing};
ghost use Rattle.seg_tree.specs.Nodes.{tree_datoms};
ghost use Rattle.fb_index.specs.Ranges.{is_led, is_past, led_to, from_probe};

use fb_memory::Memory;
use fb_search::Steps;
use fb_values::{Datom, Probe, cmp_probe};
use live_index::{Live, Walk};
use seg_tree::Tree;
use std::cmp::Ordering;
use std::marker::Brand;
use std::sync::ledger::{Blank, Ledger};

/// Adds copies of the live datoms that the probe leads to.
pub fn push_live(found: &mut Vec<Datom>, live: &Live, probe: &Probe) -> Result<(), Memory>
    ensures { IfOk result (λ _. found.new.items
        ≡ found.old.items ++ led_to probe.now (list_in live.now probe.now.order)) }
{
    let mut walk = said_walk(live, probe);
    while let Some(d) = walk.next() {
        if !is_led(probe, d) {
            return Ok(());
        }
        found.push(d.copy()?)?;
    }
    Ok(())
}

/// Adds copies of the tree's datoms that the probe leads to.
pub fn push_older(found: &mut Vec<Datom>, tree: &Tree, probe: &Probe) -> Result<(), Memory>
    requires { IsRising probe.now.order (tree_datoms tree.now) }
    ensures { IfOk result
        (λ _. found.new.items ≡ found.old.items ++ led_to probe.now (tree_datoms tree.now)) }
{
    let mut place = tree.place(probe);
    while let Some(d) = tree.at(place) {
        if !is_led(probe, d) {
            return Ok(());
        }
        found.push(d.copy()?)?;
        place = tree.next(place);
    }
    Ok(())
}

/// Whether the datom has the leading components of the probe.
pub fn is_led(probe: &Probe, d: &Datom) -> bool
    ensures { result ≡ is_led probe.now d.now }
{
    cmp_probe(probe, d) == Ordering::Equal
}

/// Whether a probe is given, and the datom is above it.
pub(crate) fn is_past(end: Option<&Probe>, d: &Datom) -> bool
    ensures { result ≡ is_past (option_copied end.entry) d.now }
{
    match end {
        None => false,
        Some(probe) => cmp_probe(probe, d) == Ordering::Less,
    }
}

/// The walk over the live datoms that are not below the probe.
pub(crate) fn said_walk<'a>(live: &'a Live, probe: &Probe) -> Walk<'a>
    ensures walk { result ≡ from_probe probe.now (list_in live.now probe.now.order) }
    ensures rising { IsRising probe.now.order (list_in live.now probe.now.order) }
{
    seek_said::<Brand>(live, probe, Blank::new(1))
}

/// A seek whose comparisons a ledger of its own counts.
fn seek_said<'a, L: Ledger>(live: &'a Live, probe: &Probe, blank: Blank) -> Walk<'a>
    requires name { blank.name ≡ L.name }
    requires parts { blank.parts ≡ L.parts }
    requires some { 0 < blank.parts }
    ensures walk { result ≡ from_probe probe.now (list_in live.now probe.now.order) }
    ensures rising { IsRising probe.now.order (list_in live.now probe.now.order) }
{
    live.seek(probe, &mut Steps::<L>::of(blank))
}

/// The walk over those of them that hold.
pub(crate) fn held_walk<'a>(live: &'a Live, probe: &Probe) -> Walk<'a>
    ensures { result ≡ from_probe probe.now (standing (list_in live.now probe.now.order)) }
{
    seek_held::<Brand>(live, probe, Blank::new(1))
}

fn seek_held<'a, L: Ledger>(live: &'a Live, probe: &Probe, blank: Blank) -> Walk<'a>
    requires name { blank.name ≡ L.name }
    requires parts { blank.parts ≡ L.parts }
    requires some { 0 < blank.parts }
    ensures { result ≡ from_probe probe.now (standing (list_in live.now probe.now.order)) }
{
    // So the list rises.
    let _ = live.holding();
    live.seek_holding(probe, &mut Steps::<L>::of(blank))
}
