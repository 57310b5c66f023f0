//! The comparison that counts, and the searches of a sorted slice.
ghost use Rattle.std.specs.Prelude.{◌≡◌, ℕ, ◌+◌, ◌^◌, ◌<◌, ◌≤◌, length};
ghost use Rattle.fb_values.specs.Rising.{IsRising};
ghost use Rattle.fb_search.specs.Places.{is_below, place_of, probe_of};

use crate::holders::HoldsDatom;
use crate::steps::Steps;
use fb_values::{Datom, Order, Probe, cmp_in, cmp_probe};
use std::cmp::Ordering;
use std::sync::ledger::Ledger;

/// Whether the datom is below the probe. This is the one comparison that a counted search makes, and it counts.
pub fn is_below<L: Ledger>(probe: &Probe, datom: &Datom, steps: &mut Steps<L>) -> bool
    ensures value { result ≡ is_below probe.now datom.now }
    ensures cost { steps.new ≡ steps.old + 1 }
{
    steps.tick();
    cmp_probe(probe, datom) == Ordering::Greater
}

/// The first place of a sorted slice whose datom is not below the probe, or the slice's length.
pub fn lower_bound<H: HoldsDatom, L: Ledger>(
    holders: &[H],
    probe: &Probe,
    steps: &mut Steps<L>,
) -> usize
    requires { IsRising probe.now.order (H.datoms holders.now) }
    ensures value { result ≡ place_of probe.now (H.datoms holders.now) }
    // At most as many comparisons as the length has binary digits.
    ensures cost { (digits : ℕ) → length holders.now < 2 ^ digits → steps.new ≤ steps.old + digits }
{
    let mut from = 0;
    let mut to = holders.len();
    while from < to {
        let middle = from + (to - from) / 2;
        if is_below(probe, holders[middle].datom(), steps) {
            from = middle + 1;
        } else {
            to = middle;
        }
    }
    from
}

/// Whether the datom follows another one in the order.
pub fn stands_after(order: Order, datom: &Datom, other: &Datom) -> bool
    ensures { result ≡ is_below (probe_of order datom.now) other.now }
{
    cmp_in(order, datom, other) == Ordering::Greater
}

/// The place of a datom in a sorted slice, whether it is there or not: that of the first datom that is not
/// before it, or the slice's length. The comparisons do not count.
pub fn place_of_datom<H: HoldsDatom>(order: Order, holders: &[H], datom: &Datom) -> usize
    requires { IsRising order (H.datoms holders.now) }
    ensures { result ≡ place_of (probe_of order datom.now) (H.datoms holders.now) }
{
    holders.partition_point(|holder| stands_after(order, datom, holder.datom()))
}
