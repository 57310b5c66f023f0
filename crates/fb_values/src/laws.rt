//! Laws of the orders: each function's contract is a law, and there is nothing to run.
ghost use Rattle.std.specs.Prelude.{◌≡◌, ◌↔◌, IsTrue, length, take};
ghost use Rattle.std.specs.Cmp.{IsTotalOrder};
ghost use Rattle.std.specs.declared.cmp.Ordering.TheVariants.{Equal};
ghost use Rattle.fb_values.specs.Orders.{value_cmp, key_of, key_cmp, given, probe_cmp};
ghost use Rattle.fb_values.specs.OrderLaws.{IsAtOnePlace};
ghost use Rattle.fb_values.specs.Rising.{rises, IsRising};

use crate::facts::{Datom, Value};
use crate::indexes::{Order, Probe};

/// Values are totally ordered, across types too.
pub fn values_are_totally_ordered()
    ensures { IsTotalOrder value_cmp }
{}

/// Only a value itself compares as equal to it.
pub fn equal_values_are_the_same(x: &Value, y: &Value)
    requires { value_cmp x.now y.now ≡ Equal }
    ensures { x.now ≡ y.now }
{}

/// Keys are totally ordered in each of the four orders.
pub fn keys_are_totally_ordered(order: Order)
    ensures { IsTotalOrder (key_cmp order) }
{}

/// Only datoms of the same entity, attribute, value and t have equal keys.
pub fn equal_keys_are_the_same(order: Order, x: &Datom, y: &Datom)
    requires { key_cmp order x.now y.now ≡ Equal }
    ensures { IsAtOnePlace x.now y.now }
{}

/// A probe is equal to the datoms whose key begins with the leading components that it gives.
pub fn probe_is_equal_to_what_begins_so(probe: &Probe, d: &Datom)
    ensures { (probe_cmp probe.now d.now ≡ Equal)
        ↔ (take (length (given probe.now)) (key_of probe.now.order d.now) ≡ given probe.now) }
{}

/// Where each datom is below the next one, each is below all that are after it, and the other way round.
pub fn rising_by_neighbours_is_rising_by_all(order: Order, datoms: &[Datom])
    ensures { IsTrue (rises order datoms.now) ↔ IsRising order datoms.now }
{}
