//! Whether a datom is among those of an entry.
ghost use Rattle.std.specs.Prelude.{◌≡◌, ◌↔◌, Contains, IsTrue};
ghost use Rattle.std.specs.Ordering.{is_eq};
ghost use Rattle.fb_values.specs.Orders.{key_cmp};
ghost use Rattle.fb_values.specs.Rising.{IsRising};
ghost use Rattle.fb_values.specs.declared.indexes.Order.TheVariants.{Eavt};

use fb_search::place_of_datom;
use fb_values::{Datom, Order, cmp_in};
use std::cmp::Ordering;

/// Whether a list that rises by entity has the datom.
pub(crate) fn is_among(datoms: &[Datom], d: &Datom) -> bool
    requires { IsRising Eavt datoms.now }
    ensures { IsTrue result ↔ Contains datoms.now d.now }
{
    let place = place_of_datom(Order::Eavt, datoms, d);
    match datoms.get(place) {
        None => false,
        Some(found) => is_same(found, d),
    }
}

fn is_same(x: &Datom, y: &Datom) -> bool
    ensures { IsTrue result ↔ (x.now ≡ y.now) }
{
    x.added == y.added && have_one_key(x, y)
}

fn have_one_key(x: &Datom, y: &Datom) -> bool
    ensures { result ≡ is_eq (key_cmp Eavt x.now y.now) }
{
    cmp_in(Order::Eavt, x, y) == Ordering::Equal
}
