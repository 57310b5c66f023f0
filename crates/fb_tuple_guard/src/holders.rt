//! Who may have had a value before the changes.
ghost use Rattle.std.specs.Prelude.{◌≡◌, ◌<◌, length, true, IfOk};
ghost use Rattle.fb_view.specs.Facts.{facts_led as model_facts_led};
ghost use Rattle.fb_view.specs.SnapshotModel.{Stands};
ghost use Rattle.fb_model.specs.Schema.{covers};
ghost use Rattle.fb_values.specs.declared.indexes.Order.TheVariants.{Avet};
ghost use Rattle.fb_tuple_guard.specs.Sharing.{HasAllWith};

use fb_facts::{Facts, the_lists_are_the_rising_ones};
use fb_index::Extent;
use fb_memory::Memory;
use fb_schema::Schema;
use fb_values::{Datom, Datoms, Order, Probe, Value};
use fb_view::Snapshot;
use std::alloc::Global;

/// The place of an attribute that AVET holds, or the first place where it holds none.
pub fn place_held(schema: &Schema, attrs: &[u64]) -> usize
    requires { 0 < length attrs.now }
    ensures { result < length attrs.now }
{
    for (place, a) in attrs.iter().enumerate() {
        if is_in_avet(schema, *a) {
            return place;
        }
    }
    0
}

/// Whether AVET holds the attribute.
fn is_in_avet(schema: &Schema, a: u64) -> bool
    ensures { result ≡ covers schema.now Avet a }
{
    schema.covers().holds(Order::Avet, a)
}

/// Facts from before the changes, those with the value of the attribute among them: these alone where AVET holds the attribute,
/// and else all of the attribute.
pub fn facts_with(alloc: Global, before: &Snapshot, a: u64, v: &Value) -> Result<Datoms, Memory>
    ensures { IfOk result (λ found. HasAllWith before.now.entries a v.now found) }
{
    the_lists_are_the_rising_ones();
    if is_in_avet(before.schema(), a) {
        return facts_in_avet(alloc, before, a, v);
    }
    before.facts_under(a)
}

fn facts_in_avet(alloc: Global, before: &Snapshot, a: u64, v: &Value) -> Result<Datoms, Memory>
    requires { covers before.now.schema Avet a ≡ true }
    ensures { IfOk result (λ found. HasAllWith before.now.entries a v.now found) }
{
    the_lists_are_the_rising_ones();
    let probe = Probe {
        order: Order::Avet,
        e: None,
        a: Some(a),
        v: Some(v.copy()?),
        t: None,
    };
    Ok(Datoms::of(facts_led(alloc, before, &probe)?))
}

/// The facts that a probe leads to.
fn facts_led(alloc: Global, before: &Snapshot, probe: &Probe) -> Result<Vec<Datom>, Memory>
    ensures facts { IfOk result (λ facts. facts.items ≡ model_facts_led probe.now before.now) }
    ensures stands { Stands before.now }
{
    let sides = before.sides(probe.order, Extent::Held);
    sides.led(alloc, probe)
}
