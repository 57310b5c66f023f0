//! What a snapshot answers of its history's facts. Each answer is found by two searches, one in the tree of what holds and
//! one in the live list of what holds, and takes a step more for each datom that it is made of.
ghost use Rattle.std.specs.Prelude.{◌≡◌, map, find, IfOk, IfSome};
ghost use Rattle.std.specs.Option.{option_map};
ghost use Rattle.fb_model.specs.Facts.{value_eq};
ghost use Rattle.seg_tree.specs.Indexes.{tree_in};
ghost use Rattle.seg_tree.specs.Nodes.{tree_datoms};
ghost use Rattle.fb_index.specs.Sides.{AreBeside};
ghost use Rattle.fb_view.specs.SnapshotModel.{Stands, roots_read};
ghost use Rattle.fb_view.specs.Facts.{IsTripleProbe};

use crate::snapshot::Snapshot;
use fb_facts::Facts;
use fb_index::{Extent, Sides};
use fb_memory::Memory;
use fb_values::{Datom, Datoms, Order, Probe, Value};
use seg_tree::Roots;
use std::alloc::Global;

impl Facts for Snapshot {
    ghost history = { λ s. s.entries };

    fn basis(&self) -> u32 {
        self.entries().len() - 1
    }

    fn issued(&self) -> u64 {
        self.greatest_user()
    }

    fn last_instant(&self) -> i64 {
        let entries = self.entries();
        entries.at(entries.len() - 1).instant
    }

    fn holds(&self, e: u64, a: u64, v: &Value) -> bool {
        let probe = probe_of_triple(e, a, v);
        self.first_with(&probe, v).is_some()
    }

    /// Where AVET holds the attribute, it costs a search and a step for each datom of the value. Else the attribute's
    /// datoms are walked.
    fn holder(&self, a: u64, v: &Value) -> Option<u64> {
        let probe = self.probe_of_value(a, v);
        self.first_with(&probe, v)
    }

    fn values_of(&self, e: u64, a: u64) -> Result<Vec<Value>, Memory> {
        let probe = Probe {
            order: Order::Eavt,
            e: Some(e),
            a: Some(a),
            v: None,
            t: None,
        };
        let facts = self.facts_led(&probe)?;
        values(self.alloc(), &facts)
    }

    fn facts_of(&self, e: u64) -> Result<Datoms, Memory> {
        let probe = Probe {
            order: Order::Eavt,
            e: Some(e),
            a: None,
            v: None,
            t: None,
        };
        Ok(Datoms::of(self.facts_led(&probe)?))
    }

    fn refs_to(&self, e: u64) -> Result<Datoms, Memory> {
        let probe = Probe {
            order: Order::Vaet,
            e: None,
            a: None,
            v: Some(Value::Ref(e)),
            t: None,
        };
        Ok(Datoms::of(self.facts_led(&probe)?))
    }

    fn facts_under(&self, a: u64) -> Result<Datoms, Memory> {
        let probe = Probe {
            order: Order::Aevt,
            e: None,
            a: Some(a),
            v: None,
            t: None,
        };
        Ok(Datoms::of(self.facts_led(&probe)?))
    }
}

// ---- what a probe leads to

impl Snapshot {
    ghost use Rattle.fb_view.specs.Facts.{IsValueProbe, facts_led};

    /// The lists of an order, read as one for all datoms or for those that hold.
    pub fn sides(&self, order: Order, extent: Extent) -> Sides<'_>
        ensures extent { result.extent ≡ extent }
        ensures order { result.order ≡ order }
        ensures tree { result.tree.now ≡ tree_in (roots_read extent self.now) order }
        ensures live { result.live.now ≡ self.now.live }
        ensures beside { AreBeside extent order
            (tree_datoms (tree_in (roots_read extent self.now) order)) self.now.live }
        ensures stands { Stands self.now }
    {
        Sides {
            extent,
            order,
            tree: self.trees(extent).tree(order),
            live: self.live(),
        }
    }

    /// The trees that are read.
    fn trees(&self, extent: Extent) -> &Roots
        ensures { result.now ≡ roots_read extent self.now }
    {
        match extent {
            Extent::Said => self.roots(),
            Extent::Held => &self.parts().older.get().facts,
        }
    }

    /// The facts that a probe leads to, in the probe's order.
    fn facts_led(&self, probe: &Probe) -> Result<Vec<Datom>, Memory>
        ensures facts { IfOk result (λ facts. facts.items ≡ facts_led probe.now self.now) }
        ensures stands { Stands self.now }
    {
        let sides = self.sides(probe.order, Extent::Held);
        sides.led(self.alloc(), probe)
    }

    /// The entity of the first fact that a probe leads to and that has the value.
    fn first_with(&self, probe: &Probe, v: &Value) -> Option<u64>
        ensures first { result
            ≡ option_map (λ d. d.e)
            (find (λ d. value_eq d.v v.now) (facts_led probe.now self.now)) }
        ensures stands { Stands self.now }
    {
        let sides = self.sides(probe.order, Extent::Held);
        sides.first_with(probe, v)
    }

    /// The probe that leads to the datoms of an attribute and a value where AVET holds the attribute, and else to those of
    /// the attribute.
    fn probe_of_value(&self, a: u64, v: &Value) -> Probe
        ensures { IsValueProbe self.now.schema a v.now result }
    {
        if !self.schema().covers().holds(Order::Avet, a) {
            return Probe {
                order: Order::Aevt,
                e: None,
                a: Some(a),
                v: None,
                t: None,
            };
        }
        Probe {
            order: Order::Avet,
            e: None,
            a: Some(a),
            v: shared(v),
            t: None,
        }
    }
}

/// The probe that leads to the datoms of a triple.
fn probe_of_triple(e: u64, a: u64, v: &Value) -> Probe
    ensures { IsTripleProbe e a v.now result }
{
    Probe {
        order: Order::Eavt,
        e: Some(e),
        a: Some(a),
        v: shared(v),
        t: None,
    }
}

/// The same value. Where there is no memory to count one reference more to its text, none: a probe without it leads to
/// more datoms, whose values are compared.
fn shared(v: &Value) -> Option<Value>
    ensures { IfSome result (λ copy. copy ≡ v.now) }
{
    v.copy().ok()
}

/// The values of facts.
fn values(alloc: Global, facts: &[Datom]) -> Result<Vec<Value>, Memory>
    ensures { IfOk result (λ values. values.items ≡ map (λ d. d.v) facts.now) }
{
    let mut values = Vec::with_capacity(alloc, facts.len())?;
    for d in facts {
        values.push(d.v.copy()?)?;
    }
    Ok(values)
}
