//! What holds, in three maps: each question of the facts that hold is one range of one of them.
ghost use Rattle.std.specs.Prelude.{◌++◌, ◌∷◌, [], List, OnOk};
ghost use Rattle.fb_values.specs.declared.facts.Datom.{Datom};
ghost use Rattle.held_facts.specs.FactMaps.{HasFacts};

use fb_memory::Memory;
use fb_values::{Datom, Value};
use std::alloc::Global;
use std::collections::BTreeMap;

/// The t of each triple that holds.
#[derive(Drop)]
pub struct FactMaps {
    /// By entity, attribute and value.
    pub by_entity: BTreeMap<(u64, u64, Value), u32>,
    /// By attribute, entity and value.
    pub by_attribute: BTreeMap<(u64, u64, Value), u32>,
    /// By value, attribute and entity.
    pub by_value: BTreeMap<(Value, u64, u64), u32>,
}

impl FactMaps {
    /// Nothing holds.
    pub fn new(alloc: Global) -> FactMaps
        ensures { HasFacts [] result }
    {
        FactMaps {
            by_entity: BTreeMap::new(alloc),
            by_attribute: BTreeMap::new(alloc),
            by_value: BTreeMap::new(alloc),
        }
    }
}

/// What the datoms leave of what held before them.
pub fn follow_all(kept: &mut FactMaps, datoms: &[Datom]) -> Result<(), Memory>
    ensures { OnOk result ((before : List Datom) → HasFacts before kept.old
        → HasFacts (before ++ datoms.now) kept.new) }
{
    for d in datoms {
        follow(kept, d)?;
    }
    Ok(())
}

/// An addition puts its triple, and a retraction takes it away.
fn follow(kept: &mut FactMaps, d: &Datom) -> Result<(), Memory>
    ensures { OnOk result ((before : List Datom) → HasFacts before kept.old
        → HasFacts (before ++ d.now ∷ []) kept.new) }
{
    if d.added {
        kept.by_entity.insert((d.e, d.a, d.v.copy()?), d.t)?;
        kept.by_attribute.insert((d.a, d.e, d.v.copy()?), d.t)?;
        kept.by_value.insert((d.v.copy()?, d.a, d.e), d.t)?;
    } else {
        kept.by_entity.remove(&(d.e, d.a, d.v.copy()?));
        kept.by_attribute.remove(&(d.a, d.e, d.v.copy()?));
        kept.by_value.remove(&(d.v.copy()?, d.a, d.e));
    }
    Ok(())
}
