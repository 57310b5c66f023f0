//! What the forms find, one after another.
ghost use Rattle.std.specs.Prelude.{◌≡◌, ◌&&◌, IfOk, OnOk, map, filter, flat_map, nat_eq};
ghost use Rattle.std.specs.List.{All};
ghost use Rattle.fb_model.specs.Facts.{facts as facts_in};
ghost use Rattle.fb_schema.specs.Described.{SchemaStands};
ghost use Rattle.tx_model.specs.Tempids.{db_of};
ghost use Rattle.tx_model.specs.Changes.{withdrawn};
ghost use Rattle.tx_model.specs.Transaction.{Transaction};
ghost use Rattle.tx_asks.specs.Acts.{model_act, sweeps_of, AreActs};
ghost use Rattle.tx_asks.specs.Triples.{AreAskings};
ghost use Rattle.tx_sweep.specs.Sweep.{acts_of, IsHeld, AreSwept, Sweeps};

use crate::entity::sweep_entity;
use crate::found::{Sweep, push_values};
use fb_facts::{Facts, the_lists_are_the_rising_ones};
use fb_memory::Memory;
use fb_model::facts_are_what_holds;
use fb_schema::Schema;
use std::alloc::Global;
use std::collections::BTreeSet;
use tx_asks::{Act, Asking, acts_ask_what_asks_do};

/// What retractions of every value and of whole entities find: each fact with the first form that asks it.
pub fn swept<F: Facts>(
    alloc: Global,
    forms: &[Vec<Act<'_>>],
    facts: &F,
    schema: &Schema,
) -> Result<Vec<Asking>, Memory>
    requires { SchemaStands schema.now (F.history facts.now) }
    ensures all { IfOk result (λ askings. (tx : Transaction) → tx.db ≡ db_of (F.history facts.now)
        → AreActs (acts_of forms.now) tx → AreAskings tx.swept askings.items) }
    ensures held { IfOk result (λ askings. All (IsHeld (F.history facts.now)) askings.items) }
{
    acts_ask_what_asks_do();
    facts_are_what_holds();
    let Sweep { askings, .. } = sweep_forms(alloc, forms, facts, schema)?;
    Ok(askings)
}

fn sweep_forms<F: Facts>(
    alloc: Global,
    forms: &[Vec<Act<'_>>],
    facts: &F,
    schema: &Schema,
) -> Result<Sweep, Memory>
    requires { SchemaStands schema.now (F.history facts.now) }
    ensures { IfOk result (λ found. AreAskings
        (map (flat_map (sweeps_of (db_of (F.history facts.now)))) (acts_of forms.now))
        found.askings.items) }
{
    let mut found = Sweep {
        visited: BTreeSet::new(alloc),
        pairs: BTreeSet::new(alloc),
        askings: Vec::new(alloc),
    };
    for (place, form) in forms.iter().enumerate() {
        sweep_form(alloc, &mut found, place, form, facts, schema)?;
    }
    Ok(found)
}

fn sweep_form<F: Facts>(
    alloc: Global,
    found: &mut Sweep,
    place: usize,
    acts: &[Act<'_>],
    facts: &F,
    schema: &Schema,
) -> Result<(), Memory>
    requires { SchemaStands schema.now (F.history facts.now) }
    ensures { AreSwept (facts_in (F.history facts.now)) place found.old
        → OnOk result (Sweeps (facts_in (F.history facts.now)) place
        (flat_map (sweeps_of (db_of (F.history facts.now))) (map model_act acts.now)) found.old
        found.new) }
{
    for act in acts {
        sweep_act(alloc, found, place, act, facts, schema)?;
    }
    Ok(())
}

fn sweep_act<F: Facts>(
    alloc: Global,
    found: &mut Sweep,
    place: usize,
    act: &Act<'_>,
    facts: &F,
    schema: &Schema,
) -> Result<(), Memory>
    requires { SchemaStands schema.now (F.history facts.now) }
    ensures { AreSwept (facts_in (F.history facts.now)) place found.old
        → OnOk result (Sweeps (facts_in (F.history facts.now)) place
        (sweeps_of (db_of (F.history facts.now)) (model_act act.now)) found.old found.new) }
{
    match act {
        Act::RetractsAll { e, attribute } => sweep_values(found, place, *e, attribute.id, facts),
        Act::RetractsEntity { e } => sweep_entity(alloc, found, place, *e, facts, schema),
        _ => Ok(()),
    }
}

/// Finds every value of the entity under the attribute, unless they were found before.
fn sweep_values<F: Facts>(
    found: &mut Sweep,
    place: usize,
    e: u64,
    a: u64,
    facts: &F,
) -> Result<(), Memory>
    ensures { AreSwept (facts_in (F.history facts.now)) place found.old
        → OnOk result (Sweeps (facts_in (F.history facts.now)) place
        (map (withdrawn (db_of (F.history facts.now)))
        (filter (λ d. nat_eq d.e e && nat_eq d.a a) (facts_in (F.history facts.now))))
        found.old found.new) }
{
    the_lists_are_the_rising_ones();
    if !found.pairs.insert((e, a))? {
        return Ok(());
    }
    push_values(&mut found.askings, place, e, a, facts.values_of(e, a)?)
}
