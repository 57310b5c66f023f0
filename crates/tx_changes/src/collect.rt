//! What the forms ask of triples: by what they sweep, by their acts, and by what additions replace.
ghost use Rattle.std.specs.Prelude.{◌≡◌, List, ◌++◌, ◌∷◌, [], IfOk, OnOk, flat_map, map};
ghost use Rattle.std.specs.List.{All};
ghost use Rattle.fb_values.specs.declared.facts.Entry.{Entry};
ghost use Rattle.fb_model.specs.History.{users_issued};
ghost use Rattle.fb_schema.specs.Described.{SchemaStands};
ghost use Rattle.tx_model.specs.Tempids.{db_of};
ghost use Rattle.tx_model.specs.Transaction.{Transaction};
ghost use Rattle.tx_asks.specs.Acts.{model_act, AreActs};
ghost use Rattle.tx_sweep.specs.Sweep.{acts_of, value_at};
ghost use Rattle.tx_changes.specs.declared.noted.AskedAs.TheVariants.{Replaced, Swept};
ghost use Rattle.tx_changes.specs.Asked.{known_values, other_of, others_of, replaced_of, KnowsValues};
ghost use Rattle.tx_changes.specs.Noted.{added_by, as_way, noted_by, noted_from, AreNoted, IsFoundHeld};

use crate::learnt::{Learnt, is_new, learn};
use crate::noted::{AskedAs, Noted};
use fb_facts::{Facts, the_lists_are_the_rising_ones};
use fb_memory::Memory;
use fb_model::{facts_are_what_holds, new_users_have_no_facts};
use fb_schema::{Schema, schemas_tell_of_attributes};
use fb_values::Value;
use std::alloc::Global;
use std::collections::BTreeMap;
use tx_asks::{Act, Asking, acts_ask_what_asks_do};
use tx_sweep::swept;

/// What the forms ask, and the values that were looked up for it.
#[derive(Drop)]
pub struct Notes {
    pub noted: Vec<Noted>,
    pub learnt: Learnt,
}

/// All that the forms ask of triples, in each way. What they sweep comes first and stays in front of other askings of the
/// same triple in a stable sort, so that a triple which was found there needs no question whether it holds.
pub fn notes_of<F: Facts>(
    alloc: Global,
    forms: &[Vec<Act<'_>>],
    issued: u64,
    facts: &F,
    schema: &Schema,
) -> Result<Notes, Memory>
    requires schema { SchemaStands schema.now (F.history facts.now) }
    requires issued { issued ≡ users_issued (F.history facts.now) }
    ensures noted { IfOk result (λ notes. (tx : Transaction) → tx.db ≡ db_of (F.history facts.now)
        → AreActs (acts_of forms.now) tx → AreNoted tx notes.noted.items) }
    ensures found { IfOk result
        (λ notes. All (IsFoundHeld (F.history facts.now)) notes.noted.items) }
    ensures known { IfOk result (λ notes. KnowsValues (F.history facts.now) notes.learnt) }
{
    acts_ask_what_asks_do();
    facts_are_what_holds();
    the_lists_are_the_rising_ones();
    schemas_tell_of_attributes();
    let swept = swept(alloc, forms, facts, schema)?;
    let mut notes = with_swept(alloc, swept, room_for(forms, issued))?;
    note_forms(&mut notes, forms, issued, facts, schema)?;
    Ok(notes)
}

/// Notes what was swept, with room for more.
fn with_swept(alloc: Global, swept: Vec<Asking>, room: usize) -> Result<Notes, Memory>
    ensures noted { IfOk result (λ notes. notes.noted.items ≡ map (as_way Swept) swept.items) }
    ensures known { IfOk result (λ notes. (h : List Entry) → KnowsValues h notes.learnt) }
{
    let mut noted = Vec::with_capacity(alloc, room.saturating_add(swept.len()))?;
    for asking in swept {
        noted.push(Noted {
            asking,
            way: AskedAs::Swept,
        })?;
    }
    Ok(Notes {
        noted,
        learnt: BTreeMap::new(alloc),
    })
}

/// How many askings the acts of the forms make at most, where each attribute is of cardinality one.
fn room_for(forms: &[Vec<Act<'_>>], issued: u64) -> usize {
    let mut room: usize = 0;
    for acts in forms {
        room = room.saturating_add(room_in(acts, issued));
    }
    room
}

fn room_in(acts: &[Act<'_>], issued: u64) -> usize {
    let mut room: usize = 0;
    for act in acts {
        room = room.saturating_add(room_of(act, issued));
    }
    room
}

/// What is given to an entity that is not new may replace a value.
fn room_of(act: &Act<'_>, issued: u64) -> usize {
    match act {
        Act::Adds { e, .. } => 1 + usize::from(!is_new(issued, *e)),
        Act::Compares(comparison) => 1 + usize::from(!is_new(issued, comparison.get().e)),
        Act::Retracts { .. } => 1,
        Act::RetractsAll { .. } | Act::RetractsEntity { .. } => 0,
    }
}

fn note_forms<F: Facts>(
    notes: &mut Notes,
    forms: &[Vec<Act<'_>>],
    issued: u64,
    facts: &F,
    schema: &Schema,
) -> Result<(), Memory>
    requires issued { issued ≡ users_issued (F.history facts.now) }
    requires known { KnowsValues (F.history facts.now) notes.now.learnt }
    ensures known { OnOk result (KnowsValues (F.history facts.now) notes.new.learnt) }
    ensures noted { OnOk result (notes.new.noted.items ≡ notes.old.noted.items
        ++ noted_from (F.history facts.now) schema.now 0 (acts_of forms.now)) }
{
    for (place, acts) in forms.iter().enumerate() {
        note_form(notes, place, acts, issued, facts, schema)?;
    }
    Ok(())
}

fn note_form<F: Facts>(
    notes: &mut Notes,
    place: usize,
    acts: &[Act<'_>],
    issued: u64,
    facts: &F,
    schema: &Schema,
) -> Result<(), Memory>
    requires issued { issued ≡ users_issued (F.history facts.now) }
    requires known { KnowsValues (F.history facts.now) notes.now.learnt }
    ensures known { OnOk result (KnowsValues (F.history facts.now) notes.new.learnt) }
    ensures noted { OnOk result (notes.new.noted.items ≡ notes.old.noted.items
        ++ flat_map (noted_by (F.history facts.now) schema.now place) (map model_act acts.now)) }
{
    for act in acts {
        note_act(notes, place, act, issued, facts, schema)?;
    }
    Ok(())
}

fn note_act<F: Facts>(
    notes: &mut Notes,
    place: usize,
    act: &Act<'_>,
    issued: u64,
    facts: &F,
    schema: &Schema,
) -> Result<(), Memory>
    requires issued { issued ≡ users_issued (F.history facts.now) }
    requires known { KnowsValues (F.history facts.now) notes.now.learnt }
    ensures known { OnOk result (KnowsValues (F.history facts.now) notes.new.learnt) }
    ensures noted { OnOk result (notes.new.noted.items ≡ notes.old.noted.items
        ++ noted_by (F.history facts.now) schema.now place (model_act act.now)) }
{
    match act {
        Act::Adds { e, attribute, v } => {
            let addition = asking_of(place, *e, attribute.id, v)?;
            note_addition(notes, addition, issued, facts, schema)
        }
        Act::Compares(comparison) => {
            let comparison = comparison.get();
            let addition = asking_of(
                place,
                comparison.e,
                comparison.attribute.id,
                &comparison.new,
            )?;
            note_addition(notes, addition, issued, facts, schema)
        }
        Act::Retracts { e, attribute, v } => {
            let retraction = asking_of(place, *e, attribute.id, v)?;
            push(&mut notes.noted, AskedAs::Retracted, retraction)
        }
        Act::RetractsAll { .. } | Act::RetractsEntity { .. } => Ok(()),
    }
}

fn asking_of(place: usize, e: u64, a: u64, v: &Value) -> Result<Asking, Memory>
    ensures { IfOk result (λ asking. asking ≡ value_at place e a v.now) }
{
    let v = v.copy()?;
    Ok(Asking { e, a, v, place })
}

fn push(noted: &mut Vec<Noted>, way: AskedAs, asking: Asking) -> Result<(), Memory>
    ensures { OnOk result (noted.new.items ≡ noted.old.items ++ as_way way asking ∷ []) }
{
    noted.push(Noted { asking, way })?;
    Ok(())
}

/// Notes an addition behind what it replaces.
fn note_addition<F: Facts>(
    notes: &mut Notes,
    addition: Asking,
    issued: u64,
    facts: &F,
    schema: &Schema,
) -> Result<(), Memory>
    requires issued { issued ≡ users_issued (F.history facts.now) }
    requires known { KnowsValues (F.history facts.now) notes.now.learnt }
    ensures known { OnOk result (KnowsValues (F.history facts.now) notes.new.learnt) }
    ensures noted { OnOk result (notes.new.noted.items ≡ notes.old.noted.items
        ++ added_by (F.history facts.now) schema.now addition) }
{
    note_replaced(notes, &addition, issued, facts, schema)?;
    push(&mut notes.noted, AskedAs::Added, addition)
}

/// Notes what is asked to be replaced: the other values that an entity has, where it is given one under an attribute of
/// cardinality one. The values of an entity and an attribute are looked up once.
fn note_replaced<F: Facts>(
    notes: &mut Notes,
    addition: &Asking,
    issued: u64,
    facts: &F,
    schema: &Schema,
) -> Result<(), Memory>
    requires issued { issued ≡ users_issued (F.history facts.now) }
    requires known { KnowsValues (F.history facts.now) notes.now.learnt }
    ensures known { OnOk result (KnowsValues (F.history facts.now) notes.new.learnt) }
    ensures noted { OnOk result (notes.new.noted.items ≡ notes.old.noted.items
        ++ map (as_way Replaced) (replaced_of (F.history facts.now) schema.now addition.now)) }
{
    the_lists_are_the_rising_ones();
    new_users_have_no_facts();
    if !schema.is_one(addition.a) {
        return Ok(());
    }
    if is_new(issued, addition.e) {
        return Ok(());
    }
    learn(&mut notes.learnt, facts, addition.e, addition.a)?;
    push_others(&mut notes.noted, addition, &notes.learnt)
}

/// Notes each of the known values but that of the addition.
fn push_others(noted: &mut Vec<Noted>, addition: &Asking, learnt: &Learnt) -> Result<(), Memory>
    ensures { OnOk result (noted.new.items ≡ noted.old.items ++ map (as_way Replaced)
        (others_of addition.now (known_values learnt.now addition.now.e addition.now.a))) }
{
    match learnt.get(&(addition.e, addition.a)) {
        Some(values) => push_values(noted, addition, values),
        None => Ok(()),
    }
}

fn push_values(noted: &mut Vec<Noted>, addition: &Asking, values: &[Value]) -> Result<(), Memory>
    ensures { OnOk result (noted.new.items
        ≡ noted.old.items ++ map (as_way Replaced) (others_of addition.now values.now)) }
{
    for v in values {
        push_other(noted, addition, v)?;
    }
    Ok(())
}

fn push_other(noted: &mut Vec<Noted>, addition: &Asking, v: &Value) -> Result<(), Memory>
    ensures { OnOk result (noted.new.items
        ≡ noted.old.items ++ map (as_way Replaced) (other_of addition.now v.now)) }
{
    if addition.v == *v {
        return Ok(());
    }
    let other = asking_of(addition.place, addition.e, addition.a, v)?;
    push(noted, AskedAs::Replaced, other)
}
