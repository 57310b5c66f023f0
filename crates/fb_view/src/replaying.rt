//! What a history says after some of its entries, taken at once.
ghost use Rattle.std.specs.Prelude.{◌≡◌, ◌↔◌, ℕ, ◌++◌, ◌∷◌, ◌<◌, [], List, Contains, IfOk, flat_map, length};
ghost use Rattle.fb_values.specs.declared.facts.Datom.{Datom};
ghost use Rattle.fb_values.specs.declared.facts.Entry.{Entry};
ghost use Rattle.fb_values.specs.declared.indexes.Order.TheVariants.{Aevt};
ghost use Rattle.fb_values.specs.Rising.{IsRising};
ghost use Rattle.fb_model.specs.History.{said, upto};
ghost use Rattle.fb_schema.specs.Described.{SchemaStands};
ghost use Rattle.seg_tree.specs.Nodes.{tree_datoms};
ghost use Rattle.fb_view.specs.Refills.{HasGained, gained_of};

use crate::growth::Older;
use fb_covers::Covers;
use fb_history::EntryList;
use fb_index::push_older;
use fb_memory::Memory;
use fb_schema::Schema;
use fb_values::{Datom, Entry, Order, Probe};
use std::alloc::Global;

/// What was said after an entry, and what became of its schema.
#[derive(Drop)]
pub struct Replay {
    pub said: Vec<Datom>,
    pub schema: Schema,
    /// The attributes that AVET gained on the way.
    pub gained: Vec<u64>,
}

impl Replay {
    /// That of the entries after entry `c`, where the schema is that after entry `c`. An attribute that AVET gained
    /// several times is named once.
    pub fn behind(
        alloc: Global,
        schema: &Schema,
        entries: &EntryList,
        c: u32,
    ) -> Result<Replay, Memory>
        requires within { c < length entries.now }
        requires schema { SchemaStands schema.now (upto entries.now c) }
        ensures said { IfOk result
            (λ replay. said (upto entries.now c) ++ replay.said.items ≡ said entries.now) }
        ensures schema { IfOk result (λ replay. SchemaStands replay.schema entries.now) }
        ensures gained { IfOk result
            (λ replay. HasGained schema.now replay.schema replay.gained.items) }
    {
        let len = entries.len();
        let from = c + 1;
        let mut replay = Replay {
            said: Vec::new(alloc),
            schema: schema.share()?,
            gained: Vec::new(alloc),
        };
        for t in from..len {
            replay.push(entries.at(t))?;
        }
        keep_each_once(&mut replay.gained);
        Ok(replay)
    }

    /// Goes on by the entry that comes next.
    fn push(&mut self, entry: &Entry) -> Result<(), Memory>
        ensures said { IfOk result
            (λ _. self.new.said.items ≡ self.old.said.items ++ entry.now.datoms) }
        ensures schema { IfOk result (λ _. (h : List Entry) → SchemaStands self.old.schema h
            → SchemaStands self.new.schema (h ++ entry.now ∷ [])) }
        ensures gained { IfOk result (λ _. (h : List Entry) (before : List Datom)
            → SchemaStands self.old.schema h
            → HasGained before self.old.schema self.old.gained.items
            → HasGained before self.new.schema self.new.gained.items) }
    {
        let schema = self.schema.of_entry(entry)?;
        let more = self.schema.gained(&schema, entry)?;
        self.gained.extend_from_slice(&more)?;
        push_all(&mut self.said, entry.datoms.as_slice())?;
        self.schema = schema;
        Ok(())
    }
}

fn push_all(list: &mut Vec<Datom>, datoms: &[Datom]) -> Result<(), Memory>
    ensures { IfOk result (λ _. list.new.items ≡ list.old.items ++ datoms.now) }
{
    for d in datoms {
        d.copy_into(list)?;
    }
    Ok(())
}

fn keep_each_once(numbers: &mut Vec<u64>)
    ensures { (n : ℕ) → Contains numbers.old.items n ↔ Contains numbers.new.items n }
{
    numbers.sort_unstable();
    numbers.dedup();
}

/// The trees' datoms of those of the attributes that AVET holds and no tree of AVET has.
pub fn refill_of(
    alloc: Global,
    older: &Older,
    covers: &Covers,
    attributes: &[u64],
) -> Result<Vec<Datom>, Memory>
    requires { IsRising Aevt (tree_datoms older.now.roots.aevt) }
    ensures { IfOk result
        (λ found. found.items ≡ flat_map (gained_of covers.now older.now) attributes.now) }
{
    let mut found = Vec::new(alloc);
    for a in attributes {
        push_gained(&mut found, older, covers, *a)?;
    }
    Ok(found)
}

fn push_gained(found: &mut Vec<Datom>, older: &Older, covers: &Covers, a: u64) -> Result<(), Memory>
    requires { IsRising Aevt (tree_datoms older.now.roots.aevt) }
    ensures { IfOk result
        (λ _. found.new.items ≡ found.old.items ++ gained_of covers.now older.now a) }
{
    if older.held.holds(Order::Avet, a) || !covers.holds(Order::Avet, a) {
        return Ok(());
    }
    let probe = Probe {
        order: Order::Aevt,
        e: None,
        a: Some(a),
        v: None,
        t: None,
    };
    push_older(found, &older.roots.aevt, &probe)
}
