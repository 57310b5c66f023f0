//! The schema as one value.
ghost use Rattle.std.specs.Prelude.{◌≡◌, ℕ, List, [], ◌∷◌, ◌++◌, IfOk, ◌↔◌, Contains, IsTrue};
ghost use Rattle.std.specs.List.{list_any};
ghost use Rattle.std.specs.Option.{option_map, option_copied};
ghost use Rattle.fb_values.specs.declared.facts.Datom.{Datom};
ghost use Rattle.fb_values.specs.declared.facts.Entry.{Entry};
ghost use Rattle.fb_values.specs.declared.indexes.Order.TheVariants.{Avet};
ghost use Rattle.fb_model.specs.Schema.{attribute_of, attribute_named, named, is_attribute as model_is_attribute, is_one as model_is_one, is_unique as model_is_unique};
ghost use Rattle.fb_schema.specs.Described.{describes as model_describes, SchemaStands};
ghost use Rattle.fb_schema.specs.Parts.{model_attribute};
ghost use Rattle.fb_schema.specs.Tables.{HasCoverage};
ghost use Rattle.fb_schema.specs.Change.{is_gained as model_is_gained, describes_one};

use crate::attribute::Attribute;
use crate::tables::{Tables, describes};
use fb_covers::Covers;
use fb_memory::Memory;
use fb_text::Text;
use fb_values::{Datom, Entry, Order};
use std::alloc::Global;
use std::marker::Model;
use std::sync::Arc;

/// The schema: the facts that name entities and describe attributes, in tables. It is shared as a whole.
#[derive(Drop)]
pub struct Schema {
    alloc: Global,
    tables: Arc<Tables>,
}

impl Model for Schema {
    ghost use Rattle.std.specs.Prelude.{List};
    ghost use Rattle.std.specs.Arc.{arc_value};
    ghost use Rattle.fb_values.specs.declared.facts.Datom.{Datom};

    ghost Value = { List Datom };

    ghost view = { λ s. arc_value s.tables };
}

impl Schema {
    /// The schema of the history that has this entry alone.
    pub fn first(alloc: Global, first: &Entry) -> Result<Schema, Memory>
        ensures { IfOk result (λ schema. SchemaStands schema (first.now ∷ [])) }
    {
        let none = Tables::none(alloc)?;
        let tables = none.with_all(first.datoms.as_slice())?;
        let tables = Arc::new(alloc, tables)?;
        Ok(Schema { alloc, tables })
    }

    /// The schema after the entry: this one, where the entry says nothing of it. What the entry says takes the logarithm
    /// of the schema for each datom.
    pub fn of_entry(&self, entry: &Entry) -> Result<Schema, Memory>
        ensures { IfOk result (λ schema. (h : List Entry) → SchemaStands self.now h
            → SchemaStands schema (h ++ entry.now ∷ [])) }
    {
        if !changes_schema(entry) {
            return self.share();
        }
        let tables = self.tables.with_all(entry.datoms.as_slice())?;
        let tables = Arc::new(self.alloc, tables)?;
        Ok(Schema {
            alloc: self.alloc,
            tables,
        })
    }

    /// The same schema, at the cost of a reference count.
    pub fn share(&self) -> Result<Schema, Memory>
        ensures { IfOk result (λ schema. schema ≡ self.now) }
    {
        let tables = self.tables.clone()?;
        Ok(Schema {
            alloc: self.alloc,
            tables,
        })
    }

    /// The attribute that is this entity.
    pub fn attribute(&self, id: u64) -> Option<&Attribute>
        ensures { option_map model_attribute (option_copied result) ≡ attribute_of self.now id }
    {
        self.tables.attributes.get(&id)
    }

    /// The least entity with this ident, which may be no attribute.
    pub fn entity_named(&self, ident: &Text) -> Option<u64>
        ensures { result ≡ named self.now ident.now }
    {
        self.tables.names.entity(ident)
    }

    /// The attribute with this ident.
    pub fn named(&self, ident: &Text) -> Option<&Attribute>
        ensures { option_map model_attribute (option_copied result)
            ≡ attribute_named self.now ident.now }
    {
        self.attribute(self.entity_named(ident)?)
    }

    /// Whether the entity is an attribute.
    pub fn is_attribute(&self, e: u64) -> bool
        ensures { result ≡ model_is_attribute self.now e }
    {
        self.attribute(e).is_some()
    }

    /// Whether it is an attribute of which an entity has one value.
    pub fn is_one(&self, a: u64) -> bool
        ensures { result ≡ model_is_one self.now a }
    {
        match self.attribute(a) {
            Some(attribute) => !attribute.many,
            None => false,
        }
    }

    /// Whether it is an attribute of which a value has one entity.
    pub fn is_unique(&self, a: u64) -> bool
        ensures { result ≡ model_is_unique self.now a }
    {
        match self.attribute(a) {
            Some(attribute) => attribute.is_unique(),
            None => false,
        }
    }

    /// Which attributes the indexes hold.
    pub fn covers(&self) -> &Covers
        ensures { HasCoverage result.now self.now }
    {
        &self.tables.covers
    }

    /// The attributes that AVET holds with the entry, under the later schema, and not under this one. The other way round:
    /// those that it loses.
    pub fn gained(&self, after: &Schema, entry: &Entry) -> Result<Vec<u64>, Memory>
        ensures { IfOk result (λ gained. (h : List Entry) → SchemaStands self.now h
            → SchemaStands after.now (h ++ entry.now ∷ []) → (a : ℕ)
            → IsTrue (model_is_gained Avet self.now after.now a) ↔ Contains gained.items a) }
    {
        let (held_before, held_after) = (self.covers(), after.covers());
        let mut gained = Vec::new(self.alloc);
        for d in entry.datoms.as_slice() {
            if describes_gained(held_before, held_after, d) {
                gained.push(d.e)?;
            }
        }
        Ok(gained)
    }
}

/// Whether the datom describes an attribute that AVET holds under the later coverage and not under the earlier one.
fn describes_gained(before: &Covers, after: &Covers, d: &Datom) -> bool
    ensures { (facts facts_after : List Datom) → HasCoverage before.now facts
        → HasCoverage after.now facts_after
        → result ≡ describes_one (model_is_gained Avet facts facts_after) d.now }
{
    describes(d) && is_gained(before, after, d.e)
}

fn is_gained(before: &Covers, after: &Covers, a: u64) -> bool
    ensures { (facts facts_after : List Datom) → HasCoverage before.now facts
        → HasCoverage after.now facts_after → result ≡ model_is_gained Avet facts facts_after a }
{
    after.holds(Order::Avet, a) && !before.holds(Order::Avet, a)
}

/// Whether the entry says anything of the schema.
pub fn changes_schema(entry: &Entry) -> bool
    ensures { result ≡ list_any model_describes entry.now.datoms }
{
    entry.datoms.as_slice().iter().any(|d| describes(d))
}
