//! What the schema's facts say, in tables that share with older ones what a datom does not change.
ghost use Rattle.std.specs.Prelude.{◌≡◌, ◌∷◌, ◌++◌, [], filter, IfOk};
ghost use Rattle.fb_model.specs.Facts.{standing};
ghost use Rattle.fb_schema.specs.Described.{describes as model_describes};

use crate::attribute::Attribute;
use crate::facts::Facts;
use crate::idents::Names;
use crate::installed::{attribute_of, held_of, with_attribute};
use fb_chunks::Share;
use fb_covers::Covers;
use fb_memory::Memory;
use fb_numbers::{IDENT, INDEX};
use fb_values::Datom;
use shared_map::SharedMap;
use std::alloc::Global;
use std::marker::Model;

#[derive(Drop)]
pub struct Tables {
    facts: Facts,
    pub attributes: SharedMap<u64, Attribute>,
    pub names: Names,
    pub covers: Covers,
}

impl Model for Tables {
    ghost use Rattle.std.specs.Prelude.{◌≡◌, List};
    ghost use Rattle.fb_values.specs.declared.facts.Datom.{Datom};
    ghost use Rattle.fb_model.specs.Facts.{standing};
    ghost use Rattle.fb_schema.specs.Tables.{HasAttributes, HasCoverage};
    ghost use Rattle.fb_schema.specs.Naming.{HasNames};

    ghost Value = { List Datom };

    ghost view = { λ t. t.facts };

    ghost invariant = { λ t. HasAttributes t.attributes t.facts
        × HasNames t.names t.facts
        × HasCoverage t.covers t.facts
        × (standing t.facts ≡ t.facts) };
}

impl Tables {
    pub fn none(alloc: Global) -> Result<Tables, Memory>
        ensures { IfOk result (λ tables. tables ≡ []) }
    {
        Ok(Tables {
            facts: Facts::none(alloc)?,
            attributes: SharedMap::new(alloc)?,
            names: Names::none(alloc)?,
            covers: Covers::none(alloc)?,
        })
    }

    /// The same tables, at the cost of a few reference counts.
    fn share(&self) -> Result<Tables, Memory>
        ensures same { IfOk result (λ tables. tables ≡ self.now) }
        ensures stands { standing self.now ≡ self.now }
    {
        Ok(Tables {
            facts: self.facts.share()?,
            attributes: self.attributes.share()?,
            names: self.names.share()?,
            covers: self.covers.share()?,
        })
    }

    /// What holds after more datoms, of which only some describe.
    pub fn with_all(&self, datoms: &[Datom]) -> Result<Tables, Memory>
        ensures { IfOk result
            (λ tables. tables ≡ standing (self.now ++ filter model_describes datoms.now)) }
    {
        let mut tables = self.share()?;
        for d in datoms {
            if describes(d) {
                tables = tables.with(d)?;
            }
        }
        Ok(tables)
    }

    /// What holds after one more datom.
    fn with(&self, d: &Datom) -> Result<Tables, Memory>
        ensures { IfOk result (λ tables. tables ≡ standing (self.now ++ d.now ∷ [])) }
    {
        let facts = self.facts.with(d)?;
        let names = self.names.with(d)?;
        let own = facts.of_entity(d.e)?;
        let found = attribute_of(&own, d.e)?;
        let held = held_of(&found);
        let covers = self.covers.with(d.e, held)?;
        let attributes = with_attribute(&self.attributes, d.e, found)?;
        Ok(Tables {
            facts,
            attributes,
            names,
            covers,
        })
    }
}

/// Whether the datom names an entity or describes an attribute.
pub fn describes(d: &Datom) -> bool
    ensures { result ≡ model_describes d.now }
{
    IDENT <= d.a && d.a <= INDEX
}
