//! The facts of an entity that may be an attribute.
ghost use Rattle.std.specs.Prelude.{◌≡◌, ℕ, List, [], ◌∷◌, IfOk};
ghost use Rattle.std.specs.Option.{option_map};
ghost use Rattle.fb_values.specs.declared.facts.Datom.{Datom};
ghost use Rattle.fb_model.specs.Schema.{keyword_in as model_keyword_in, entity_in as model_entity_in, truth_in as model_truth_in};

use crate::attribute::Attribute;
use fb_memory::Memory;
use fb_numbers::{CARDINALITY, CARDINALITY_MANY, IDENT, INDEX, IS_COMPONENT, UNIQUE, VALUE_TYPE};
use fb_text::Text;
use fb_values::{Datom, Value};

/// The first thing said of each kind.
#[derive(Drop)]
pub struct Description {
    pub name: Option<Text>,
    pub kind: Option<u64>,
    pub count: Option<u64>,
    pub unique: Option<u64>,
    pub component: bool,
    pub indexed: bool,
}

impl Description {
    ghost use Rattle.fb_schema.specs.Parts.{model_attribute, description_of, attribute_from};

    /// Of which there are no facts.
    pub fn empty() -> Description
        ensures { (e : ℕ) → result ≡ description_of [] e }
    {
        Description {
            name: None,
            kind: None,
            count: None,
            unique: None,
            component: false,
            indexed: false,
        }
    }

    /// With a datom that precedes all others.
    pub fn with(mut self, d: &Datom) -> Result<Description, Memory>
        ensures { (facts : List Datom) → self ≡ description_of facts d.now.e
            → IfOk result (λ said. said ≡ description_of (d.now ∷ facts) d.now.e) }
    {
        match d.a {
            IDENT => self.name = keyword_in(&d.v)?,
            VALUE_TYPE => self.kind = entity_in(&d.v),
            CARDINALITY => self.count = entity_in(&d.v),
            UNIQUE => self.unique = entity_in(&d.v),
            IS_COMPONENT => self.component = truth_in(&d.v),
            INDEX => self.indexed = truth_in(&d.v),
            _ => {}
        }
        Ok(self)
    }

    /// The entity as an attribute, if it has an ident, a type and a cardinality.
    pub fn attribute(&self, id: u64) -> Result<Option<Attribute>, Memory>
        ensures { IfOk result
            (λ found. option_map model_attribute found ≡ attribute_from id self.now) }
    {
        let (Some(name), Some(kind), Some(count)) = (&self.name, self.kind, self.count) else {
            return Ok(None);
        };
        Ok(Some(Attribute {
            id,
            ident: name.copy()?,
            kind,
            many: count == CARDINALITY_MANY,
            unique: self.unique.unwrap_or(0),
            component: self.component,
            indexed: self.indexed,
        }))
    }
}

fn keyword_in(v: &Value) -> Result<Option<Text>, Memory>
    ensures { IfOk result (λ name. name ≡ model_keyword_in v.now) }
{
    Ok(match v {
        Value::Keyword(name) => Some(name.copy()?),
        _ => None,
    })
}

fn entity_in(v: &Value) -> Option<u64>
    ensures { result ≡ model_entity_in v.now }
{
    match v {
        Value::Ref(entity) => Some(*entity),
        _ => None,
    }
}

fn truth_in(v: &Value) -> bool
    ensures { result ≡ model_truth_in v.now }
{
    match v {
        Value::Bool(b) => *b,
        _ => false,
    }
}
