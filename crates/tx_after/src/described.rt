//! What an entity is as an attribute after the changes.
ghost use Rattle.std.specs.Prelude.{◌≡◌, ◌&&◌, nat_eq, IfOk};
ghost use Rattle.std.specs.List.{list_any};
ghost use Rattle.std.specs.Option.{option_map};
ghost use Rattle.fb_model.specs.Lawful.{IsLawful};
ghost use Rattle.fb_model.specs.Laws as laws;
ghost use Rattle.fb_model.specs.Schema as schema;
ghost use Rattle.fb_schema.specs.Parts.{model_attribute};
ghost use Rattle.tx_after.specs.After as model;

use crate::attributes::{attribute_of, is_whole, says_attribute};
use crate::said::said_after;
use fb_facts::Facts;
use fb_memory::Memory;
use fb_schema::Attribute;
use fb_values::Datom;

/// What the facts after the changes say of an entity as an attribute.
#[derive(Drop)]
pub struct Description {
    /// The entity as an attribute.
    pub attribute: Option<Attribute>,
    /// Whether it has all that an attribute needs.
    pub whole: bool,
    /// Whether something is said of it that is said of attributes alone.
    pub says_attribute: bool,
}

/// The entity's description after the changes. It costs what is said of it under the attributes that describe and the
/// changes of it, whatever else holds of it.
pub fn description_after<F: Facts>(
    facts: &F,
    changes: &[Datom],
    e: u64,
) -> Result<Description, Memory>
    requires lawful { IsLawful (F.history facts.now) }
    requires changes { model.AreChanges changes.now }
    ensures attribute { IfOk result (λ found. option_map model_attribute found.attribute
        ≡ schema.attribute_of (model.after (F.history facts.now) changes.now) e) }
    ensures whole { IfOk result (λ found. found.whole
        ≡ schema.is_whole (model.after (F.history facts.now) changes.now) e) }
    ensures says_attribute { IfOk result (λ found. found.says_attribute
        ≡ list_any (λ d. nat_eq d.e e && laws.says_attribute d)
        (model.after (F.history facts.now) changes.now)) }
{
    let said = said_after(facts, changes, e)?;
    let attribute = attribute_of(&said, e)?;
    Ok(Description {
        whole: is_whole(&said, &attribute),
        says_attribute: says_attribute(&said),
        attribute,
    })
}

/// The entity as an attribute after the changes.
pub fn attribute_after<F: Facts>(
    facts: &F,
    changes: &[Datom],
    e: u64,
) -> Result<Option<Attribute>, Memory>
    requires lawful { IsLawful (F.history facts.now) }
    requires changes { model.AreChanges changes.now }
    ensures { IfOk result (λ found. option_map model_attribute found
        ≡ schema.attribute_of (model.after (F.history facts.now) changes.now) e) }
{
    let said = said_after(facts, changes, e)?;
    attribute_of(&said, e)
}
