//! Asks whose names are found.
ghost use Rattle.std.specs.Prelude.{◌≡◌, IfOk, IfErr, IfSome, Some, None, [], ◌∷◌, map, is_none};
ghost use Rattle.std.specs.List.{list_any};
ghost use Rattle.fb_model.specs.Lawful.{IsLawful};
ghost use Rattle.fb_schema.specs.Described.{SchemaStands};
ghost use Rattle.tx_model.specs.Step.{first_refusal};
ghost use Rattle.tx_model.specs.Tempids.{db_of};
ghost use Rattle.tx_refusals.specs.declared.reasons.Reason.TheVariants.{NotAnEntity};
ghost use Rattle.tx_resolve.specs.Drafts as model;
ghost use Rattle.tx_resolve.specs.Drafts.{is_lost, lost_at, AreFound};
ghost use Rattle.tx_resolve.specs.Rules.{StopsBy};

use crate::meeting::Met;
use crate::names::whom;
use crate::whom::EntityRef;
use fb_facts::Facts;
use fb_memory::Memory;
use fb_schema::{Attribute, Schema};
use fb_values::Value;
use std::alloc::Global;
use tx_asks::{Ask, Boxed, Comparison, Name, Operand as AskPart};
use tx_forms::TxStop;
use tx_refusals::{Reason, Refusal};

/// What is given in the place of a value.
#[derive(Drop)]
pub enum Operand {
    Plain(Value),
    Entity(EntityRef),
}

/// An ask whose names are found in the database, as far as they are no tempids.
#[derive(Drop)]
pub enum Draft<'a> {
    Adds {
        on: EntityRef,
        attribute: &'a Attribute,
        part: Operand,
        /// The entity that a tempid becomes by it: that which has the identity value.
        holder: Option<u64>,
    },
    Retracts {
        on: EntityRef,
        attribute: &'a Attribute,
        part: Operand,
    },
    RetractsAll {
        on: EntityRef,
        attribute: &'a Attribute,
    },
    Compares(Boxed<DraftComparison<'a>>),
    RetractsEntity {
        on: EntityRef,
    },
    Meets {
        on: EntityRef,
    },
}

/// A comparison whose names are found in the same way.
#[derive(Drop)]
pub struct DraftComparison<'a> {
    pub on: EntityRef,
    pub attribute: &'a Attribute,
    pub old: Option<Operand>,
    pub new: Operand,
}

/// What the forms ask, with the names found, where the lookup refs find these entities and these are the tempids. A name
/// that finds none is refused at the first form that has one.
pub fn drafts_of_forms<'a, F: Facts>(
    alloc: Global,
    facts: &F,
    schema: &Schema,
    found: &[Option<u64>],
    met: &Met<'a>,
    forms: &[Vec<Ask<'a>>],
) -> Result<Vec<Vec<Draft<'a>>>, TxStop>
    requires schema { SchemaStands schema.now (F.history facts.now) }
    requires lawful { IsLawful (F.history facts.now) }
    ensures found { IfOk result (λ drafts.
        AreFound (db_of (F.history facts.now)) found.now met.now forms.now drafts.items) }
    ensures unbroken { IfOk result
        (λ _. lost_at (db_of (F.history facts.now)) found.now met.now forms.now ≡ None) }
    ensures refused { IfErr result (λ stop. StopsBy
        (first_refusal ((
          NotAnEntity,
          lost_at (db_of (F.history facts.now)) found.now met.now forms.now,
        ) ∷ [])) stop) }
{
    let mut forms_found = Vec::with_capacity(alloc, forms.len())?;
    let mut place = 0;
    for asks in forms {
        let Some(drafts) = drafts_of(alloc, facts, schema, found, met, asks)? else {
            return Err(TxStop::Refused(Refusal {
                reason: Reason::NotAnEntity,
                at: place,
            }));
        };
        forms_found.push(drafts)?;
        place += 1;
    }
    Ok(forms_found)
}

/// None where a name finds no entity.
fn drafts_of<'a, F: Facts>(
    alloc: Global,
    facts: &F,
    schema: &Schema,
    found: &[Option<u64>],
    met: &Met<'a>,
    asks: &[Ask<'a>],
) -> Result<Option<Vec<Draft<'a>>>, Memory>
    requires schema { SchemaStands schema.now (F.history facts.now) }
    requires lawful { IsLawful (F.history facts.now) }
    ensures found { IfOk result (λ drafts. IfSome drafts (λ list. map Some list.items
        ≡ map (model.draft_of (db_of (F.history facts.now)) found.now met.now) asks.now)) }
    ensures lost { IfOk result
        (λ drafts. is_none drafts
        ≡ list_any (is_lost (db_of (F.history facts.now)) found.now met.now) asks.now) }
{
    let mut drafts = Vec::with_capacity(alloc, asks.len())?;
    for ask in asks {
        let Some(draft) = draft_of(alloc, facts, schema, found, met, ask)? else {
            return Ok(None);
        };
        drafts.push(draft)?;
    }
    Ok(Some(drafts))
}

fn draft_of<'a, F: Facts>(
    alloc: Global,
    facts: &F,
    schema: &Schema,
    found: &[Option<u64>],
    met: &Met<'a>,
    ask: &Ask<'a>,
) -> Result<Option<Draft<'a>>, Memory>
    requires schema { SchemaStands schema.now (F.history facts.now) }
    requires lawful { IsLawful (F.history facts.now) }
    ensures { IfOk result
        (λ draft. draft ≡ model.draft_of (db_of (F.history facts.now)) found.now met.now ask.now) }
{
    match ask {
        Ask::Adds {
            on,
            attribute,
            part,
        } => addition(facts, schema, found, met, on, *attribute, part),
        Ask::Retracts {
            on,
            attribute,
            part,
        } => retraction(facts, schema, found, met, on, *attribute, part),
        Ask::RetractsAll { on, attribute } => {
            let Some(on) = whom(facts, schema, found, met, on) else {
                return Ok(None);
            };
            Ok(Some(Draft::RetractsAll {
                on,
                attribute: *attribute,
            }))
        }
        Ask::Compares(asked) => comparison(alloc, facts, schema, found, met, asked.get()),
        Ask::RetractsEntity { on } => {
            let Some(on) = whom(facts, schema, found, met, on) else {
                return Ok(None);
            };
            Ok(Some(Draft::RetractsEntity { on }))
        }
        Ask::Meets { on } => {
            let Some(on) = whom(facts, schema, found, met, on) else {
                return Ok(None);
            };
            Ok(Some(Draft::Meets { on }))
        }
    }
}

fn addition<'a, F: Facts>(
    facts: &F,
    schema: &Schema,
    found: &[Option<u64>],
    met: &Met<'a>,
    on: &Name<'a>,
    attribute: &'a Attribute,
    part: &AskPart<'a>,
) -> Result<Option<Draft<'a>>, Memory>
    requires schema { SchemaStands schema.now (F.history facts.now) }
    requires lawful { IsLawful (F.history facts.now) }
    ensures { IfOk result (λ draft. draft
        ≡ model.draft_of (db_of (F.history facts.now)) found.now met.now
        (Ask.Adds on.now attribute.entry part.now)) }
{
    let Some(on) = whom(facts, schema, found, met, on) else {
        return Ok(None);
    };
    let Some(part) = part_of(facts, schema, found, met, part)? else {
        return Ok(None);
    };
    let holder = holder_for(facts, on, attribute, &part);
    Ok(Some(Draft::Adds {
        on,
        attribute,
        part,
        holder,
    }))
}

/// The holder of the identity value that an addition gives to a tempid.
fn holder_for<F: Facts>(
    facts: &F,
    on: EntityRef,
    attribute: &Attribute,
    part: &Operand,
) -> Option<u64>
    ensures { result
        ≡ model.holder_for (db_of (F.history facts.now)) on attribute.now part.now }
{
    match (on, part) {
        (EntityRef::New(_), Operand::Plain(v)) if attribute.is_identity() => facts.holder(
            attribute.id,
            v,
        ),
        _ => None,
    }
}

fn retraction<'a, F: Facts>(
    facts: &F,
    schema: &Schema,
    found: &[Option<u64>],
    met: &Met<'a>,
    on: &Name<'a>,
    attribute: &'a Attribute,
    part: &AskPart<'a>,
) -> Result<Option<Draft<'a>>, Memory>
    requires schema { SchemaStands schema.now (F.history facts.now) }
    requires lawful { IsLawful (F.history facts.now) }
    ensures { IfOk result (λ draft. draft
        ≡ model.draft_of (db_of (F.history facts.now)) found.now met.now
        (Ask.Retracts on.now attribute.entry part.now)) }
{
    let Some(on) = whom(facts, schema, found, met, on) else {
        return Ok(None);
    };
    let Some(part) = part_of(facts, schema, found, met, part)? else {
        return Ok(None);
    };
    Ok(Some(Draft::Retracts {
        on,
        attribute,
        part,
    }))
}

fn comparison<'a, F: Facts>(
    alloc: Global,
    facts: &F,
    schema: &Schema,
    found: &[Option<u64>],
    met: &Met<'a>,
    asked: &Comparison<'a>,
) -> Result<Option<Draft<'a>>, Memory>
    requires schema { SchemaStands schema.now (F.history facts.now) }
    requires lawful { IsLawful (F.history facts.now) }
    ensures { IfOk result (λ draft. draft
        ≡ model.draft_of (db_of (F.history facts.now)) found.now met.now
        (Ask.Compares asked.now)) }
{
    let Some(on) = whom(facts, schema, found, met, &asked.on) else {
        return Ok(None);
    };
    let Some(old) = old_part_of(facts, schema, found, met, &asked.old)? else {
        return Ok(None);
    };
    let Some(new) = part_of(facts, schema, found, met, &asked.new)? else {
        return Ok(None);
    };
    let attribute = asked.attribute;
    let drafted = DraftComparison {
        on,
        attribute,
        old,
        new,
    };
    Ok(Some(Draft::Compares(Boxed::new(alloc, drafted)?)))
}

fn part_of<'a, F: Facts>(
    facts: &F,
    schema: &Schema,
    found: &[Option<u64>],
    met: &Met<'a>,
    part: &AskPart<'a>,
) -> Result<Option<Operand>, Memory>
    requires schema { SchemaStands schema.now (F.history facts.now) }
    requires lawful { IsLawful (F.history facts.now) }
    ensures { IfOk result
        (λ part_found. part_found
        ≡ model.part_of (db_of (F.history facts.now)) found.now met.now part.now) }
{
    match part {
        AskPart::Plain(_, v) => Ok(Some(Operand::Plain(v.copy()?))),
        AskPart::Entity(name) => {
            let Some(whom) = whom(facts, schema, found, met, name) else {
                return Ok(None);
            };
            Ok(Some(Operand::Entity(whom)))
        }
    }
}

fn old_part_of<'a, F: Facts>(
    facts: &F,
    schema: &Schema,
    found: &[Option<u64>],
    met: &Met<'a>,
    old: &Option<AskPart<'a>>,
) -> Result<Option<Option<Operand>>, Memory>
    requires schema { SchemaStands schema.now (F.history facts.now) }
    requires lawful { IsLawful (F.history facts.now) }
    ensures { IfOk result
        (λ old_found. old_found
        ≡ model.old_part_of (db_of (F.history facts.now)) found.now met.now old.now) }
{
    match old {
        None => Ok(Some(None)),
        Some(part) => {
            let Some(part) = part_of(facts, schema, found, met, part)? else {
                return Ok(None);
            };
            Ok(Some(Some(part)))
        }
    }
}
