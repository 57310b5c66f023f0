//! The least rule on changes that is broken, and the first form that breaks it.
ghost use Rattle.std.specs.Prelude.{◌≡◌, map, IfOk, IsTrue};
ghost use Rattle.fb_model.specs.Lawful.{IsLawful};
ghost use Rattle.fb_schema.specs.Described.{SchemaStands};
ghost use Rattle.tx_model.specs.Tempids.{db_of};
ghost use Rattle.tx_model.specs.Transaction as model;
ghost use Rattle.tx_model.specs.Step.{first_refusal};
ghost use Rattle.tx_asks.specs.Acts.{AreActs};
ghost use Rattle.tx_asks.specs.Triples.{rise, AreTriples};
ghost use Rattle.tx_after.specs.After.{AreChanges};
ghost use Rattle.tx_rules.specs.Cas.{acts_of};
ghost use Rattle.tx_rules.specs.Tempids.{HasAssignedTempids};
ghost use Rattle.tx_rules.specs.Rules.{change_rules, first_place as model_first_place, with_first};

use crate::cas::{first_failed, first_of_many};
use crate::conflicts::first_conflict;
use crate::fixed::first_fixed;
use crate::holders::first_shared;
use crate::promises::first_broken;
use crate::room::{is_full, is_too_large};
use crate::whole::first_incomplete;
use fb_facts::Facts;
use fb_memory::Memory;
use fb_model::{facts_are_what_holds, one_value_and_one_holder};
use fb_schema::{Schema, schemas_tell_of_attributes};
use fb_values::Datom;
use std::alloc::Global;
use tx_asks::{Act, Triple, acts_compare_what_asks_do};
use tx_refusals::{Reason, Refusal};

/// A rule on what a transaction changes.
#[derive(Clone, Copy)]
pub enum ChangeRule {
    CasMany,
    CasFailed,
    DatomsConflict,
    UniqueConflict,
    IncompleteAttribute,
    AttributeFixed,
    TooLarge,
    Full,
    AlterationConflict,
}

/// The rules on changes, the least one first.
const RULES: [ChangeRule; 9] = [
    ChangeRule::CasMany,
    ChangeRule::CasFailed,
    ChangeRule::DatomsConflict,
    ChangeRule::UniqueConflict,
    ChangeRule::IncompleteAttribute,
    ChangeRule::AttributeFixed,
    ChangeRule::TooLarge,
    ChangeRule::Full,
    ChangeRule::AlterationConflict,
];

impl ChangeRule {
    ghost use Rattle.tx_rules.specs.Rules.{reason_of};

    /// Why a transaction that breaks it is refused.
    fn reason(self) -> Reason
        ensures { result ≡ reason_of self }
    {
        match self {
            ChangeRule::CasMany => Reason::CasMany,
            ChangeRule::CasFailed => Reason::CasFailed,
            ChangeRule::DatomsConflict => Reason::DatomsConflict,
            ChangeRule::UniqueConflict => Reason::UniqueConflict,
            ChangeRule::IncompleteAttribute => Reason::IncompleteAttribute,
            ChangeRule::AttributeFixed => Reason::AttributeFixed,
            ChangeRule::TooLarge => Reason::TooLarge,
            ChangeRule::Full => Reason::Full,
            ChangeRule::AlterationConflict => Reason::AlterationConflict,
        }
    }
}

/// Why a transaction that breaks no rule on names is refused, if it is: by its acts form by form, its triples, and what it
/// changes. A rule is judged where no lower one is broken. Its tempids are the entities that are assigned to them.
pub fn least_refusal<F: Facts>(
    alloc: Global,
    forms: &[Vec<Act<'_>>],
    triples: &[Triple],
    changes: &[Datom],
    facts: &F,
    schema: &Schema,
) -> Result<Option<Refusal>, Memory>
    requires schema { SchemaStands schema.now (F.history facts.now) }
    requires lawful { IsLawful (F.history facts.now) }
    requires rising { IsTrue (rise triples.now) }
    requires changes { AreChanges changes.now }
    ensures { (tx : model.Transaction) → tx.db ≡ db_of (F.history facts.now)
        → AreActs (acts_of forms.now) tx → HasAssignedTempids tx → AreTriples tx triples.now
        → changes.now ≡ tx.changes
        → IfOk result (λ refusal. refusal ≡ first_refusal (change_rules tx)) }
{
    schemas_tell_of_attributes();
    facts_are_what_holds();
    one_value_and_one_holder();
    acts_compare_what_asks_do();
    least_of(alloc, &RULES, forms, triples, changes, facts, schema)
}

/// The first of the rules that is broken, with the first form that breaks it.
fn least_of<F: Facts>(
    alloc: Global,
    rules: &[ChangeRule],
    forms: &[Vec<Act<'_>>],
    triples: &[Triple],
    changes: &[Datom],
    facts: &F,
    schema: &Schema,
) -> Result<Option<Refusal>, Memory>
    requires lawful { IsLawful (F.history facts.now) }
    requires rising { IsTrue (rise triples.now) }
    requires changes { AreChanges changes.now }
    ensures { IfOk result (λ refusal. refusal
        ≡ first_refusal (map
        (with_first (record {
          history = F.history facts.now;
          schema = schema.now;
          forms = acts_of forms.now;
          triples = triples.now;
          changes = changes.now;
        }))
        rules.now)) }
{
    for rule in rules {
        if let Some(at) = first_place(alloc, *rule, forms, triples, changes, facts, schema)? {
            let reason = rule.reason();
            return Ok(Some(Refusal { reason, at }));
        }
    }
    Ok(None)
}

/// The first form that breaks the rule. What is wrong with a transaction as a whole is reported at its first form.
fn first_place<F: Facts>(
    alloc: Global,
    rule: ChangeRule,
    forms: &[Vec<Act<'_>>],
    triples: &[Triple],
    changes: &[Datom],
    facts: &F,
    schema: &Schema,
) -> Result<Option<usize>, Memory>
    requires lawful { IsLawful (F.history facts.now) }
    requires rising { IsTrue (rise triples.now) }
    requires changes { AreChanges changes.now }
    ensures { IfOk result (λ place. place
        ≡ model_first_place
        (record {
          history = F.history facts.now;
          schema = schema.now;
          forms = acts_of forms.now;
          triples = triples.now;
          changes = changes.now;
        })
        rule) }
{
    match rule {
        ChangeRule::CasMany => Ok(first_of_many(forms)),
        ChangeRule::CasFailed => first_failed(forms, facts),
        ChangeRule::DatomsConflict => Ok(first_conflict(triples, schema)),
        ChangeRule::UniqueConflict => first_shared(alloc, triples, changes, facts, schema),
        ChangeRule::IncompleteAttribute => first_incomplete(triples, changes, facts, schema),
        ChangeRule::AttributeFixed => Ok(first_fixed(triples, schema)),
        ChangeRule::TooLarge => Ok(if is_too_large(changes) { Some(0) } else { None }),
        ChangeRule::Full => Ok(if is_full(facts, changes) {
            Some(0)
        } else {
            None
        }),
        ChangeRule::AlterationConflict => first_broken(alloc, triples, changes, facts, schema),
    }
}
