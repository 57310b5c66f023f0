//! From the forms of a transaction to what each form asks.
ghost use Rattle.std.specs.Prelude.{◌≡◌, List, Some, None, IfOk, IfErr};
ghost use Rattle.edn_model.specs.Form.{Form};
ghost use Rattle.fb_values.specs.declared.facts.Entry.{Entry};
ghost use Rattle.fb_model.specs.Facts.{facts};
ghost use Rattle.fb_schema.specs.Described.{SchemaStands};
ghost use Rattle.tx_model.specs.Step.{first_refusal};
ghost use Rattle.tx_model.specs.Tempids.{db_of};
ghost use Rattle.tx_model.specs.Walk.{flat};
ghost use Rattle.tx_forms.specs.Parts.{AreParsed};
ghost use Rattle.tx_forms.specs.Stops.{IfRefused};
ghost use Rattle.tx_asks.specs.Asks.{AreAsks};
ghost use Rattle.tx_expand.specs.Known.{IsLawfulSchema};
ghost use Rattle.tx_expand.specs.Rules.{schema_rules};

use crate::firsts::least;
use crate::forms::{Walked, expand_forms};
use crate::laws::attributes_have_their_names;
use fb_memory::Memory;
use fb_schema::{Schema, schemas_tell_of_attributes};
use std::alloc::Global;
use tx_asks::Flat;
use tx_forms::{TxForm, TxStop};
use tx_refusals::{Reason, Refusal};

/// What each form asks, where none breaks a rule that needs the schema alone; else the least of these rules, with the
/// first form that breaks it.
pub fn expand<'a>(
    alloc: Global,
    forms: Vec<TxForm<'a>>,
    schema: &'a Schema,
) -> Result<Flat<'a>, TxStop>
    requires lawful { IsLawfulSchema schema.now }
    ensures asks { IfOk result (λ found. (h : List Entry) (fs : List Form)
        → SchemaStands schema.now h → AreParsed forms.entry.items fs
        → AreAsks found (facts h) (flat (facts h) fs)) }
    ensures unbroken { IfOk result (λ _. (h : List Entry) (fs : List Form)
        → SchemaStands schema.now h → AreParsed forms.entry.items fs
        → first_refusal (schema_rules (db_of h) (flat (facts h) fs)) ≡ None) }
    ensures refused { IfErr result (λ stop. IfRefused stop (λ refusal.
        (h : List Entry) (fs : List Form)
        → SchemaStands schema.now h → AreParsed forms.entry.items fs
        → first_refusal (schema_rules (db_of h) (flat (facts h) fs)) ≡ Some refusal)) }
{
    attributes_have_their_names();
    schemas_tell_of_attributes();
    let Ok(walked) = expand_forms(alloc, schema, forms.as_slice()) else {
        return Err(TxStop::Memory);
    };
    match walked {
        Walked::Unknown(at) => {
            let reason = Reason::NotAnAttribute;
            Err(TxStop::Refused(Refusal { reason, at }))
        }
        Walked::Whole(expanded) => match least(expanded.firsts) {
            Some(refusal) => Err(TxStop::Refused(refusal)),
            None => Ok(Flat {
                forms: expanded.forms,
                lookups: expanded.lookups,
                nameless: expanded.nameless,
                lacking: expanded.firsts.lacking,
            }),
        },
    }
}
