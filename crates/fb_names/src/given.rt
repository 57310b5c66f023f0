//! One form at its place: an entity, an attribute, a value or a t. Each is read, or refused at the place.
ghost use Rattle.std.specs.Prelude.{◌≡◌, List};
ghost use Rattle.std.specs.Option.{ok_or};
ghost use Rattle.edn_form.specs.View.{form_of};
ghost use Rattle.fb_values.specs.declared.facts.Entry.{Entry};
ghost use Rattle.fb_model.specs.Facts.{facts};
ghost use Rattle.fb_schema.specs.Described.{SchemaStands};
ghost use Rattle.fb_db.specs.Seen.{window_of};
ghost use Rattle.read_model.specs.Names.{id_in};
ghost use Rattle.read_model.specs.Given.{refusal};
ghost use Rattle.read_model.specs.Components.{entity_given, attribute_in, value_given, t_in};
ghost use Rattle.read_refusals.specs.declared.reasons.Reason.TheVariants.{BadComponent};
ghost use Rattle.fb_names.specs.Answers.{IsGiven, AnswersAs};
ghost use Rattle.fb_names.specs.Attributes.{typed_or};

use crate::names::{entid, plain_value};
use crate::points::t_of;
use crate::stops::NameStop;
use edn_form::Edn;
use fb_db::Db;
use fb_numbers::TYPE_REF;
use fb_preds::Selector;
use fb_schema::{Attribute, Schema, schemas_tell_of_attributes};
use fb_values::{Order, Value};
use read_refusals::{Reason, Refusal};

/// An attribute with its type.
#[derive(Clone, Copy)]
pub struct Typed {
    pub id: u64,
    pub kind: u64,
}

fn bad_component(at: usize) -> Refusal
    ensures { result ≡ refusal BadComponent at }
{
    Refusal {
        reason: Reason::BadComponent,
        at,
    }
}

/// An entity by its name.
pub fn entity<S: Selector>(db: &Db<S>, form: &Edn, at: usize) -> Result<u64, NameStop>
    ensures { AnswersAs
        (IsGiven db.now.snapshot.entries (window_of db.now) (S.selects db.now.filter) at
        (entity_given (λ e. e) (id_in (facts db.now.snapshot.entries) (form_of form.now))))
        result }
{
    match entid(db, form)? {
        Some(e) => Ok(e),
        None => Err(NameStop::Refused(bad_component(at))),
    }
}

/// An attribute by its keyword, which the index has to hold.
pub fn attribute(schema: &Schema, order: Order, form: &Edn, at: usize) -> Result<Typed, Refusal>
    ensures { (h : List Entry) → SchemaStands schema.now h
        → result ≡ typed_or order at (attribute_in (facts h) (form_of form.now)) }
{
    schemas_tell_of_attributes();
    let Edn::Key(keyword) = form else {
        return Err(bad_component(at));
    };
    let Some(attribute) = schema.named(keyword) else {
        return Err(bad_component(at));
    };
    if !attribute.is_held_in(order) {
        return Err(Refusal {
            reason: Reason::NotInIndex,
            at,
        });
    }
    Ok(Typed {
        id: attribute.id,
        kind: attribute.kind,
    })
}

/// A value of the type. If that is the type of entities, the value is named as an entity is.
pub fn value<S: Selector>(db: &Db<S>, kind: u64, form: &Edn, at: usize) -> Result<Value, NameStop>
    ensures { AnswersAs
        (IsGiven db.now.snapshot.entries (window_of db.now) (S.selects db.now.filter) at
        (value_given (facts db.now.snapshot.entries) (λ v. v) kind (form_of form.now)))
        result }
{
    if kind == TYPE_REF {
        return Ok(Value::Ref(entity(db, form, at)?));
    }
    match plain_value(kind, form)? {
        Some(v) => Ok(v),
        None => Err(NameStop::Refused(bad_component(at))),
    }
}

/// A t, or the t of a transaction's entity.
pub fn t(form: &Edn, at: usize) -> Result<u32, Refusal>
    ensures { result ≡ ok_or (t_in (form_of form.now)) (refusal BadComponent at) }
{
    let Edn::Int(n) = form else {
        return Err(bad_component(at));
    };
    t_of(*n).ok_or(bad_component(at))
}
