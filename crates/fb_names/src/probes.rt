//! The components of an index, read from left to right: the probe that they give, or the first place that fails. Places are
//! counted from the command's word, which is at 0.
ghost use Rattle.std.specs.Prelude.{◌≡◌, ◌<◌, List, map, slice_get, Some};
ghost use Rattle.edn_form.specs.View.{form_of, forms_of};
ghost use Rattle.fb_values.specs.declared.facts.Entry.{Entry};
ghost use Rattle.fb_model.specs.Facts.{facts};
ghost use Rattle.fb_schema.specs.Described.{SchemaStands};
ghost use Rattle.fb_db.specs.Seen.{window_of};
ghost use Rattle.read_model.specs.Components.{AreComponents, with_next as model_with_next, no_component as model_no_component, parts_of as model_parts_of, kind_behind as model_kind_behind, no_command as model_no_command};
ghost use Rattle.fb_names.specs.Answers.{IsGiven, AnswersAs};
ghost use Rattle.fb_names.specs.Parts.{model_component};

use crate::given::{attribute, entity, t, value};
use crate::stops::NameStop;
use edn_form::Edn;
use fb_db::Db;
use fb_numbers::TYPE_REF;
use fb_preds::Selector;
use fb_schema::{Schema, schemas_tell_of_attributes};
use fb_values::{Order, Probe};
use read_refusals::{Reason, Refusal};

/// How many components an index has.
const COMPONENTS: usize = 4;

/// The place of the first component, after the index's.
const FIRST: usize = 2;

/// What a component is.
#[derive(Clone, Copy)]
pub enum Component {
    Entity,
    Attribute,
    Value,
    T,
}

/// The probe that the forms after the index's name give, or the first place that fails. An index has four components, and
/// a form with more is not a command.
pub fn components<S: Selector>(db: &Db<S>, order: Order, given: &[Edn]) -> Result<Probe, NameStop>
    ensures { AnswersAs
        (AreComponents db.now.snapshot.entries (window_of db.now) (S.selects db.now.filter) order
        (forms_of given.now))
        result }
{
    if given.len() > COMPONENTS {
        return Err(NameStop::Refused(no_command()));
    }
    let mut probe = no_component(order);
    for (place, form) in given.iter().enumerate() {
        let part = part_at(order, place);
        probe = with_next(db, probe, part, form, place + FIRST)?;
    }
    Ok(probe)
}

fn no_command() -> Refusal
    ensures { result ≡ model_no_command }
{
    Refusal {
        reason: Reason::NotACommand,
        at: 0,
    }
}

/// What is at a place of the components, counted from 0.
fn part_at(order: Order, place: usize) -> Component
    requires { place < 4 }
    ensures { slice_get (model_parts_of order) place ≡ Some (model_component result) }
{
    let parts = parts_of(order);
    parts[place]
}

fn parts_of(order: Order) -> [Component; 4]
    ensures { map model_component result ≡ model_parts_of order }
{
    match order {
        Order::Eavt => [
            Component::Entity,
            Component::Attribute,
            Component::Value,
            Component::T,
        ],
        Order::Aevt => [
            Component::Attribute,
            Component::Entity,
            Component::Value,
            Component::T,
        ],
        Order::Avet => [
            Component::Attribute,
            Component::Value,
            Component::Entity,
            Component::T,
        ],
        Order::Vaet => [
            Component::Value,
            Component::Attribute,
            Component::Entity,
            Component::T,
        ],
    }
}

fn no_component(order: Order) -> Probe
    ensures { result ≡ model_no_component order }
{
    Probe {
        order,
        e: None,
        a: None,
        v: None,
        t: None,
    }
}

/// The probe with one component more.
fn with_next<S: Selector>(
    db: &Db<S>,
    probe: Probe,
    part: Component,
    form: &Edn,
    at: usize,
) -> Result<Probe, NameStop>
    ensures { AnswersAs
        (IsGiven db.now.snapshot.entries (window_of db.now) (S.selects db.now.filter) at
        (model_with_next (facts db.now.snapshot.entries) probe (model_component part) (form_of form.now)))
        result }
{
    match part {
        Component::Entity => {
            let e = entity(db, form, at)?;
            Ok(Probe {
                e: Some(e),
                ..probe
            })
        }
        Component::Attribute => {
            let a = attribute(db.snapshot.schema(), probe.order, form, at)?.id;
            Ok(Probe {
                a: Some(a),
                ..probe
            })
        }
        Component::Value => {
            let kind = kind_behind(db.snapshot.schema(), &probe);
            let v = value(db, kind, form, at)?;
            Ok(Probe {
                v: Some(v),
                ..probe
            })
        }
        Component::T => {
            let t = t(form, at)?;
            Ok(Probe {
                t: Some(t),
                ..probe
            })
        }
    }
}

/// The type of the value that is next: that of the attribute before it. In VAET, where none is, the value is an entity.
fn kind_behind(schema: &Schema, probe: &Probe) -> u64
    ensures { (h : List Entry) → SchemaStands schema.now h
        → result ≡ model_kind_behind (facts h) probe.now }
{
    schemas_tell_of_attributes();
    let Some(a) = probe.a else {
        return TYPE_REF;
    };
    match schema.attribute(a) {
        Some(attribute) => attribute.kind,
        None => TYPE_REF,
    }
}
