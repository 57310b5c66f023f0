//! List forms: a verb, and its arguments.
ghost use Rattle.std.specs.Prelude.{◌≡◌, Some};
ghost use Rattle.std.specs.Bool.{then_some};
ghost use Rattle.std.specs.Option.{option_map};
ghost use Rattle.edn_form.specs.View.{forms_of};
ghost use Rattle.tx_model.specs.Shapes as model;
ghost use Rattle.tx_forms.specs.Parts.{list_form, list_parts_in, list_parts_of};

use crate::forms::ListForm;
use crate::names::{entity_in, keyword_in, old_entity_in};
use crate::verbs::{Verb, verb_in};
use edn_form::Edn;

fn add(arguments: &[Edn]) -> Option<ListForm<'_>>
    ensures { option_map list_parts_of result
        ≡ then_some (model.has_arguments (Some model.add) (forms_of arguments.now))
        (list_form (Some model.add) (forms_of arguments.now)) }
{
    let [e, a, value] = arguments else {
        return None;
    };
    Some(ListForm::Add {
        entity: entity_in(e)?,
        attribute: keyword_in(a)?,
        value,
    })
}

fn retract(arguments: &[Edn]) -> Option<ListForm<'_>>
    ensures { option_map list_parts_of result
        ≡ then_some (model.has_arguments (Some model.retract) (forms_of arguments.now))
        (list_form (Some model.retract) (forms_of arguments.now)) }
{
    match arguments {
        [e, a, value] => Some(ListForm::Retract {
            entity: old_entity_in(e)?,
            attribute: keyword_in(a)?,
            value,
        }),
        [e, a] => Some(ListForm::RetractAll {
            entity: old_entity_in(e)?,
            attribute: keyword_in(a)?,
        }),
        _ => None,
    }
}

fn cas(arguments: &[Edn]) -> Option<ListForm<'_>>
    ensures { option_map list_parts_of result
        ≡ then_some (model.has_arguments (Some model.cas) (forms_of arguments.now))
        (list_form (Some model.cas) (forms_of arguments.now)) }
{
    let [e, a, old, new] = arguments else {
        return None;
    };
    Some(ListForm::Cas {
        entity: old_entity_in(e)?,
        attribute: keyword_in(a)?,
        old,
        new,
    })
}

fn retract_entity(arguments: &[Edn]) -> Option<ListForm<'_>>
    ensures { option_map list_parts_of result
        ≡ then_some (model.has_arguments (Some model.retract_entity) (forms_of arguments.now))
        (list_form (Some model.retract_entity) (forms_of arguments.now)) }
{
    let [e] = arguments else {
        return None;
    };
    Some(ListForm::RetractEntity {
        entity: old_entity_in(e)?,
    })
}

/// The list form with these members, if it has a shape.
pub fn list_form_in(members: &[Edn]) -> Option<ListForm<'_>>
    ensures { option_map list_parts_of result
        ≡ then_some (model.has_list_shape (forms_of members.now))
        (list_parts_in (forms_of members.now)) }
{
    let [first, arguments @ ..] = members else {
        return None;
    };
    match verb_in(first)? {
        Verb::Add => add(arguments),
        Verb::Retract => retract(arguments),
        Verb::Cas => cas(arguments),
        Verb::RetractEntity => retract_entity(arguments),
    }
}
