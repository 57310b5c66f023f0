//! What names an entity or an attribute in a form.
ghost use Rattle.std.specs.Prelude.{◌≡◌, []};
ghost use Rattle.std.specs.Bool.{then_some};
ghost use Rattle.std.specs.Option.{option_map};
ghost use Rattle.edn_model.specs.Form as edn;
ghost use Rattle.edn_form.specs.View.{form_of, forms_of, members};
ghost use Rattle.tx_model.specs.Asks as asks;
ghost use Rattle.tx_model.specs.Shapes as model;
ghost use Rattle.tx_forms.specs.Parts.{entity_form};
ghost use Rattle.tx_forms.specs.Words.{is_own};

use crate::forms::EntityForm;
use edn_form::{Edn, Items};
use fb_text::Text;

/// The keyword that the form is, if it is one.
pub fn keyword_in(f: &Edn) -> Option<&Text>
    ensures { option_map (λ keyword. edn.keyword keyword.now) result
        ≡ then_some (model.is_keyword (form_of f.now)) (form_of f.now) }
{
    match f {
        Edn::Key(keyword) => Some(keyword),
        _ => None,
    }
}

/// The keyword and the value of a lookup ref: a vector of two whose first member is a keyword.
#[tactic(auto, using(crate::proofs::FormMembers::lookup_of_others))]
pub fn lookup_in(items: &Items) -> Option<(&Text, &Edn)>
    ensures { option_map (λ pair. (pair.0.now, form_of pair.1.now)) result
        ≡ asks.lookup_in (edn.forms (forms_of (members items.now))) }
{
    let [first, value] = items.as_slice() else {
        return None;
    };
    match first {
        Edn::Key(keyword) => Some((keyword, value)),
        _ => None,
    }
}

/// The entity that the form names, in a place where a tempid may be.
pub fn entity_in(f: &Edn) -> Option<EntityForm<'_>>
    ensures { option_map entity_form result
        ≡ then_some (model.names_an_entity (form_of f.now)) (form_of f.now) }
{
    match f {
        Edn::Int(number) => Some(EntityForm::Number(*number)),
        Edn::Key(keyword) => Some(EntityForm::Ident(keyword)),
        Edn::Str(tempid) => Some(EntityForm::Tempid(tempid)),
        Edn::Vector(items) => {
            let (attribute, value) = lookup_in(items)?;
            Some(EntityForm::Lookup(attribute, value))
        }
        _ => None,
    }
}

/// The entity that the form names, and that the database may have already: no tempid.
pub fn old_entity_in(f: &Edn) -> Option<EntityForm<'_>>
    ensures { option_map entity_form result
        ≡ then_some (model.names_an_old_entity (form_of f.now)) (form_of f.now) }
{
    match f {
        Edn::Str(_) => None,
        _ => entity_in(f),
    }
}

/// Whether the key of a map is `:db/id`.
pub fn is_id(key: &Edn) -> bool
    ensures { result ≡ is_own (asks.key_in (form_of key.now)) }
{
    match key {
        Edn::Key(keyword) => keyword.as_str() == "db/id",
        _ => false,
    }
}
