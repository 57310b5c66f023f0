//! What a list form asks, by its first member.
ghost use Rattle.std.specs.Prelude.{◌≡◌};
ghost use Rattle.std.specs.Option.{option_map};
ghost use Rattle.edn_form.specs.View.{form_of};
ghost use Rattle.tx_model.specs.Shapes as model;
ghost use Rattle.tx_forms.specs.Words.{model_verb};

use edn_form::Edn;

/// What a list form asks.
#[derive(Clone, Copy)]
pub enum Verb {
    /// `:db/add`.
    Add,
    /// `:db/retract`, of one value or of all.
    Retract,
    /// `:db/cas`, by its older name `:db.fn/cas`.
    Cas,
    /// `:db/retractEntity`, by its older name `:db.fn/retractEntity`.
    RetractEntity,
}

fn verb_named(keyword: &str) -> Option<Verb>
    ensures { option_map model_verb result ≡ model.verb_of keyword.now }
{
    if keyword == "db/add" {
        Some(Verb::Add)
    } else if keyword == "db/retract" {
        Some(Verb::Retract)
    } else if keyword == "db/cas" || keyword == "db.fn/cas" {
        Some(Verb::Cas)
    } else if keyword == "db/retractEntity" || keyword == "db.fn/retractEntity" {
        Some(Verb::RetractEntity)
    } else {
        None
    }
}

/// What a list form asks whose first member this is.
pub fn verb_in(first: &Edn) -> Option<Verb>
    ensures { option_map model_verb result ≡ model.verb_in (form_of first.now) }
{
    match first {
        Edn::Key(keyword) => verb_named(keyword.as_str()),
        _ => None,
    }
}
