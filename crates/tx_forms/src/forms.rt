//! The forms that a transaction may be made of.
ghost use Rattle.std.specs.Prelude.{◌≡◌};
ghost use Rattle.std.specs.Bool.{then_some};
ghost use Rattle.std.specs.Option.{option_map};
ghost use Rattle.edn_form.specs.View.{form_of};
ghost use Rattle.tx_model.specs.Shapes as model;
ghost use Rattle.tx_forms.specs.Parts.{parts_in, parts_of};

use crate::lists::list_form_in;
use crate::maps::has_map_shape;
use edn_form::{Edn, Pairs};
use fb_text::Text;

/// A form of a transaction.
#[derive(Clone, Copy)]
pub enum TxForm<'a> {
    List(ListForm<'a>),
    /// A map that is not empty. Each key is a keyword, and the value of `:db/id` names an entity; the same holds of the maps
    /// that are values or members of values.
    Map(&'a Pairs),
}

/// A vector or a list that begins with a verb. Only in `Add` may a tempid name the entity.
#[derive(Clone, Copy)]
pub enum ListForm<'a> {
    /// `[:db/add e a v]`.
    Add {
        entity: EntityForm<'a>,
        attribute: &'a Text,
        value: &'a Edn,
    },
    /// `[:db/retract e a v]`.
    Retract {
        entity: EntityForm<'a>,
        attribute: &'a Text,
        value: &'a Edn,
    },
    /// `[:db/retract e a]`: every value.
    RetractAll {
        entity: EntityForm<'a>,
        attribute: &'a Text,
    },
    /// `[:db/cas e a old new]`, by its older name `:db.fn/cas`.
    Cas {
        entity: EntityForm<'a>,
        attribute: &'a Text,
        old: &'a Edn,
        new: &'a Edn,
    },
    /// `[:db/retractEntity e]`, by its older name `:db.fn/retractEntity`.
    RetractEntity {
        entity: EntityForm<'a>,
    },
}

/// What a form names an entity by.
#[derive(Clone, Copy)]
pub enum EntityForm<'a> {
    Number(i64),
    /// A keyword, without its colon.
    Ident(&'a Text),
    Tempid(&'a Text),
    /// The keyword of an attribute, and a value.
    Lookup(&'a Text, &'a Edn),
}

/// The form, if it has a shape.
#[tactic(auto, using(crate::proofs::FormMembers::items_forms))]
pub fn form_in(f: &Edn) -> Option<TxForm<'_>>
    ensures { option_map parts_of result
        ≡ then_some (model.has_shape (form_of f.now)) (parts_in (form_of f.now)) }
{
    match f {
        Edn::Vector(items) => Some(TxForm::List(list_form_in(items.as_slice())?)),
        Edn::List(items) => Some(TxForm::List(list_form_in(items.as_slice())?)),
        Edn::Map(pairs) => has_map_shape(pairs).then_some(TxForm::Map(pairs)),
        _ => None,
    }
}
