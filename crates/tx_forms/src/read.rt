//! The forms of a transaction.
ghost use Rattle.std.specs.Prelude.{◌≡◌, List, Some, None, IfOk, IfErr};
ghost use Rattle.std.specs.Option.{option_map};
ghost use Rattle.edn_model.specs.Form.{Form};
ghost use Rattle.edn_form.specs.View.{form_of, forms_of};
ghost use Rattle.tx_model.specs.Shapes as model;
ghost use Rattle.tx_model.specs.Step.{first_without_shape};
ghost use Rattle.tx_refusals.specs.declared.reasons.Reason.TheVariants.{NotAForm};
ghost use Rattle.tx_forms.specs.declared.read.TxStop.TheVariants.{Refused};
ghost use Rattle.tx_forms.specs.Parts.{AreParsed};
ghost use Rattle.tx_forms.specs.Shaped.{place_without_shape};
ghost use Rattle.tx_forms.specs.Stops.{IfRefused};

use crate::forms::{TxForm, form_in};
use edn_form::Edn;
use fb_memory::Memory;
use std::alloc::{AllocError, AllocFailed, Global};
use tx_refusals::{Reason, Refusal};

/// Why a transaction gave no entry.
#[derive(Drop)]
pub enum TxStop {
    Refused(Refusal),
    /// Out of memory. Nothing was changed.
    Memory,
}

impl From<Memory> for TxStop {
    ghost use Rattle.std.specs.Prelude.{◌≡◌};
    ghost use Rattle.tx_forms.specs.declared.read.TxStop.TheVariants.{Memory};

    ghost from_gives = { λ _ stop. stop ≡ Memory };

    fn from(_: Memory) -> TxStop {
        TxStop::Memory
    }
}

impl From<AllocError> for TxStop {
    ghost use Rattle.std.specs.Prelude.{◌≡◌};
    ghost use Rattle.tx_forms.specs.declared.read.TxStop.TheVariants.{Memory};

    ghost from_gives = { λ _ stop. stop ≡ Memory };

    fn from(_: AllocError) -> TxStop {
        TxStop::Memory
    }
}

impl<T: Drop> From<AllocFailed<T>> for TxStop {
    ghost use Rattle.std.specs.Prelude.{◌≡◌};
    ghost use Rattle.tx_forms.specs.declared.read.TxStop.TheVariants.{Memory};

    ghost from_gives = { λ _ stop. stop ≡ Memory };

    fn from(_: AllocFailed<T>) -> TxStop {
        TxStop::Memory
    }
}

/// The members of a vector or a list.
#[tactic(auto, using(crate::proofs::FormMembers::items_forms))]
fn members_in(f: &Edn) -> Option<&[Edn]>
    ensures { option_map (λ fs. forms_of fs.now) result ≡ model.forms_of (form_of f.now) }
{
    match f {
        Edn::Vector(items) => Some(items.as_slice()),
        Edn::List(items) => Some(items.as_slice()),
        _ => None,
    }
}

fn not_a_form(at: usize) -> TxStop
    ensures { result ≡ Refused (record { reason = NotAForm; at = at }) }
{
    TxStop::Refused(Refusal {
        reason: Reason::NotAForm,
        at,
    })
}

/// Each form by its parts. The first one without a shape is refused.
fn parse<'a>(alloc: Global, forms: &'a [Edn]) -> Result<Vec<TxForm<'a>>, TxStop>
    ensures parsed { IfOk result (λ parsed. AreParsed parsed.items (forms_of forms.now)) }
    ensures shaped { IfOk result (λ _. first_without_shape (forms_of forms.now) ≡ None) }
    ensures refused { IfErr result (λ stop. IfRefused stop (λ refusal.
        (refusal.reason ≡ NotAForm)
        × (first_without_shape (forms_of forms.now) ≡ Some refusal.at))) }
{
    let mut parsed = Vec::with_capacity(alloc, forms.len())?;
    for f in forms {
        let Some(form) = form_in(f) else {
            return Err(not_a_form(parsed.len()));
        };
        parsed.push(form)?;
    }
    Ok(parsed)
}

/// Parses the forms that a transaction is made of. The first one without a shape is refused at its place, and what is
/// neither a vector nor a list at place 0.
pub fn read_forms<'a>(alloc: Global, asked: &'a Edn) -> Result<Vec<TxForm<'a>>, TxStop>
    ensures parsed { IfOk result (λ parsed. (forms : List Form)
        × (model.forms_of (form_of asked.now) ≡ Some forms)
        × (first_without_shape forms ≡ None)
        × AreParsed parsed.items forms) }
    ensures refused { IfErr result (λ stop. IfRefused stop (λ refusal.
        (refusal.reason ≡ NotAForm)
        × (place_without_shape (form_of asked.now) ≡ Some refusal.at))) }
{
    let Some(forms) = members_in(asked) else {
        return Err(not_a_form(0));
    };
    parse(alloc, forms)
}
