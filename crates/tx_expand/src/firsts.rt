//! The first form with each fault.
ghost use Rattle.std.specs.Prelude.{◌≡◌};
ghost use Rattle.tx_model.specs.Step.{first_refusal};
ghost use Rattle.tx_expand.specs.Rules.{earlier, earlier_ones, place_if, firsts_of, rules_of};

use crate::faults::Faults;
use tx_refusals::{Reason, Refusal};

/// The first form with each fault, but for an unknown attribute, which ends the walk.
#[derive(Clone, Copy)]
pub struct Firsts {
    pub protected: Option<usize>,
    pub wrong: Option<usize>,
    pub not_unique: Option<usize>,
    pub lacking: Option<usize>,
}

pub const NONE: Firsts = Firsts {
    protected: None,
    wrong: None,
    not_unique: None,
    lacking: None,
};

fn noted(first: Option<usize>, has_fault: bool, place: usize) -> Option<usize>
    ensures { result ≡ earlier first (place_if has_fault place) }
{
    match first {
        Some(earlier) => Some(earlier),
        None => { if has_fault { Some(place) } else { None } }
    }
}

/// With what is wrong with the form at the place, after those before it.
pub fn with_faults(firsts: Firsts, faults: Faults, place: usize) -> Firsts
    ensures { result ≡ earlier_ones firsts (firsts_of faults place) }
{
    Firsts {
        protected: noted(firsts.protected, faults.protected, place),
        wrong: noted(firsts.wrong, faults.wrong, place),
        not_unique: noted(firsts.not_unique, faults.not_unique, place),
        lacking: noted(firsts.lacking, faults.lacking, place),
    }
}

/// The least rule that is broken, with the first form that breaks it.
pub fn least(firsts: Firsts) -> Option<Refusal>
    ensures { result ≡ first_refusal (rules_of firsts) }
{
    if let Some(at) = firsts.protected {
        let reason = Reason::ProtectedAttribute;
        return Some(Refusal { reason, at });
    }
    if let Some(at) = firsts.wrong {
        let reason = Reason::WrongType;
        return Some(Refusal { reason, at });
    }
    let at = firsts.not_unique?;
    let reason = Reason::NotUniqueLookup;
    Some(Refusal { reason, at })
}
