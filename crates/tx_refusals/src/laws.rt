//! Laws of the definitions: each function has an empty body, and its contract is the law.
ghost use Rattle.std.specs.Prelude.{◌≡◌, ◌≤◌};
ghost use Rattle.tx_refusals.specs.declared.reasons.Reason.{Reason};
ghost use Rattle.tx_refusals.specs.Reasons.{keyword_of, number_of};

/// The numbers of reasons are those from 1 to 21.
pub fn numbers_are_one_to_21()
    ensures { (reason : Reason) → (1 ≤ number_of reason) × (number_of reason ≤ 21) }
{}

/// No two reasons have one number, so that of several reasons one is the least.
pub fn numbers_tell_reasons_apart()
    ensures { (reason other : Reason) → number_of reason ≡ number_of other → reason ≡ other }
{}

/// No two reasons have one keyword.
pub fn keywords_tell_reasons_apart()
    ensures { (reason other : Reason) → keyword_of reason ≡ keyword_of other → reason ≡ other }
{}
