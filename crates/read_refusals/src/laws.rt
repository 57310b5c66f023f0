//! A law of the definitions: the function has an empty body, and its contract is the law.
ghost use Rattle.std.specs.Prelude.{◌≡◌};
ghost use Rattle.read_refusals.specs.declared.reasons.Reason.{Reason};
ghost use Rattle.read_refusals.specs.Reasons.{keyword_of};

/// No two reasons have one keyword.
pub fn keywords_tell_reasons_apart()
    ensures { (reason other : Reason) → keyword_of reason ≡ keyword_of other → reason ≡ other }
{}
