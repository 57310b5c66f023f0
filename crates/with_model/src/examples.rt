//! Examples, by computation.
ghost use Rattle.std.specs.Prelude.{◌≡◌, [], ◌∷◌, codes, true, false};
ghost use Rattle.fb_numbers.specs.Numbers.{user_entity};
ghost use Rattle.view_model.specs.Window.{whole, as_of, since, with_history};
ghost use Rattle.with_model.specs.Chain.{is_unfiltered};
ghost use Rattle.with_model.specs.Samples.{reports_in, text_in, basis_in, is_refused, tried, new_text, other_text, second_text, no_entity_text};

/// Another text is tried: it has a report, and the history that it comes to has it, while the history
/// has its own.
pub fn tried_texts()
    ensures told { reports_in (tried (other_text ∷ [])) ≡ (2, []) ∷ [] }
    ensures tried { text_in (tried (other_text ∷ [])) ≡ codes "ho" }
    ensures none { text_in (tried []) ≡ codes "hi" }
    ensures two { reports_in (tried (new_text ∷ second_text ∷ []))
        ≡ (2, (codes "y", user_entity 2) ∷ []) ∷ (3, []) ∷ [] }
{}

/// The first transaction that is refused ends a chain, at the basis that the others had come to.
pub fn refused_chains()
    ensures second { basis_in (tried (new_text ∷ no_entity_text ∷ [])) ≡ 2 }
    ensures is_refused { is_refused (tried (new_text ∷ no_entity_text ∷ [])) ≡ true }
    ensures first { basis_in (tried (no_entity_text ∷ other_text ∷ [])) ≡ 1 }
    ensures alone { is_refused (tried (second_text ∷ [])) ≡ true }
{}

/// Which values transactions may be tried on.
pub fn unfiltered_values()
    ensures whole { is_unfiltered whole 0 ≡ true }
    ensures as_of { is_unfiltered (as_of 2 whole) 0 ≡ false }
    ensures since { is_unfiltered (since 1 whole) 0 ≡ false }
    ensures since_the_start { is_unfiltered (since 0 whole) 0 ≡ true }
    ensures history { is_unfiltered (with_history whole) 0 ≡ false }
    ensures filtered { is_unfiltered whole 1 ≡ false }
{}
