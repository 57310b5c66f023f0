//! Examples, by computation: numbers, and comparing before setting.
ghost use Rattle.std.specs.Prelude.{◌≡◌, [], ◌∷◌, codes};
ghost use Rattle.edn_model.specs.Form.{nil, integer};
ghost use Rattle.fb_numbers.specs.Numbers.{user_entity, least_long, greatest_long};
ghost use Rattle.tx_refusals.specs.declared.reasons.Reason.TheVariants.{WrongType, CasFailed};
ghost use Rattle.tx_model.specs.Samples.{number, tempid, user, add, cas, decision, refusal_at, decided, accepted_at, changed};
ghost use Rattle.tx_model.specs.SampleHistories.{past_greatest_long, before_least_long};
ghost use Rattle.tx_model.specs.SamplePeople.{age, with_age_installed, one_without_age, one_aged};

/// Numbers of 64 bits.
pub fn greatest_and_least_numbers()
    ensures both { decided with_age_installed
        (add (tempid (codes "a")) age (integer least_long)
        ∷ add (tempid (codes "b")) age (integer greatest_long)
        ∷ [])
        ≡ accepted_at 2 ((codes "a", user_entity 2) ∷ (codes "b", user_entity 3) ∷ []) }
    ensures past_greatest { decision with_age_installed
        (add (tempid (codes "a")) age past_greatest_long ∷ [])
        ≡ refusal_at WrongType 0 }
    ensures before_least { decision with_age_installed
        (add (tempid (codes "a")) age before_least_long ∷ [])
        ≡ refusal_at WrongType 0 }
{}

/// A value is set where the one before is the expected one; nil expects none.
pub fn compare_and_set()
    ensures none_before { decided one_without_age (cas (user 2) age nil (number 5) ∷ [])
        ≡ accepted_at 3 [] }
    ensures another_before { decision one_aged (cas (user 2) age (number 4) (number 6) ∷ [])
        ≡ refusal_at CasFailed 0 }
    ensures same { decided one_aged (cas (user 2) age (number 5) (number 5) ∷ [])
        ≡ accepted_at 4 [] }
    ensures nothing_changes { changed one_aged (cas (user 2) age (number 5) (number 5) ∷ []) ≡ [] }
{}
