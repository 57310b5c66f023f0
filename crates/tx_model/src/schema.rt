//! Examples, by computation: attributes, what may change of them, and further types.
ghost use Rattle.std.specs.Prelude.{◌≡◌, [], ◌∷◌, codes, true};
ghost use Rattle.edn_model.specs.Form.{boolean};
ghost use Rattle.fb_numbers.specs.Numbers.{user_entity};
ghost use Rattle.tx_refusals.specs.declared.reasons.Reason.TheVariants.{ProtectedAttribute, WrongType, NotAnEntity, DatomsConflict, IncompleteAttribute, AttributeFixed, AlterationConflict};
ghost use Rattle.tx_model.specs.Samples.{keyword, string, number, map_of, tempid, user, add, retract, retract_entity, doc, ident, value_type, cardinality, unique, is_component, tx_instant, type_long, cardinality_one, unique_value, decision, refusal_at, decided, accepted_at};
ghost use Rattle.tx_model.specs.SampleHistories.{new_database, home, install_home, with_home_installed};
ghost use Rattle.tx_model.specs.SamplePeople.{age, with_age_installed, two_aged, allow_one_age, allow_many_ages, many_aged, one_with_two_ages, index_ages, rename_age};

/// An attribute by list forms, and what it does not admit.
pub fn attributes()
    ensures by_list_forms { decided new_database
        (add (tempid (codes "a")) ident (keyword age)
        ∷ add (tempid (codes "a")) value_type type_long
        ∷ add (tempid (codes "a")) cardinality cardinality_one
        ∷ [])
        ≡ accepted_at 1 ((codes "a", user_entity 1) ∷ []) }
    ensures two_values { decision with_age_installed
        (add (tempid (codes "b")) age (number 5)
        ∷ add (tempid (codes "b")) age (number 6)
        ∷ [])
        ≡ refusal_at DatomsConflict 0 }
    ensures no_number { decision with_age_installed
        (add (tempid (codes "b")) age (string (codes "x")) ∷ [])
        ≡ refusal_at WrongType 0 }
    ensures no_entity { decision with_age_installed (add (number 99) age (number 1) ∷ [])
        ≡ refusal_at NotAnEntity 0 }
    ensures protected { decision with_age_installed (add (number 99) tx_instant (number 1) ∷ [])
        ≡ refusal_at ProtectedAttribute 0 }
    ensures incomplete { decision with_age_installed
        (add (tempid (codes "z")) ident (keyword (codes "q/z"))
        ∷ add (tempid (codes "z")) value_type type_long
        ∷ [])
        ≡ refusal_at IncompleteAttribute 0 }
    ensures many { decided with_age_installed (allow_many_ages ∷ []) ≡ accepted_at 2 [] }
    ensures text_alone { decided with_age_installed
        (map_of ((keyword doc, string (codes "m")) ∷ []) ∷ [])
        ≡ accepted_at 2 [] }
{}

/// What may change of an attribute, while two entities are of one age.
pub fn alterations()
    ensures unique { decision two_aged (add (keyword age) unique unique_value ∷ [])
        ≡ refusal_at AlterationConflict 0 }
    ensures indexed { decided two_aged index_ages ≡ accepted_at 3 [] }
    ensures renamed { decision two_aged rename_age ≡ refusal_at AttributeFixed 0 }
    ensures whole { decision two_aged (retract (keyword age) cardinality cardinality_one ∷ [])
        ≡ refusal_at IncompleteAttribute 0 }
    ensures retracted { decision two_aged (retract_entity (keyword age) ∷ [])
        ≡ refusal_at IncompleteAttribute 0 }
    ensures component { decision two_aged (add (keyword age) is_component (boolean true) ∷ [])
        ≡ refusal_at AttributeFixed 0 }
{}

/// A cardinality changes and changes back, where the facts admit it.
pub fn cardinality_there_and_back()
    ensures many { decided two_aged (allow_many_ages ∷ []) ≡ accepted_at 3 [] }
    ensures two_values { decided many_aged (add (user 2) age (number 6) ∷ []) ≡ accepted_at 4 [] }
    ensures not_back { decision one_with_two_ages (allow_one_age ∷ [])
        ≡ refusal_at AlterationConflict 0 }
    ensures back { decided one_with_two_ages (retract (user 2) age (number 6) ∷ allow_one_age ∷ [])
        ≡ accepted_at 5 [] }
{}

/// Symbols and uris.
pub fn other_types()
    ensures installed { decided new_database install_home ≡ accepted_at 1 [] }
    ensures uri { decided with_home_installed
        (add (tempid (codes "x")) home (string (codes "http://a")) ∷ [])
        ≡ accepted_at 2 ((codes "x", user_entity 2) ∷ []) }
    ensures no_uri { decision with_home_installed
        (add (tempid (codes "x")) home (string (codes "a b")) ∷ [])
        ≡ refusal_at WrongType 0 }
{}
