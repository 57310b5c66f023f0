//! Examples, by computation: for each rule what breaks it and no lower one, and beside it what just
//! does not.
ghost use Rattle.std.specs.Prelude.{◌≡◌, [], ◌∷◌, codes, true};
ghost use Rattle.edn_model.specs.Form.{nil, boolean};
ghost use Rattle.fb_numbers.specs.Numbers.{user_entity, greatest_t};
ghost use Rattle.tx_refusals.specs.declared.reasons.Reason.TheVariants.{NotAForm, NotAnAttribute, ProtectedAttribute, WrongType, NotUniqueLookup, NotAnEntity, TempidNotAnEntity, CasMany, CasFailed, DatomsConflict, IncompleteAttribute, AttributeFixed, Full};
ghost use Rattle.tx_model.specs.Samples.{keyword, string, number, vector, list_of, map_of, tempid, user, recorded_transaction, lookup_ref, add, retract, retract_all, cas, retract_entity, id, doc, ident, value_type, cardinality, unique, index, type_ref, cardinality_one, unique_value, install, decision, refusal_at, decided, accepted_at};
ghost use Rattle.tx_model.specs.SampleHistories.{new_database, one_text, numbers_attribute, with_numbers_installed, full, nearly_full, too_late};
ghost use Rattle.tx_model.specs.SamplePeople.{age, with_age_installed, two_aged};

/// Forms without a shape.
pub fn shapes()
    ensures no_vector { decision new_database (string (codes "x") ∷ []) ≡ refusal_at NotAForm 0 }
    ensures empty_map { decision new_database
        (map_of ((keyword doc, string (codes "x")) ∷ []) ∷ map_of [] ∷ [])
        ≡ refusal_at NotAForm 1 }
    ensures no_keyword { decision new_database
        (map_of ((string (codes "db/doc"), string (codes "x")) ∷ []) ∷ [])
        ≡ refusal_at NotAForm 0 }
    ensures tempid_retracted { decision new_database
        (retract (tempid (codes "x")) doc (string (codes "y")) ∷ [])
        ≡ refusal_at NotAForm 0 }
    ensures nested { decision new_database
        (map_of ((keyword doc, vector (map_of [] ∷ [])) ∷ []) ∷ [])
        ≡ refusal_at NotAForm 0 }
    ensures nested_deeper { decision new_database
        (map_of ((keyword doc, vector (vector (map_of [] ∷ []) ∷ [])) ∷ []) ∷ [])
        ≡ refusal_at WrongType 0 }
    ensures list_form { decided new_database
        (list_of (keyword (codes "db/add")
        ∷ tempid (codes "x")
        ∷ keyword doc
        ∷ string (codes "hi")
        ∷ [])
        ∷ [])
        ≡ accepted_at 1 ((codes "x", user_entity 1) ∷ []) }
    ensures old_name { decision new_database
        (vector (keyword (codes "db.fn/retractEntity") ∷ user 1 ∷ []) ∷ [])
        ≡ refusal_at NotAnEntity 0 }
{}

/// The rules on names.
pub fn rules_on_names()
    ensures not_an_attribute { decision new_database
        (add (tempid (codes "x")) (codes "no/such") (number 1) ∷ [])
        ≡ refusal_at NotAnAttribute 0 }
    ensures not_an_attribute_in_a_key { decision new_database
        (map_of ((keyword (codes "no/such"), vector []) ∷ []) ∷ [])
        ≡ refusal_at NotAnAttribute 0 }
    ensures reserved { decision new_database
        (add (tempid (codes "x")) ident (keyword (codes "db/y")) ∷ [])
        ≡ refusal_at ProtectedAttribute 0 }
    ensures not_reserved { decided new_database
        (add (tempid (codes "x")) ident (keyword (codes "dbx/y")) ∷ [])
        ≡ accepted_at 1 ((codes "x", user_entity 1) ∷ []) }
    ensures wrong_type { decision new_database
        (add (tempid (codes "x")) doc (keyword (codes "hi")) ∷ [])
        ≡ refusal_at WrongType 0 }
    ensures wrong_type_nil { decision with_age_installed (cas (user 1) age (number 1) nil ∷ [])
        ≡ refusal_at WrongType 0 }
    ensures not_unique_value { decision new_database
        (add (tempid (codes "x")) value_type (lookup_ref doc (string (codes "hi"))) ∷ [])
        ≡ refusal_at NotUniqueLookup 0 }
    ensures unknown_value { decision new_database
        (add (tempid (codes "x")) value_type
        (lookup_ref (codes "no/such") (string (codes "hi")))
        ∷ [])
        ≡ refusal_at NotAnAttribute 0 }
    ensures not_issued { decision new_database (add (user 1) doc (string (codes "hi")) ∷ [])
        ≡ refusal_at NotAnEntity 0 }
    ensures issued { decided one_text (add (user 1) doc (string (codes "ho")) ∷ [])
        ≡ accepted_at 2 [] }
    ensures kept_back { decision new_database (add (number 9) doc (string (codes "hi")) ∷ [])
        ≡ refusal_at NotAnEntity 0 }
    ensures map_of_id_alone { decision new_database (map_of ((id, tempid (codes "x")) ∷ []) ∷ [])
        ≡ refusal_at TempidNotAnEntity 0 }
    ensures map_of_id_beside { decided new_database
        (map_of ((id, tempid (codes "x")) ∷ [])
        ∷ add (tempid (codes "x")) doc (string (codes "hi"))
        ∷ [])
        ≡ accepted_at 1 ((codes "x", user_entity 1) ∷ []) }
{}

/// The rules on changes.
pub fn rules_on_changes()
    ensures cas_many { decision with_numbers_installed
        (cas (user 1) numbers_attribute nil (number 1) ∷ [])
        ≡ refusal_at CasMany 0 }
    ensures cas_failed { decision with_age_installed (cas (user 1) age (number 1) (number 2) ∷ [])
        ≡ refusal_at CasFailed 0 }
    ensures added_and_retracted { decision two_aged
        (add (user 2) age (number 5) ∷ retract (user 2) age (number 5) ∷ [])
        ≡ refusal_at DatomsConflict 0 }
    ensures added_and_another_retracted { decided two_aged
        (add (user 2) age (number 6) ∷ retract (user 2) age (number 5) ∷ [])
        ≡ accepted_at 3 [] }
    ensures all_retracted { decision two_aged
        (add (user 2) age (number 5) ∷ retract_all (user 2) age ∷ [])
        ≡ refusal_at DatomsConflict 0 }
    ensures half_an_attribute { decision two_aged (add (user 2) cardinality cardinality_one ∷ [])
        ≡ refusal_at IncompleteAttribute 0 }
    ensures unique_ref { decision new_database
        (install (codes "x/r") type_ref cardinality_one ((keyword unique, unique_value) ∷ [])
        ∷ [])
        ≡ refusal_at IncompleteAttribute 0 }
    ensures built_in { decision new_database (add (keyword doc) index (boolean true) ∷ [])
        ≡ refusal_at IncompleteAttribute 0 }
    ensures instant_retracted { decision two_aged (retract_entity (recorded_transaction 2) ∷ [])
        ≡ refusal_at AttributeFixed 0 }
    ensures full { decision full [] ≡ refusal_at Full 0 }
    ensures too_late { decision too_late [] ≡ refusal_at Full 0 }
    ensures not_full { decided nearly_full [] ≡ accepted_at greatest_t [] }
    ensures all_of_nothing { decided two_aged (retract_all (user 2) doc ∷ []) ≡ accepted_at 3 [] }
{}
