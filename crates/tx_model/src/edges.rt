//! Examples, by computation: beside what breaks a rule what just does not, and which of several
//! faults is reported.
ghost use Rattle.std.specs.Prelude.{◌≡◌, ◌++◌, [], ◌∷◌, codes, false};
ghost use Rattle.edn_model.specs.Form.{nil, boolean, symbol};
ghost use Rattle.fb_numbers.specs.Numbers.{user_entity};
ghost use Rattle.tx_refusals.specs.declared.reasons.Reason.TheVariants.{NotAForm, NotAnAttribute, ProtectedAttribute, WrongType, NotAnEntity, NestedWithoutId, TempidNotAnEntity, CasMany, AttributeFixed, Full};
ghost use Rattle.tx_model.specs.Samples.{keyword, string, number, vector, map_of, tempid, this_transaction, user, recorded_transaction, add, cas, doc, ident, value_type, index, tx_instant, type_string, type_long, decision, refusal_at, decided, accepted_at};
ghost use Rattle.tx_model.specs.SampleHistories.{new_database, after_an_empty_transaction, order_lines, line_sku, note_line, line, named_line, with_orders_installed, symbol_attribute, with_symbol_installed, nearly_late, last_user_entity, last_user};
ghost use Rattle.tx_model.specs.SamplePeople.{person, one_person, age, install_age, with_age_installed, two_aged, many_aged, index_ages, with_ages_indexed, rename_age};

/// Names: an attribute that was installed before, a value of the type, an entity that is issued.
pub fn names_that_are_known()
    ensures installed_before { decided with_age_installed
        (add (tempid (codes "x")) age (number 1) ∷ [])
        ≡ accepted_at 2 ((codes "x", user_entity 2) ∷ []) }
    ensures installed_at_once { decision new_database
        (install_age ++ add (tempid (codes "x")) age (number 1) ∷ [])
        ≡ refusal_at NotAnAttribute 1 }
    ensures instant { decision new_database (add this_transaction tx_instant (number 0) ∷ [])
        ≡ refusal_at ProtectedAttribute 0 }
    ensures other_of_own { decided new_database
        (add this_transaction doc (string (codes "why")) ∷ [])
        ≡ accepted_at 1 [] }
    ensures cas_from_nil { decided with_age_installed (cas (user 1) age nil (number 1) ∷ [])
        ≡ accepted_at 2 [] }
    ensures cas_to_nil { decision with_age_installed (cas (user 1) age nil nil ∷ [])
        ≡ refusal_at WrongType 0 }
    ensures by_ident { decided new_database
        (add (tempid (codes "x")) ident (keyword (codes "p/x")) ∷ [])
        ≡ accepted_at 1 ((codes "x", user_entity 1) ∷ []) }
    ensures own_transaction { decided after_an_empty_transaction
        (add (recorded_transaction 1) doc (string (codes "late")) ∷ [])
        ≡ accepted_at 2 [] }
    ensures next_transaction { decision after_an_empty_transaction
        (add (recorded_transaction 2) doc (string (codes "early")) ∷ [])
        ≡ refusal_at NotAnEntity 0 }
{}

/// What a nested map needs, and what a tempid may be.
pub fn tempids_that_are_known()
    ensures component { decided with_orders_installed
        (map_of ((keyword order_lines, vector (line (codes "A") ∷ [])) ∷ []) ∷ [])
        ≡ accepted_at 2 [] }
    ensures no_component { decision with_orders_installed
        (map_of ((keyword note_line, line (codes "A")) ∷ []) ∷ [])
        ≡ refusal_at NestedWithoutId 0 }
    ensures with_id { decided with_orders_installed
        (map_of ((keyword note_line, named_line (codes "l") (codes "A")) ∷ []) ∷ [])
        ≡ accepted_at 2 ((codes "l", user_entity 5) ∷ []) }
    ensures one_holder_twice { decided one_person
        (person (codes "q") (codes "a@x") ∷ person (codes "q") (codes "a@x") ∷ [])
        ≡ accepted_at 3 ((codes "q", user_entity 2) ∷ []) }
    ensures used_and_added_to { decided with_orders_installed
        (add (tempid (codes "n")) note_line (tempid (codes "l"))
        ∷ add (tempid (codes "l")) line_sku (string (codes "A"))
        ∷ [])
        ≡ accepted_at 2 ((codes "l", user_entity 5) ∷ (codes "n", user_entity 4) ∷ []) }
    ensures used_alone { decision with_orders_installed
        (add (tempid (codes "n")) note_line (tempid (codes "l")) ∷ [])
        ≡ refusal_at TempidNotAnEntity 0 }
{}

/// A cas of one value, values beside another, what may be said of the database's own entities.
pub fn changes_that_are_allowed()
    ensures cas_of_one { decided two_aged (cas (user 2) age (number 5) (number 6) ∷ [])
        ≡ accepted_at 3 [] }
    ensures cas_of_many { decision many_aged (cas (user 2) age (number 5) (number 6) ∷ [])
        ≡ refusal_at CasMany 0 }
    ensures same_twice { decided two_aged
        (add (user 2) age (number 6) ∷ add (user 2) age (number 6) ∷ [])
        ≡ accepted_at 3 [] }
    ensures two_of_many { decided many_aged
        (add (user 2) age (number 6) ∷ add (user 2) age (number 7) ∷ [])
        ≡ accepted_at 4 [] }
    ensures text_of_built_in { decided new_database
        (add (keyword doc) doc (string (codes "a text")) ∷ [])
        ≡ accepted_at 1 [] }
    ensures same_name { decided with_age_installed (add (keyword age) ident (keyword age) ∷ [])
        ≡ accepted_at 2 [] }
    ensures same_type { decided with_age_installed (add (keyword age) value_type type_long ∷ [])
        ≡ accepted_at 2 [] }
    ensures other_type { decision with_age_installed
        (add (keyword age) value_type type_string ∷ [])
        ≡ refusal_at AttributeFixed 0 }
{}

/// The last user entity, and the last instant.
pub fn room_that_is_left()
    ensures no_user { decision last_user (add (tempid (codes "x")) doc (string (codes "hi")) ∷ [])
        ≡ refusal_at Full 0 }
    ensures no_new_user { decided last_user
        (add (number last_user_entity) doc (string (codes "hi")) ∷ [])
        ≡ accepted_at 1 [] }
    ensures last_instant { decided nearly_late [] ≡ accepted_at 2 [] }
{}

/// The index of an attribute there and back, and what is refused then as before.
pub fn index_there_and_back()
    ensures there { decided two_aged index_ages ≡ accepted_at 3 [] }
    ensures back { decided with_ages_indexed (add (keyword age) index (boolean false) ∷ [])
        ≡ accepted_at 4 [] }
    ensures renamed { decision with_ages_indexed rename_age ≡ refusal_at AttributeFixed 0 }
{}

/// Symbols: neither keywords nor strings are.
pub fn symbols()
    ensures symbol { decided with_symbol_installed
        (add (tempid (codes "x")) symbol_attribute (symbol (codes "a.b/c")) ∷ [])
        ≡ accepted_at 2 ((codes "x", user_entity 2) ∷ []) }
    ensures keyword { decision with_symbol_installed
        (add (tempid (codes "x")) symbol_attribute (keyword (codes "a.b/c")) ∷ [])
        ≡ refusal_at WrongType 0 }
    ensures string { decision with_symbol_installed
        (add (tempid (codes "x")) symbol_attribute (string (codes "a.b/c")) ∷ [])
        ≡ refusal_at WrongType 0 }
{}

/// Of two rules the lesser is reported, wherever its form is, and of two forms the first.
pub fn what_is_told_of_several_faults()
    ensures lesser_rule_behind { decision two_aged
        (cas (user 2) age (number 4) (number 6)
        ∷ add (tempid (codes "x")) (codes "no/such") (number 1)
        ∷ [])
        ≡ refusal_at NotAnAttribute 1 }
    ensures lesser_rule_in_one { decision two_aged
        (cas (number 99) age (number 4) (string (codes "six")) ∷ [])
        ≡ refusal_at WrongType 0 }
    ensures first_form { decision two_aged
        (add (user 2) age (number 6)
        ∷ add (number 98) age (number 6)
        ∷ add (number 99) age (number 6)
        ∷ [])
        ≡ refusal_at NotAnEntity 1 }
    ensures no_shape_behind { decision two_aged
        (add (tempid (codes "x")) (codes "no/such") (number 1) ∷ map_of [] ∷ [])
        ≡ refusal_at NotAForm 1 }
{}
