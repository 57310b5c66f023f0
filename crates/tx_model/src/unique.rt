//! Examples, by computation: unique attributes, tempids and lookup refs.
ghost use Rattle.std.specs.Prelude.{◌≡◌, ◌++◌, [], ◌∷◌, codes, negsuc};
ghost use Rattle.edn_model.specs.Form.{integer};
ghost use Rattle.fb_numbers.specs.Numbers.{user_entity};
ghost use Rattle.tx_refusals.specs.declared.reasons.Reason.TheVariants.{NotAnAttribute, WrongType, NotUniqueLookup, NotAnEntity, NestedWithoutId, TempidConflict, TempidNotAnEntity, UniqueConflict};
ghost use Rattle.tx_model.specs.Samples.{keyword, string, number, map_of, tempid, this_transaction, lookup_ref, add, id, doc, ident, value_type, cardinality, type_string, decision, refusal_at, decided, accepted_at, changed, addition, retraction};
ghost use Rattle.tx_model.specs.SampleHistories.{new_database, describe, longest_keyword, too_long_keyword};
ghost use Rattle.tx_model.specs.SamplePeople.{email, install_email, person, nameless_person, with_email_installed, one_person, two_people, move_address, one_address_for_two, after_a_refusal, two_ids, both_ids_for};

/// A text of a new entity, bytes that are not UTF-8, and nothing at all.
pub fn texts()
    ensures text { decided new_database (add (tempid (codes "x")) doc (string (codes "hi")) ∷ [])
        ≡ accepted_at 1 ((codes "x", user_entity 1) ∷ []) }
    ensures no_utf_8 { decision new_database (add (tempid (codes "x")) doc (string (255 ∷ [])) ∷ [])
        ≡ refusal_at WrongType 0 }
    ensures nothing { decided new_database [] ≡ accepted_at 1 [] }
    ensures own { decided new_database (add this_transaction doc (string (codes "hi")) ∷ [])
        ≡ accepted_at 1 [] }
{}

/// A unique attribute: it is installed with the next transaction, names entities, and admits one of
/// two.
pub fn unique_emails()
    ensures not_yet { decision new_database
        (install_email ++ add (tempid (codes "p")) email (string (codes "a@x")) ∷ [])
        ≡ refusal_at NotAnAttribute 1 }
    ensures installed { decided new_database install_email ≡ accepted_at 1 [] }
    ensures first { decided with_email_installed (person (codes "p") (codes "a@x") ∷ [])
        ≡ accepted_at 2 ((codes "p", user_entity 2) ∷ []) }
    ensures again { decided one_person (person (codes "p") (codes "a@x") ∷ [])
        ≡ accepted_at 3 ((codes "p", user_entity 2) ∷ []) }
    ensures nothing_new { changed one_person (person (codes "p") (codes "a@x") ∷ []) ≡ [] }
    ensures two { decision with_email_installed one_address_for_two ≡ refusal_at UniqueConflict 0 }
    ensures no_number_is_used { decided after_a_refusal
        (add (tempid (codes "r")) doc (string (codes "d")) ∷ [])
        ≡ accepted_at 2 ((codes "r", user_entity 2) ∷ []) }
{}

/// A unique value moves from one entity to another in one transaction.
pub fn moved_values()
    ensures moved { decided two_people move_address ≡ accepted_at 3 [] }
    ensures three { changed two_people move_address
        ≡ retraction (user_entity 2) (codes "b@x")
        ∷ addition (user_entity 3) (codes "b@x")
        ∷ retraction (user_entity 3) (codes "c@x")
        ∷ [] }
{}

/// Maps without a name get the next numbers in their order.
pub fn nameless_maps()
    ensures three { changed with_email_installed
        (nameless_person (codes "a@x")
        ∷ nameless_person (codes "b@x")
        ∷ nameless_person (codes "c@x")
        ∷ [])
        ≡ addition (user_entity 2) (codes "a@x")
        ∷ addition (user_entity 3) (codes "b@x")
        ∷ addition (user_entity 4) (codes "c@x")
        ∷ [] }
    ensures none_told { decided with_email_installed (nameless_person (codes "a@x") ∷ [])
        ≡ accepted_at 2 [] }
{}

/// Tempids and lookup refs, after an entity has an address.
pub fn lookup_refs()
    ensures two_holders { decision one_person
        (add (tempid (codes "p")) email (string (codes "a@x"))
        ∷ add (tempid (codes "p")) ident (keyword email)
        ∷ [])
        ≡ refusal_at TempidConflict 0 }
    ensures not_added_to { decision one_person
        (add (tempid (codes "x")) value_type (tempid (codes "y")) ∷ [])
        ≡ refusal_at TempidNotAnEntity 0 }
    ensures no_id { decision one_person
        (map_of ((id, tempid (codes "x"))
        ∷ (keyword value_type, map_of ((keyword doc, string (codes "d")) ∷ []))
        ∷ [])
        ∷ [])
        ≡ refusal_at NestedWithoutId 0 }
    ensures not_unique { decision one_person (describe (lookup_ref doc (string (codes "hi"))))
        ≡ refusal_at NotUniqueLookup 0 }
    ensures found { decided one_person
        (add (lookup_ref email (string (codes "a@x"))) doc (string (codes "d")) ∷ [])
        ≡ accepted_at 3 [] }
    ensures not_found { decision one_person
        (add (lookup_ref email (string (codes "b@x"))) doc (string (codes "d")) ∷ [])
        ≡ refusal_at NotAnEntity 0 }
{}

/// The entity of the transaction is no tempid: with values of two holders it is refused where these
/// still have them.
pub fn the_transaction_is_no_tempid()
    ensures two_holders { decision one_person
        (add this_transaction email (string (codes "a@x"))
        ∷ add this_transaction ident (keyword email)
        ∷ [])
        ≡ refusal_at UniqueConflict 0 }
    ensures one_holder { decision one_person
        (add this_transaction email (string (codes "a@x")) ∷ [])
        ≡ refusal_at UniqueConflict 0 }
    ensures freed { decided two_ids (both_ids_for this_transaction) ≡ accepted_at 3 [] }
    ensures freed_for_a_tempid { decision two_ids (both_ids_for (tempid (codes "x")))
        ≡ refusal_at TempidConflict 2 }
{}

/// A lookup ref of an attribute whose values are entities takes what such a value may be, but for a
/// tempid: what is wrong with it is that its attribute is not unique, or else something in its
/// value.
pub fn lookup_refs_by_an_entity()
    ensures by_ident { decision one_person (describe (lookup_ref value_type type_string))
        ≡ refusal_at NotUniqueLookup 0 }
    ensures by_number { decision one_person (describe (lookup_ref value_type (number 99)))
        ≡ refusal_at NotUniqueLookup 0 }
    ensures by_no_number { decision one_person
        (describe (lookup_ref value_type (integer (negsuc 0))))
        ≡ refusal_at WrongType 0 }
    ensures by_tempid { decision one_person (describe (lookup_ref value_type (tempid (codes "x"))))
        ≡ refusal_at WrongType 0 }
    ensures by_lookup_ref { decision one_person
        (describe (lookup_ref value_type (lookup_ref email (string (codes "a@x")))))
        ≡ refusal_at NotUniqueLookup 0 }
    ensures by_other_lookup_ref { decision one_person
        (describe (lookup_ref value_type (lookup_ref doc (string (codes "x")))))
        ≡ refusal_at NotUniqueLookup 0 }
    ensures by_wrong_lookup_ref { decision one_person
        (describe (lookup_ref value_type (lookup_ref email (number 5))))
        ≡ refusal_at WrongType 0 }
    ensures by_unknown_lookup_ref { decision one_person
        (describe (lookup_ref value_type (lookup_ref (codes "no/attr") (number 1))))
        ≡ refusal_at NotAnAttribute 0 }
    ensures deeper { decision one_person
        (describe (lookup_ref value_type
        (lookup_ref cardinality (lookup_ref (codes "no/attr") (number 1)))))
        ≡ refusal_at NotAnAttribute 0 }
    ensures under_no_entity { decision one_person
        (describe (lookup_ref doc (lookup_ref (codes "no/attr") (number 1))))
        ≡ refusal_at WrongType 0 }
    ensures as_a_value { decision one_person
        (add (tempid (codes "x")) value_type (lookup_ref value_type type_string) ∷ [])
        ≡ refusal_at NotUniqueLookup 0 }
{}

/// The value of a lookup ref has the limits of a value, also where it is a keyword.
pub fn long_values_of_lookup_refs()
    ensures longest { decision new_database (describe (lookup_ref ident longest_keyword))
        ≡ refusal_at NotAnEntity 0 }
    ensures too_long { decision new_database (describe (lookup_ref ident too_long_keyword))
        ≡ refusal_at WrongType 0 }
    ensures too_long_for_an_entity { decision new_database (describe too_long_keyword)
        ≡ refusal_at NotAnEntity 0 }
{}
