//! Names, components of indexes and ranges of values, by computation.
ghost use Rattle.std.specs.Prelude.{◌≡◌, [], ◌∷◌, pos, codes, Some, None, Ok, Err};
ghost use Rattle.edn_model.specs.Form.{nil, instant, keyword, string};
ghost use Rattle.fb_values.specs.declared.facts.Value.TheVariants.{Str, Long, Ref};
ghost use Rattle.fb_values.specs.declared.indexes.Order.TheVariants.{Eavt, Aevt, Avet, Vaet};
ghost use Rattle.fb_numbers.specs.Numbers.{transaction_of, user_entity, tx_instant};
ghost use Rattle.fb_model.specs.Facts.{facts};
ghost use Rattle.fb_model.specs.Lawful.{IsLawful};
ghost use Rattle.view_model.specs.Window.{whole, as_of};
ghost use Rattle.view_model.specs.Names.{number as numbered, ident};
ghost use Rattle.view_model.specs.Scan.{between};
ghost use Rattle.view_model.specs.Samples.{ages, emails, entity_probe, attribute_probe, value_probe, age, person, email, ben, by_email};
ghost use Rattle.read_refusals.specs.declared.reasons.Reason.TheVariants.{BadComponent, NotInIndex};
ghost use Rattle.read_model.specs.Names.{id_in};
ghost use Rattle.read_model.specs.Given.{refusal};
ghost use Rattle.read_model.specs.Components.{components, index_range, finds, no_command};
ghost use Rattle.read_model.specs.Samples.{number, lookup, friends, age_word, email_word, friend_word, doc_word, unknown_word, by_email_form, minus_one_form, whole_index, probe_of_three, friend, somebody, the_friend, idents_hidden};

/// Names by the schema of the whole history, and entities by the view.
pub fn names_go_by_the_view()
    ensures a_number { id_in (facts emails) (number 9223372036854775807)
        ≡ Some (numbered 9223372036854775807) }
    ensures too_great { id_in (facts emails) (number 9223372036854775808) ≡ None }
    ensures negative { id_in (facts emails) minus_one_form ≡ None }
    ensures a_tempid { id_in (facts emails) (string (codes "a")) ≡ None }
    ensures by_value { id_in (facts emails) (by_email_form (codes "b@x"))
        ≡ Some (by_email (codes "b@x")) }
    ensures not_unique { id_in (facts ages) (lookup age_word (number 1)) ≡ None }
    ensures of_no_attribute { id_in (facts emails) (lookup unknown_word (number 1)) ≡ None }
    ensures of_another_type { id_in (facts emails) (lookup email_word (number 1)) ≡ None }

    ensures found { finds emails whole [] (by_email (codes "b@x")) ≡ Some ben }
    ensures not_yet { finds emails (as_of 2 whole) [] (by_email (codes "b@x")) ≡ None }
    ensures hidden { finds emails whole idents_hidden (ident (codes "person/email")) ≡ None }
    ensures a_number_is_itself { finds emails whole idents_hidden (numbered 5) ≡ Some 5 }
{}

/// Components in the order of each index.
pub fn components_of_each_index()
    ensures lawful { IsLawful friends }
    ensures none { components ages whole [] Eavt [] ≡ Ok (whole_index Eavt) }
    ensures an_entity { components ages whole [] Eavt (number person ∷ [])
        ≡ Ok (entity_probe Eavt person) }
    ensures an_attribute { components ages whole [] Aevt (keyword (codes "db/txInstant") ∷ [])
        ≡ Ok (attribute_probe Aevt tx_instant) }
    ensures a_value { components emails whole [] Avet (email_word ∷ string (codes "c@x") ∷ [])
        ≡ Ok (value_probe Avet email (Str (codes "c@x"))) }
    ensures all_four { components ages whole [] Eavt
        (number person ∷ age_word ∷ number 1 ∷ number (transaction_of 2) ∷ [])
        ≡ Ok (record
        { order = Eavt; e = Some person; a = Some age; v = Some (Long (pos 1)); t = Some 2 }) }
    ensures by_a_lookup_ref { components emails whole [] Eavt (by_email_form (codes "b@x") ∷ [])
        ≡ Ok (entity_probe Eavt ben) }

    // The value of a reference is named as an entity is.
    ensures a_reference { components friends whole [] Vaet (number the_friend ∷ friend_word ∷ [])
        ≡ Ok
        (record { order = Vaet; e = None; a = Some friend; v = Some (Ref the_friend); t = None }) }
    ensures behind_its_attribute { components friends whole [] Eavt
        (number somebody ∷ friend_word ∷ friend_word ∷ [])
        ≡ Ok (probe_of_three Eavt somebody friend (Ref friend)) }

    // Filters do not touch the attribute's place.
    ensures unfiltered { components emails whole idents_hidden Aevt (email_word ∷ [])
        ≡ Ok (attribute_probe Aevt email) }
{}

/// Components that cannot be read, or that the index does not hold: the first place that fails is
/// reported.
pub fn components_that_are_none()
    ensures negative { components ages whole [] Eavt (minus_one_form ∷ [])
        ≡ Err (refusal BadComponent 2) }
    ensures not_unique { components ages whole [] Eavt (lookup age_word (number 1) ∷ [])
        ≡ Err (refusal BadComponent 2) }
    ensures found_by_none { components emails (as_of 2 whole) [] Eavt
        (by_email_form (codes "b@x") ∷ [])
        ≡ Err (refusal BadComponent 2) }
    ensures hidden { components emails whole idents_hidden Eavt (email_word ∷ [])
        ≡ Err (refusal BadComponent 2) }
    ensures no_attribute { components ages whole [] Eavt (number person ∷ unknown_word ∷ [])
        ≡ Err (refusal BadComponent 3) }
    ensures an_attribute_by_number { components ages whole [] Aevt (number age ∷ [])
        ≡ Err (refusal BadComponent 2) }
    ensures of_another_type { components ages whole [] Aevt
        (age_word ∷ number person ∷ string (codes "1") ∷ [])
        ≡ Err (refusal BadComponent 4) }
    ensures no_reference { components friends whole [] Vaet (string (codes "x") ∷ [])
        ≡ Err (refusal BadComponent 2) }
    ensures no_t { components ages whole [] Eavt
        (number person ∷ age_word ∷ number 1 ∷ instant (pos 2000) ∷ [])
        ≡ Err (refusal BadComponent 5) }

    ensures not_covered { components ages whole [] Avet (age_word ∷ [])
        ≡ Err (refusal NotInIndex 2) }
    ensures a_reference_not_covered { components friends whole [] Avet (friend_word ∷ [])
        ≡ Err (refusal NotInIndex 2) }
    ensures no_ref { components ages whole [] Vaet (number (user_entity 3) ∷ age_word ∷ [])
        ≡ Err (refusal NotInIndex 3) }

    ensures not_held_comes_first { components ages whole [] Avet
        (age_word ∷ string (codes "1") ∷ [])
        ≡ Err (refusal NotInIndex 2) }
    ensures wrong_comes_first { components ages whole [] Vaet (string (codes "x") ∷ age_word ∷ [])
        ≡ Err (refusal BadComponent 2) }
    ensures five { components ages whole [] Eavt
        (number person ∷ age_word ∷ number 1 ∷ number 2 ∷ number 3 ∷ [])
        ≡ Err no_command }
    ensures five_with_a_wrong_one { components ages whole [] Eavt
        (string (codes "x") ∷ age_word ∷ number 1 ∷ number 2 ∷ number 3 ∷ [])
        ≡ Err no_command }
{}

/// Ranges of the values of one attribute.
pub fn ranges_of_values()
    ensures closed { index_range emails whole [] email_word (string (codes "a@x"))
        (string (codes "c@x"))
        ≡ Ok (between email (Some (Str (codes "a@x"))) (Some (Str (codes "c@x")))) }
    ensures open { index_range emails whole [] email_word nil nil ≡ Ok (between email None None) }
    ensures not_covered { index_range emails whole [] doc_word nil nil
        ≡ Err (refusal NotInIndex 1) }
    ensures no_attribute { index_range emails whole [] unknown_word nil nil
        ≡ Err (refusal BadComponent 1) }
    ensures start_of_another_type { index_range emails whole [] email_word (number 1) nil
        ≡ Err (refusal BadComponent 2) }
    ensures end_of_another_type { index_range emails whole [] email_word nil (number 1)
        ≡ Err (refusal BadComponent 3) }
    ensures the_first_is_told { index_range emails whole [] doc_word (number 1) (number 2)
        ≡ Err (refusal NotInIndex 1) }
{}
