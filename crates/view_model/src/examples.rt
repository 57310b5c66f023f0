//! Examples, by computation.
ghost use Rattle.std.specs.Prelude.{◌≡◌, [], ◌∷◌, pos, codes, Some, None};
ghost use Rattle.fb_values.specs.declared.facts.Value.TheVariants.{Str};
ghost use Rattle.fb_values.specs.declared.indexes.Order.TheVariants.{Avet};
ghost use Rattle.fb_numbers.specs.Numbers.{doc};
ghost use Rattle.fb_model.specs.Lawful.{IsLawful};
ghost use Rattle.view_model.specs.Window.{whole, as_of, since, with_history, end_of_number, end_of_instant};
ghost use Rattle.view_model.specs.View.{view};
ghost use Rattle.view_model.specs.Scan.{scan, leading, not_below, between};
ghost use Rattle.view_model.specs.Names.{ident, entity_named};
ghost use Rattle.view_model.specs.View.{facts_seen};
ghost use Rattle.view_model.specs.Samples.{ages, emails, attribute_probe, value_probe, age, person, age_added, age_retracted, email, ann, ben, cleo, has_email, minus_one, hides_attribute, hides_entity, shows_entity, shows_additions, datoms_of, age_seen, by_email};

/// What is seen of an entity whose one value changed twice and went.
pub fn scans_of_ages()
    ensures lawful { IsLawful ages }
    ensures now { age_seen whole ≡ [] }
    ensures as_of_2 { age_seen (as_of 3 whole) ≡ age_added 1 2 ∷ [] }
    ensures since_2 { age_seen (since 3 whole) ≡ [] }

    // What since hides does not come back.
    ensures since_2_as_of_3 { age_seen (as_of 4 (since 3 whole)) ≡ age_added 2 3 ∷ [] }
    ensures since_2_as_of_3_history { age_seen (with_history (as_of 4 (since 3 whole)))
        ≡ age_retracted 1 3 ∷ age_added 2 3 ∷ [] }
    ensures history { age_seen (with_history whole)
        ≡ age_added 1 2 ∷ age_retracted 1 3 ∷ age_added 2 3 ∷ age_retracted 2 4 ∷ [] }
{}

/// A range of a unique attribute, in the order of its values.
pub fn scans_of_emails()
    ensures lawful { IsLawful emails }
    ensures range { scan emails whole [] Avet
        (between email (Some (Str (codes "a@x"))) (Some (Str (codes "c@x"))))
        ≡ has_email ann (codes "a@x") ∷ has_email ben (codes "b@x") ∷ [] }
    ensures from { scan emails whole [] Avet
        (not_below (value_probe Avet email (Str (codes "c@x"))))
        ≡ has_email cleo (codes "c@x") ∷ [] }
    ensures no_range { scan emails whole [] Avet
        (between email (Some (Str (codes "b@x"))) (Some (Str (codes "b@x"))))
        ≡ [] }
    ensures not_held { scan emails whole [] Avet (leading (attribute_probe Avet doc)) ≡ [] }
{}

/// The ends of t, of a transaction's entity and of an instant.
pub fn points_in_time()
    ensures zero { end_of_number 0 ≡ Some 1 }
    ensures greatest { end_of_number 2147483647 ≡ Some 2147483648 }
    ensures no_t { end_of_number 2147483648 ≡ None }
    ensures transaction { end_of_number 13194139533315 ≡ Some 4 }
    ensures no_transaction { end_of_number 13196287016960 ≡ None }
    ensures between_two { end_of_instant ages (pos 1500) ≡ 2 }
    ensures at_one { end_of_instant ages (pos 2000) ≡ 3 }
    ensures before_all { end_of_instant ages minus_one ≡ 0 }
{}

/// A filter that hides the retraction of a fact does not revive the fact.
pub fn filters_come_after_the_window()
    ensures additions_alone { datoms_of ages whole (shows_additions ∷ []) person ≡ [] }
    ensures two_filters { view ages (as_of 3 whole) (shows_entity person ∷ hides_attribute age ∷ [])
        ≡ [] }
{}

/// Names by the facts that a view shows.
pub fn names_are_found_in_the_view()
    ensures by_ident { entity_named (facts_seen emails whole []) (ident (codes "person/email"))
        ≡ Some email }
    ensures by_value { entity_named (facts_seen emails whole []) (by_email (codes "b@x"))
        ≡ Some ben }
    ensures not_yet { entity_named (facts_seen emails (as_of 2 whole) []) (by_email (codes "b@x"))
        ≡ None }
    ensures hidden { entity_named (facts_seen emails whole (hides_entity ben ∷ []))
        (by_email (codes "b@x"))
        ≡ None }
    ensures also_in_history { entity_named (facts_seen emails (with_history whole) [])
        (by_email (codes "b@x"))
        ≡ Some ben }
{}
