//! More examples, by computation: instants as points, filters one after another, and the whole of
//! an index.
ghost use Rattle.std.specs.Prelude.{◌≡◌, [], ◌∷◌, pos};
ghost use Rattle.fb_numbers.specs.Numbers.{user_entity, doc};
ghost use Rattle.fb_model.specs.Lawful.{IsLawful};
ghost use Rattle.view_model.specs.Window.{whole, as_of, since, end_of_instant};
ghost use Rattle.view_model.specs.Scan.{transactions};
ghost use Rattle.view_model.specs.Samples.{texts, instants, recorded_at, hi, minus_one, hides_attribute, shows_users, datoms_of, instants_of, age_seen};

/// As of an instant: the transactions up to it.
pub fn as_of_an_instant()
    ensures between { instants_of instants (as_of (end_of_instant instants (pos 1500)) whole)
        ≡ recorded_at 0 0 ∷ recorded_at 1 1000 ∷ [] }
    ensures at_one { instants_of instants (as_of (end_of_instant instants (pos 2000)) whole)
        ≡ recorded_at 0 0 ∷ recorded_at 1 1000 ∷ recorded_at 2 2000 ∷ [] }
    ensures before_all { instants_of instants (as_of (end_of_instant instants minus_one) whole)
        ≡ [] }
{}

/// Without a filter, with one that hides an attribute, and with one more.
pub fn filters_one_after_another()
    ensures lawful { IsLawful texts }
    ensures unfiltered { datoms_of texts whole [] (user_entity 1) ≡ hi ∷ [] }
    ensures no_doc { datoms_of texts whole (hides_attribute doc ∷ []) (user_entity 1) ≡ [] }
    ensures users { datoms_of texts whole (shows_users ∷ []) (user_entity 1) ≡ hi ∷ [] }
    ensures both { datoms_of texts whole (hides_attribute doc ∷ shows_users ∷ []) (user_entity 1)
        ≡ [] }
{}

/// A t that since names is not seen itself, and what was retracted in the window does not come
/// back.
pub fn since_begins_behind_its_point()
    ensures at_its_t { age_seen (as_of 3 (since 3 whole)) ≡ [] }
    ensures one_before { age_seen (as_of 3 (since 2 whole)) ≡ age_seen (as_of 3 whole) }
{}

/// Log: from a t on and before another, without the first entry.
pub fn transactions_of_the_log()
    ensures all { transactions instants 0 3 ≡ transactions instants 1 3 }
    ensures none { transactions instants 2 2 ≡ [] }
{}
