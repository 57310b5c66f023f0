//! Points in time and ranges of the log, by computation.
ghost use Rattle.std.specs.Prelude.{◌≡◌, [], ◌∷◌, pos, codes, Ok, Err};
ghost use Rattle.edn_model.specs.Form.{nil, instant, keyword, string};
ghost use Rattle.fb_numbers.specs.Numbers.{transaction_of, user_entity};
ghost use Rattle.view_model.specs.Scan.{transactions};
ghost use Rattle.view_model.specs.Samples.{ages, instants, entry_at, minus_one};
ghost use Rattle.read_model.specs.Points.{point_in, log_range, bad_point};
ghost use Rattle.read_model.specs.Samples.{number, minus_one_form};

/// What as-of and since take: a t, a transaction's entity, or an instant, of which those between
/// two entries end after the first.
pub fn points_in_commands()
    ensures a_t { point_in ages (number 2) ≡ Ok 3 }
    ensures before_the_first { point_in ages (number 0) ≡ Ok 1 }
    ensures a_t_to_come { point_in ages (number 2147483647) ≡ Ok 2147483648 }
    ensures a_transaction { point_in ages (number (transaction_of 2)) ≡ Ok 3 }
    ensures a_transaction_to_come { point_in ages (number (transaction_of 9)) ≡ Ok 10 }
    ensures between_two { point_in instants (instant (pos 1500)) ≡ Ok 2 }
    ensures at_one { point_in instants (instant (pos 2000)) ≡ Ok 3 }
    ensures before_all { point_in instants (instant minus_one) ≡ Ok 0 }

    ensures negative { point_in ages minus_one_form ≡ Err (bad_point 1) }
    ensures no_t { point_in ages (number 2147483648) ≡ Err (bad_point 1) }
    ensures a_user { point_in ages (number (user_entity 1)) ≡ Err (bad_point 1) }
    ensures no_number { point_in ages (string (codes "2")) ≡ Err (bad_point 1) }
    ensures nothing { point_in ages nil ≡ Err (bad_point 1) }
{}

/// From the start on and before the end: a t is itself, an instant the first t that is not before
/// it, nil leaves an end open.
pub fn ranges_of_the_log()
    ensures open { log_range ages nil nil ≡ Ok (1, 5) }
    ensures from_one { log_range instants (number 1) nil ≡ Ok (1, 3) }
    ensures the_whole_log { transactions instants 1 3
        ≡ entry_at 1 1000 [] ∷ entry_at 2 2000 [] ∷ [] }
    ensures the_end_is_left_out { transactions instants 1 2 ≡ entry_at 1 1000 [] ∷ [] }
    ensures from_zero { log_range ages (number 0) (number 3) ≡ Ok (1, 3) }
    ensures to_zero { log_range ages nil (number 0) ≡ Ok (1, 0) }
    ensures transactions { log_range ages (number (transaction_of 2)) (number (transaction_of 4))
        ≡ Ok (2, 4) }
    ensures between_two { log_range ages (instant (pos 1500)) (instant (pos 3500)) ≡ Ok (2, 4) }
    ensures at_one { log_range ages (instant (pos 2000)) (instant (pos 3000)) ≡ Ok (2, 3) }
    ensures before_all { log_range ages (instant minus_one) nil ≡ Ok (1, 5) }

    ensures negative_start { log_range ages minus_one_form nil ≡ Err (bad_point 1) }
    ensures negative_end { log_range ages nil minus_one_form ≡ Err (bad_point 2) }
    ensures no_t { log_range ages nil (number 2147483648) ≡ Err (bad_point 2) }
    ensures the_first_is_told { log_range ages (keyword (codes "a")) (keyword (codes "b"))
        ≡ Err (bad_point 1) }
{}
