//! What each read answers, by computation.
ghost use Rattle.std.specs.Prelude.{◌≡◌, [], ◌∷◌, true, not, codes, None, nat_eq};
ghost use Rattle.edn_model.specs.Form.{nil, string};
ghost use Rattle.fb_numbers.specs.Numbers.{user_entity};
ghost use Rattle.view_model.specs.Window.{whole, as_of, since, with_history};
ghost use Rattle.tx_model.specs.Samples.{vector};
ghost use Rattle.tuple_model.specs.Samples.{a, long, row};
ghost use Rattle.talk_model.specs.Replies.{refusal_reply, done_reply, transactions_reply, with_reply, tuples_reply};
ghost use Rattle.talk_model.specs.Session.{opened_at};
ghost use Rattle.talk_model.specs.Samples.{said, key, number, minus_one_form, text, tries, datoms_of_first, reply_over_texts, range_over_numbers, IsReplyOverAges, behind_read, standing_behind, standing_with};

/// Each reason, at its place.
pub fn refusals_of_reads()
    ensures no_command { IsReplyOverAges (said (codes "look") [])
        (refusal_reply (codes "read/not-a-command") 0 4) }
    ensures five_components { IsReplyOverAges
        (said (codes "datoms") (key (codes "eavt") ∷ number 1 ∷ nil ∷ nil ∷ nil ∷ nil ∷ []))
        (refusal_reply (codes "read/not-a-command") 0 4) }
    ensures as_of { IsReplyOverAges (said (codes "as-of") (string (codes "now") ∷ []))
        (refusal_reply (codes "read/bad-point") 1 4) }
    ensures since { IsReplyOverAges (said (codes "since") (number 2147483648 ∷ []))
        (refusal_reply (codes "read/bad-point") 1 4) }
    ensures filter { IsReplyOverAges (said (codes "filter") (key (codes "user") ∷ []))
        (refusal_reply (codes "read/no-filter") 1 4) }
    ensures datoms { IsReplyOverAges
        (said (codes "datoms") (key (codes "eavt") ∷ number 5 ∷ key (codes "no/such") ∷ []))
        (refusal_reply (codes "read/bad-component") 3 4) }
    ensures seek { IsReplyOverAges
        (said (codes "seek") (key (codes "avet") ∷ key (codes "p/age") ∷ []))
        (refusal_reply (codes "read/not-in-index") 2 4) }
    ensures index_range { IsReplyOverAges
        (said (codes "index-range") (key (codes "db/doc") ∷ nil ∷ nil ∷ []))
        (refusal_reply (codes "read/not-in-index") 1 4) }
    ensures tx_range { IsReplyOverAges (said (codes "tx-range") (nil ∷ minus_one_form ∷ []))
        (refusal_reply (codes "read/bad-point") 2 4) }
    ensures no_pattern { IsReplyOverAges (said (codes "pull") (nil ∷ number 5 ∷ []))
        (refusal_reply (codes "read/bad-pattern") 0 4) }
    ensures no_entity { IsReplyOverAges
        (said (codes "pull") (vector (key (codes "db/id") ∷ []) ∷ string (codes "x") ∷ []))
        (refusal_reply (codes "read/not-an-entity") 2 4) }
{}

/// Transactions that are tried: the whole database alone is tried on, the first refusal ends a chain
/// at the basis that it had come to, and the look is answered at its end.
pub fn transactions_are_tried()
    ensures filtered { reply_over_texts (since 2 whole) [] (tries (text ∷ []) datoms_of_first)
        ≡ refusal_reply (codes "read/filtered") 0 1 }
    ensures history { reply_over_texts (with_history whole) [] (tries (text ∷ []) datoms_of_first)
        ≡ refusal_reply (codes "read/filtered") 0 1 }
    ensures refused { reply_over_texts whole [] (tries (text ∷ nil ∷ []) datoms_of_first)
        ≡ refusal_reply (codes "db.error/not-a-form") 0 2 }
    ensures shown { reply_over_texts whole [] (tries (text ∷ []) (said (codes "tx-range") (number 3 ∷ nil ∷ [])))
        ≡ with_reply 1 (record { t = 2; tempids = (codes "x", user_entity 2) ∷ [] } ∷ [])
        (transactions_reply 2 [] []) }
    ensures look_refused { reply_over_texts whole [] (tries (text ∷ []) (said (codes "tx-range") (nil ∷ minus_one_form ∷ [])))
        ≡ with_reply 1 (record { t = 2; tempids = (codes "x", user_entity 2) ∷ [] } ∷ [])
        (refusal_reply (codes "read/bad-point") 2 2) }
{}

/// Ranges of tuples: the start is in them, the end is not. Of what is refused the composite comes
/// first, then the start, the end, and the view.
pub fn ranges_of_tuples()
    ensures from { range_over_numbers whole [] (vector (number 1 ∷ nil ∷ [])) nil
        ≡ tuples_reply 2
        (row (long 1 ∷ None ∷ []) (user_entity 4)
        ∷ row (long 1 ∷ long 2 ∷ []) (user_entity 3)
        ∷ []) }
    ensures before { range_over_numbers whole [] nil (vector (number 1 ∷ number 2 ∷ []))
        ≡ tuples_reply 2
        (row (long 0 ∷ long 9 ∷ []) (user_entity 5)
        ∷ row (long 1 ∷ None ∷ []) (user_entity 4)
        ∷ []) }
    ensures filtered { range_over_numbers whole ((λ d. not (nat_eq d.a a)) ∷ []) nil nil
        ≡ tuples_reply 2
        (row (None ∷ long 2 ∷ []) (user_entity 3)
        ∷ row (None ∷ long 9 ∷ []) (user_entity 5)
        ∷ []) }
    ensures earlier { range_over_numbers (as_of 2 whole) [] nil nil ≡ tuples_reply 2 [] }
    ensures no_composite { IsReplyOverAges
        (said (codes "tuple-range")
        (vector (key (codes "p/age") ∷ []) ∷ string (codes "x") ∷ nil ∷ []))
        (refusal_reply (codes "read/bad-tuple") 1 4) }
    ensures no_start { range_over_numbers (with_history whole) []
        (vector (number 1 ∷ [])) (string (codes "x"))
        ≡ refusal_reply (codes "read/bad-component") 2 2 }
    ensures no_end { range_over_numbers (with_history whole) [] nil (string (codes "x"))
        ≡ refusal_reply (codes "read/bad-component") 3 2 }
    ensures history { range_over_numbers (with_history whole) [] nil nil
        ≡ refusal_reply (codes "read/history") 0 2 }
{}

/// What changes after a command.
pub fn views_of_a_session()
    ensures as_of { standing_behind (said (codes "as-of") (number 2 ∷ []))
        ≡ standing_with (as_of 3 whole) [] }
    ensures since { standing_behind (said (codes "since") (number 2 ∷ []))
        ≡ standing_with (since 3 whole) [] }
    ensures no_point { standing_behind (said (codes "since") (nil ∷ [])) ≡ opened_at 4 }
    ensures history { standing_behind (said (codes "history") [])
        ≡ standing_with (with_history whole) [] }
    ensures filter { standing_behind (said (codes "filter") (key (codes "users") ∷ []))
        ≡ standing_with whole (codes "users" ∷ []) }
    ensures filter_again { behind_read (standing_with whole (codes "users" ∷ []))
        (said (codes "filter") (key (codes "users") ∷ []))
        ≡ standing_with whole (codes "users" ∷ []) }
    ensures no_filter { standing_behind (said (codes "filter") (key (codes "user") ∷ []))
        ≡ opened_at 4 }
    ensures unfilter { behind_read
        (record {
          place = 4;
          window = since 3 (with_history whole);
          filters = codes "users" ∷ [];
          was_notified = true;
        })
        (said (codes "unfilter") [])
        ≡ record { place = 4; window = whole; filters = []; was_notified = true } }
    ensures done { IsReplyOverAges (said (codes "as-of") (number 2 ∷ [])) (done_reply 4) }
    ensures known { IsReplyOverAges (said (codes "filter") (key (codes "users") ∷ []))
        (done_reply 4) }
{}
