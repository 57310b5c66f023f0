//! Examples: what may come of a few events, and what cannot happen.
ghost use Rattle.std.specs.Prelude.{◌≡◌, [], ◌∷◌, length};
ghost use Rattle.event_model.specs.World.{IsBeginning};
ghost use Rattle.event_model.specs.Event.{refuse, stopped, mail, glance, held, sync, begin, keep, adopt, abandon, crash, AreRootsLeft};
ghost use Rattle.event_model.specs.Samples.{start, no_attribute, two_accepted, failed_and_crashed, session, MayCome, NeverHappen, text_a, first, second, third, a_from, b_from, b_fails_from};

/// A new database is a beginning.
pub fn a_new_database_is_a_beginning()
    ensures { IsBeginning start }
{}

/// Each has its own t for a commit and no other. A session that made none has a snapshot of the
/// opening until it asks for more.
pub fn two_sessions_record_one_transaction_each()
    ensures first { MayCome start two_accepted
        (λ after. after.sessions first ≡ session 0 1 (1 ∷ [])) }
    ensures second { MayCome start two_accepted
        (λ after. after.sessions second ≡ session 0 2 (2 ∷ [])) }
    ensures third { MayCome start two_accepted (λ after. after.sessions third ≡ session 0 0 []) }
    ensures told { MayCome start (a_from first ∷ sync third ∷ [])
        (λ after. after.sessions third ≡ session 0 1 []) }
    ensures refused { MayCome start (a_from first ∷ refuse second no_attribute ∷ [])
        (λ after. after.sessions second ≡ session 0 1 []) }
    ensures not_refused { NeverHappen start (refuse second text_a ∷ []) }
{}

/// A glance shows what was mailed and no more, and without one the snapshot stays.
pub fn mail_between_two_sessions()
    ensures glance { MayCome start (a_from second ∷ mail first ∷ b_from second ∷ glance first ∷ [])
        (λ after. after.sessions first ≡ session 1 1 []) }
    ensures held { MayCome start (a_from second ∷ mail first ∷ held first ∷ [])
        (λ after. after.sessions first ≡ session 1 0 []) }
    ensures old_mail { MayCome start (mail first ∷ a_from first ∷ glance first ∷ [])
        (λ after. after.sessions first ≡ session 0 1 (1 ∷ [])) }
{}

/// The torn entry may be in the log or not, and till then nothing more is recorded.
pub fn a_failed_append_and_a_crash()
    ensures without { MayCome start failed_and_crashed (λ after.
        (length after.history ≡ 2)
        × (after.opening ≡ 1)
        × (after.sessions first ≡ session 1 1 [])) }
    ensures with_torn { MayCome start failed_and_crashed (λ after.
        (length after.history ≡ 3)
        × (after.opening ≡ 2)
        × (after.sessions first ≡ session 2 2 [])) }
    ensures goes_on { MayCome start (b_fails_from second ∷ crash ∷ a_from first ∷ [])
        (λ after. after.sessions first ≡ session 0 1 (1 ∷ [])) }
    ensures no_other { NeverHappen start (b_fails_from second ∷ a_from first ∷ []) }
    ensures not_stopped { NeverHappen start (a_from first ∷ stopped first ∷ []) }
{}

/// The trees of a merge are of the basis at which it began, and are adopted once their root is
/// kept. After a crash a kept root may be found, or none.
pub fn merges_step_by_step()
    ensures adopted { MayCome start (a_from first ∷ begin ∷ b_from first ∷ keep ∷ adopt ∷ [])
        (λ after. (after.adopted ≡ 1) × (length after.history ≡ 3)) }
    ensures not_kept { NeverHappen start (a_from first ∷ begin ∷ adopt ∷ []) }
    ensures not_begun { NeverHappen start (keep ∷ []) }
    ensures one_at_a_time { NeverHappen start (begin ∷ begin ∷ []) }
    ensures given_up { MayCome start (a_from first ∷ begin ∷ abandon ∷ begin ∷ [])
        (λ after. after.adopted ≡ 0) }
    ensures found { MayCome start (a_from first ∷ begin ∷ keep ∷ crash ∷ [])
        (λ after. after.adopted ≡ 1) }
    ensures not_found { MayCome start (a_from first ∷ begin ∷ keep ∷ crash ∷ [])
        (λ after. after.adopted ≡ 0) }
{}

/// A crash may take roots from the end of the file, and the opening behind it may leave the one
/// alone that it adopts. No root comes twice, and none is left of which the file had none.
pub fn roots_after_a_crash()
    ensures all { AreRootsLeft (1 ∷ 3 ∷ []) 3 (1 ∷ 3 ∷ []) }
    ensures last_lost { AreRootsLeft (1 ∷ 3 ∷ []) 1 (1 ∷ []) }
    ensures none { AreRootsLeft (1 ∷ 3 ∷ []) 0 [] }
    ensures made_room { AreRootsLeft (1 ∷ 3 ∷ []) 3 (3 ∷ []) }
    ensures not_the_first { AreRootsLeft (1 ∷ 3 ∷ []) 1 (3 ∷ []) → ⊥ }
    ensures not_twice { AreRootsLeft (1 ∷ []) 1 (1 ∷ 1 ∷ []) → ⊥ }
    ensures not_another { AreRootsLeft (1 ∷ []) 2 (2 ∷ []) → ⊥ }
{}
