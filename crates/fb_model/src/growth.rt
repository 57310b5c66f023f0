//! What a history with one more entry says.
ghost use Rattle.std.specs.Prelude.{◌≡◌, ℕ, ℤ, ◌+◌, ◌<◌, ◌≤◌, List, [], ◌∷◌, ◌++◌, length, max, false, IsTrue, nat_eq, int_lt, int_le};
ghost use Rattle.std.specs.List.{list_any};
ghost use Rattle.fb_values.specs.declared.facts.Entry.{Entry};
ghost use Rattle.fb_values.specs.declared.facts.Value.{Value};
ghost use Rattle.fb_numbers.specs.Numbers.{user_entity, least_instant};
ghost use Rattle.fb_model.specs.History.{basis, upto, last_instant, next_instant, said, users_in, users_issued};
ghost use Rattle.fb_model.specs.Facts.{holds_after, holds};

/// The new entry's t is the basis, and the entries up to an earlier t are what they were.
pub fn basis_after_an_entry()
    ensures basis { (h : List Entry) (entry : Entry) → basis (h ++ entry ∷ []) ≡ entry.t }
    ensures earlier { (h more : List Entry) (t : ℕ) → t < length h → upto (h ++ more) t ≡ upto h t }
{}

/// A longer history says what the shorter one said, and what is new after it.
pub fn facts_after_an_entry()
    ensures said { (h : List Entry) (entry : Entry)
        → said (h ++ entry ∷ []) ≡ said h ++ entry.datoms }
    ensures holds { (h : List Entry) (entry : Entry) (e a : ℕ) (v : Value)
        → holds (h ++ entry ∷ []) e a v ≡ holds_after (holds h e a v) entry.datoms e a v }
{}

/// The greatest user number never falls.
pub fn users_after_an_entry()
    ensures users { (h : List Entry) (entry : Entry)
        → users_issued (h ++ entry ∷ []) ≡ max (users_issued h) (users_in entry.datoms) }
    ensures never_falls { (h : List Entry) (entry : Entry)
        → users_issued h ≤ users_issued (h ++ entry ∷ []) }
{}

/// No datom is about a user entity whose number is not in use.
pub fn new_users_have_no_facts()
    ensures no_datom { (h : List Entry) (n : ℕ) → users_issued h < n
        → list_any (λ d. nat_eq d.e (user_entity n)) (said h) ≡ false }
    ensures no_fact { (h : List Entry) (n a : ℕ) (v : Value) → users_issued h < n
        → holds h (user_entity n) a v ≡ false }
{}

/// The next instant is above the last one, whatever the clock reads.
pub fn instants_after_an_entry()
    ensures last { (h : List Entry) (entry : Entry)
        → last_instant (h ++ entry ∷ []) ≡ entry.instant }
    ensures later { (h : List Entry) (reading : ℤ)
        → IsTrue (int_lt (last_instant h) (next_instant h reading)) }
    ensures not_too_early { (h : List Entry) (reading : ℤ)
        → IsTrue (int_le least_instant (next_instant h reading)) }
{}
