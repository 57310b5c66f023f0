//! Laws and worked examples of the definitions. None of these functions does anything: each is its contract.
ghost use Rattle.std.specs.Prelude.{◌≡◌, ℕ, ◌+◌, ◌<◌, List, [], ◌∷◌, length, Option, Some, None};
ghost use mathlib.Core.Option.{some};
ghost use lib.ListN.{get_elem?};
ghost use Rattle.board_rule.specs.declared.view.Code.{Code};
ghost use Rattle.board_rule.specs.declared.view.Joined.{Joined};
ghost use Rattle.board_rule.specs.declared.view.Marks.{Marks};
ghost use Rattle.board_rule.specs.declared.view.View.{View};
ghost use Rattle.board_rule.specs.Views.{StartsWith, codes, commits_of, longer, marked, tried_down, IsTried, note_of, both};

/// Lists of entries are equal where their codes are.
pub fn equal_codes_are_of_equal_lists<A>()
    ensures { (l m : List A) → codes A.row.coded.code l ≡ codes A.row.coded.code m → l ≡ m }
{}

/// And a list of entries begins with another where its codes begin with those of the other.
pub fn a_beginning_in_codes_is_one_in_entries<A>()
    ensures { (l first : List A)
        → StartsWith (codes A.row.coded.code l) (codes A.row.coded.code first)
        → StartsWith l first }
{}

/// What a beginning of a list begins with, the list does.
pub fn a_beginning_of_a_beginning_is_one<A>()
    ensures { (l m first : List A) → StartsWith l m → StartsWith m first → StartsWith l first }
{}

/// A join writes its note after those that the seat has, and the notes of the other seat after it.
pub fn a_join_adds_its_note_behind_the_others()
    ensures stay { (v u : View Code) (k : ℕ) (p : Joined Code) → get_elem? v.joined k ≡ some p
        → get_elem? (both v u).joined k ≡ some p }
    ensures added { (v u : View Code)
        → get_elem? (both v u).joined (length v.joined) ≡ some (note_of v u) }
    ensures taken { (v u : View Code) (k : ℕ) (p : Joined Code) → get_elem? u.joined k ≡ some p
        → get_elem? (both v u).joined (length v.joined + 1 + k) ≡ some p }
{}

/// An entry's t is among its author's commits.
pub fn each_entry_is_a_commit_of_its_author()
    ensures { (n t i : ℕ) (who : List ℕ) → get_elem? who i ≡ some n
        → (k : ℕ) × (get_elem? (commits_of n t who) k ≡ some (t + i)) }
{}

/// And a commit is an entry of that author.
pub fn each_commit_is_an_entry_of_that_author()
    ensures { (n t k u : ℕ) (who : List ℕ) → get_elem? (commits_of n t who) k ≡ some u
        → (i : ℕ) × (u ≡ t + i) × (get_elem? who i ≡ some n) }
{}

/// A seat's commits strictly rise.
pub fn commits_rise()
    ensures { (n t k u w : ℕ) (who : List ℕ) → get_elem? (commits_of n t who) k ≡ some u
        → get_elem? (commits_of n t who) (k + 1) ≡ some w → u < w }
{}

/// Trying the sessions from the last down to the first tries each of them.
pub fn each_session_is_tried()
    ensures { (n : ℕ) (tried : Option (List ℕ)) → IsTried n (tried_down n tried) }
{}

pub fn examples_of_commits()
    ensures two { commits_of 7 1 (7 ∷ 3 ∷ 7 ∷ []) ≡ 1 ∷ 3 ∷ [] }
    ensures one { commits_of 3 1 (7 ∷ 3 ∷ 7 ∷ []) ≡ 2 ∷ [] }
    ensures none { commits_of 5 1 (7 ∷ 3 ∷ 7 ∷ []) ≡ [] }
{}

pub fn examples_of_tries()
    ensures two { tried_down 2 (Some []) ≡ Some (1 ∷ 0 ∷ []) }
    ensures none { tried_down 2 None ≡ None }
{}

pub fn examples_of_longer()
    ensures left { longer {E = ℕ} (1 ∷ 2 ∷ []) (1 ∷ []) ≡ 1 ∷ 2 ∷ [] }
    ensures right { longer {E = ℕ} (1 ∷ []) (1 ∷ 2 ∷ []) ≡ 1 ∷ 2 ∷ [] }
{}

pub fn marks_are_the_next_ones_or_the_same()
    ensures { (m k : Marks) → (marked m (Some k) ≡ k) × (marked m None ≡ m) }
{}
