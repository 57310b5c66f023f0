//! Talks, in whatever surroundings.
ghost use Rattle.std.specs.Prelude.{◌≡◌, ◌⊎◌, ℕ, ℤ, ◌≤◌, Bool, Option, Some, List, [], ◌∷◌, ◌++◌, option_to_list};
ghost use Rattle.edn_model.specs.Form.{Form};
ghost use Rattle.fb_values.specs.declared.facts.Datom.{Datom};
ghost use Rattle.fb_values.specs.declared.facts.Entry.{Entry};
ghost use Rattle.fb_model.specs.History.{basis};
ghost use Rattle.fb_model.specs.Lawful.{IsLawful};
ghost use Rattle.tx_model.specs.Step.{Guard};
ghost use Rattle.talk_model.specs.Commands.{transact};
ghost use Rattle.talk_model.specs.Session.{Standing, setting, Stays};
ghost use Rattle.talk_model.specs.Talk.{IsAccepted, IsRefused, IsNotTaken, IsStopped, IsShown, AnswersCommand, IsAnswered, Exchange, places_of, commits_of, Talk};
ghost use Rattle.talk_model.specs.Prefixes.{SeesAll, Prefixes};
ghost use Rattle.std.specs.List.Sorted.{IsStrictlyIncreasing};

/// What a clock may read, and what the filter of a name selects: a law that speaks of any of them
/// is generic in this.
pub trait Surroundings {
    ghost may: { Self → ℤ → Type 0 };

    ghost selects: { Self → List ℕ → Datom → Type 0 };
}

/// A longer lawful history keeps a talk, also where the log has stopped after it meanwhile.
pub fn a_longer_history_keeps_a_talk<S: Surroundings>()
    ensures { (s : S) (guard : Guard) (is_filter : List ℕ → Bool) (h more : List Entry)
        (stop later : Option ℕ) (teller is_teller : Bool) (before after : Standing)
        (talk : List Exchange)
        → let here = setting (S.may s) (S.selects s) guard is_filter h stop teller in
        let there = setting (S.may s) (S.selects s) guard is_filter (h ++ more) later is_teller in
        IsLawful h → IsLawful (h ++ more) → before.place ≤ basis h → Stays here later is_teller
        → Talk here before talk after → Talk there before talk after }
{}

/// A talk goes on by one form more, with its place, its line and its commit.
pub fn a_talk_goes_on<S: Surroundings>()
    ensures { (s : S) (guard : Guard) (is_filter : List ℕ → Bool) (h : List Entry) (stop : Option ℕ)
        (teller : Bool) (before middle after : Standing) (talk : List Exchange) (x : Exchange)
        → let here = setting (S.may s) (S.selects s) guard is_filter h stop teller in
        Talk here before talk middle → IsAnswered here middle x.form after x.line x.commit
        → after.place ≡ x.place → Talk here before (talk ++ x ∷ []) after }
{}

/// And it is the talk of the forms before the last one, gone on by that. So where the last line did
/// not come out, the talk of the forms before it has the same commits, or those without the last.
pub fn a_talk_ends_with_its_last_form<S: Surroundings>()
    ensures { (s : S) (guard : Guard) (is_filter : List ℕ → Bool) (h : List Entry) (stop : Option ℕ)
        (teller : Bool) (before after : Standing) (talk : List Exchange) (x : Exchange)
        → let here = setting (S.may s) (S.selects s) guard is_filter h stop teller in
        Talk here before (talk ++ x ∷ []) after
        → (middle : Standing)
        × Talk here before talk middle
        × IsAnswered here middle x.form after x.line x.commit
        × (after.place ≡ x.place)
        × (commits_of (talk ++ x ∷ []) ≡ commits_of talk ++ option_to_list x.commit) }
{}

/// The places of a talk never fall, lie between the opening's t and the basis, and each is at least
/// every t that was committed before. So it is where the form after the lines was answered too,
/// and its line did not come out.
pub fn a_talk_rests_on_what_was_seen<S: Surroundings>()
    ensures whole { (s : S) (guard : Guard) (is_filter : List ℕ → Bool) (h : List Entry)
        (stop : Option ℕ) (teller : Bool) (before after : Standing) (talk : List Exchange)
        → let here = setting (S.may s) (S.selects s) guard is_filter h stop teller in
        before.place ≤ basis h → Talk here before talk after
        → Prefixes before.place (basis h) (places_of talk) (commits_of talk) }
    ensures unfinished { (s : S) (guard : Guard) (is_filter : List ℕ → Bool) (h : List Entry)
        (stop : Option ℕ) (teller : Bool) (before after : Standing) (talk : List Exchange)
        (x : Exchange)
        → let here = setting (S.may s) (S.selects s) guard is_filter h stop teller in
        before.place ≤ basis h → Talk here before (talk ++ x ∷ []) after
        → Prefixes before.place (basis h) (places_of talk) (commits_of (talk ++ x ∷ [])) }
{}

/// Commits strictly rise.
pub fn commits_strictly_rise()
    ensures { (basis opening : ℕ) (ps cs : List ℕ)
        → SeesAll basis opening ps cs → IsStrictlyIncreasing cs }
{}

/// A session is notified once at most that the log did not take its transaction, and as the first that it
/// hears of a stop: from then on each of its transactions is answered that the log has stopped.
pub fn a_session_is_notified_once<S: Surroundings>()
    ensures once { (s : S) (guard : Guard) (is_filter : List ℕ → Bool) (h : List Entry) (stop : Option ℕ)
        (teller : Bool) (one two three four : Standing) (talk : List Exchange) (f g : Form)
        (line other : List ℕ) (commit last : Option ℕ)
        → let here = setting (S.may s) (S.selects s) guard is_filter h stop teller in
        IsNotTaken here one f two line commit → Talk here two talk three
        → ¬ IsNotTaken here three g four other last }
    ensures for_good { (s : S) (guard : Guard) (is_filter : List ℕ → Bool) (h : List Entry)
        (stop : Option ℕ) (teller : Bool) (one two three four : Standing) (talk : List Exchange)
        (f g : Form) (line other : List ℕ) (commit last : Option ℕ)
        → let here = setting (S.may s) (S.selects s) guard is_filter h stop teller in
        IsNotTaken here one f two line commit ⊎ IsStopped here one two line commit
        → Talk here two talk three
        → AnswersCommand here three (Some (transact g)) four other last
        → IsStopped here three four other last }
{}

/// At one place a transaction that is accepted, or refused, has one line, and so have `:db` and
/// `:sync`.
pub fn one_line_at_a_place<S: Surroundings>()
    ensures accepted { (s : S) (guard : Guard) (is_filter : List ℕ → Bool) (h : List Entry)
        (stop : Option ℕ) (teller : Bool) (before after other : Standing) (asked : Form)
        (line that : List ℕ) (commit last : Option ℕ)
        → let here = setting (S.may s) (S.selects s) guard is_filter h stop teller in
        after.place ≡ other.place → IsAccepted here before asked after line commit
        → IsAccepted here before asked other that last → line ≡ that }
    ensures refused { (s : S) (guard : Guard) (is_filter : List ℕ → Bool) (h : List Entry)
        (stop : Option ℕ) (teller : Bool) (before after other : Standing) (asked : Form)
        (line that : List ℕ) (commit last : Option ℕ)
        → let here = setting (S.may s) (S.selects s) guard is_filter h stop teller in
        after.place ≡ other.place → IsRefused here before asked after line commit
        → IsRefused here before asked other that last → line ≡ that }
    ensures shown { (s : S) (guard : Guard) (is_filter : List ℕ → Bool) (h : List Entry)
        (stop : Option ℕ) (teller : Bool) (before after other : Standing) (line that : List ℕ)
        (commit last : Option ℕ)
        → let here = setting (S.may s) (S.selects s) guard is_filter h stop teller in
        after.place ≡ other.place → IsShown here before after line commit
        → IsShown here before other that last → line ≡ that }
{}
