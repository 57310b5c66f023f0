//! What a session did stays what it did when others go on.
ghost use Rattle.std.specs.Prelude.{ℕ, ◌≤◌, Bool, Option, List, ◌++◌};
ghost use Rattle.fb_values.specs.declared.facts.Entry.{Entry};
ghost use Rattle.fb_model.specs.History.{basis};
ghost use Rattle.fb_model.specs.Lawful.{IsLawful};
ghost use Rattle.tx_model.specs.Step.{Guard};
ghost use Rattle.talk_model.specs.Session.{setting, Stays};
ghost use Rattle.talk_model.specs.Prefixes.{Prefixes};
ghost use Rattle.fb_session.specs.Replies.{SessionRun, Replies};

use talk_model::Surroundings;

/// A longer lawful history keeps the replies of a session, also where the log has stopped after it meanwhile.
pub fn a_longer_history_keeps_replies<S: Surroundings>()
    ensures { (s : S) (guard : Guard) (is_filter : List ℕ → Bool) (h more : List Entry)
        (stop later : Option ℕ) (teller is_teller : Bool) (opening : ℕ) (run : SessionRun)
        → let here = setting (S.may s) (S.selects s) guard is_filter h stop teller in
        let there = setting (S.may s) (S.selects s) guard is_filter (h ++ more) later is_teller in
        IsLawful h → IsLawful (h ++ more) → opening ≤ basis h → Stays here later is_teller
        → Replies here opening run → Replies there opening run }
{}

/// And it keeps that its places are between the opening and the last t.
pub fn a_longer_history_keeps_prefixes()
    ensures { (opening basis later : ℕ) (places commits : List ℕ)
        → basis ≤ later → Prefixes opening basis places commits
        → Prefixes opening later places commits }
{}
