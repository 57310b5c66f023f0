//! What is answered of a transaction: which of several reasons is reported, and which tempids.
ghost use Rattle.std.specs.Prelude.{◌≡◌, ◌≤◌, ◌↔◌, ℕ, true, List, Contains, Some};
ghost use Rattle.edn_model.specs.Form.{Form};
ghost use Rattle.fb_values.specs.declared.facts.Entry.{Entry};
ghost use Rattle.tx_refusals.specs.declared.reasons.Reason.{Reason};
ghost use Rattle.tx_refusals.specs.declared.reasons.Refusal.{Refusal};
ghost use Rattle.tx_refusals.specs.Reasons.{number_of, keyword_of};
ghost use Rattle.fb_model.specs.Words.{is_keyword_text};
ghost use Rattle.tx_model.specs.Asks.{Name, tempid};
ghost use Rattle.tx_model.specs.Tempids.{named_tempids, rises_by_text};
ghost use Rattle.tx_model.specs.Transaction.{transaction};
ghost use Rattle.tx_model.specs.Step.{all_rules, refusal_of};

/// Of the rules that forms break the one that is reported has the least number.
pub fn the_least_rule_is_told()
    ensures { (h : List Entry) (fs : List Form) (refusal : Refusal) (reason : Reason) (at : ℕ)
        → refusal_of h fs ≡ Some refusal
        → Contains (all_rules h fs) (reason, Some at)
        → number_of refusal.reason ≤ number_of reason }
{}

/// A reason is reported by a keyword.
pub fn reasons_have_keywords()
    ensures { (reason : Reason) → is_keyword_text (keyword_of reason) ≡ true }
{}

/// The tempids that are answered rise by the bytes of their names, and are exactly those with a name.
pub fn named_tempids_rise_by_their_bytes()
    ensures rising { (h : List Entry) (fs : List Form)
        → rises_by_text (named_tempids (transaction h fs).names) ≡ true }
    ensures members { (pairs : List (Name × ℕ)) (text : List ℕ) (e : ℕ)
        → Contains (named_tempids pairs) (text, e) ↔ Contains pairs (tempid text, e) }
{}

/// There is no other such list.
pub fn one_list_of_named_tempids()
    ensures { (h : List Entry) (fs : List Form) (list : List (List ℕ × ℕ))
        → rises_by_text list ≡ true
        → ((text : List ℕ) (e : ℕ)
        → Contains list (text, e) ↔ Contains (transaction h fs).names (tempid text, e))
        → list ≡ named_tempids (transaction h fs).names }
{}
