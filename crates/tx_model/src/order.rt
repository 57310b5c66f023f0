//! What does not depend on the order of a transaction's forms.
ghost use Rattle.std.specs.Prelude.{◌≡◌, ℕ, ◌<◌, Bool, true, false, List, length, map, is_some};
ghost use Rattle.std.specs.List.{list_any};
ghost use Rattle.tx_model.specs.Asks.{Name, Ask, is_tempid};
ghost use Rattle.tx_model.specs.Tempids.{Db, holders, assigned, assigned_to};
ghost use Rattle.tx_model.specs.NameRules.{breaks_tempid_conflict};
ghost use Rattle.tx_model.specs.Transaction.{joined, with_asks, with_names, SameForms, SameEntities};
ghost use Rattle.tx_model.specs.Step.{first_yes, broken_rules, least_broken, are_broken};

/// Whether a rule that is judged form by form is broken does not depend on the order of the forms,
/// though the place of the form that is reported does.
pub fn a_rule_is_broken_in_any_order()
    ensures { (test : List Ask → Bool) (asks other : List (List Ask))
        → SameForms asks other
        → is_some (first_yes 0 (map test asks)) ≡ is_some (first_yes 0 (map test other)) }
{}

/// With the same entities for its tempids a transaction records the same, and the same holds
/// afterwards, in whatever order its forms are.
pub fn the_same_is_recorded_in_any_order()
    ensures changes { (db : Db) (names : List (Name × ℕ)) (asks other : List (List Ask))
        → SameForms asks other
        → (with_names db asks names).changes ≡ (with_names db other names).changes }
    ensures facts { (db : Db) (names : List (Name × ℕ)) (asks other : List (List Ask))
        → SameForms asks other
        → (with_names db asks names).after ≡ (with_names db other names).after }
{}

/// With the same entities for its tempids a transaction breaks the same rules in whatever order its
/// forms are, and so the least of them is the same; which form is reported may differ.
pub fn the_same_rules_are_broken_in_any_order()
    ensures each { (db : Db) (names : List (Name × ℕ)) (asks other : List (List Ask))
        → SameForms asks other
        → are_broken (broken_rules (with_names db asks names))
        ≡ are_broken (broken_rules (with_names db other names)) }
    ensures least { (db : Db) (names : List (Name × ℕ)) (asks other : List (List Ask))
        → SameForms asks other
        → least_broken (with_names db asks names) ≡ least_broken (with_names db other names) }
{}

/// Where two orders of what the forms ask give each tempid the same entity, the transactions record
/// the same, the same holds afterwards, and they break the same rules.
pub fn orders_with_the_same_entities_agree()
    ensures changes { (db : Db) (asks other : List (List Ask))
        → SameForms asks other
        → SameEntities db asks other
        → (with_asks db asks).changes ≡ (with_asks db other).changes }
    ensures facts { (db : Db) (asks other : List (List Ask))
        → SameForms asks other
        → SameEntities db asks other
        → (with_asks db asks).after ≡ (with_asks db other).after }
    ensures rules { (db : Db) (asks other : List (List Ask))
        → SameForms asks other
        → SameEntities db asks other
        → are_broken (broken_rules (with_asks db asks))
        ≡ are_broken (broken_rules (with_asks db other)) }
{}

/// Where no form breaks the rule on tempids of two holders, a tempid that is given an identity
/// value with a holder is that holder in whatever order the forms are.
pub fn a_held_tempid_is_the_same_in_any_order()
    ensures { (db : Db) (asks other : List (List Ask))
        → SameForms asks other
        → list_any (breaks_tempid_conflict db (joined asks)) asks ≡ false
        → (name : Name)
        → is_tempid name ≡ true
        → 0 < length (holders db (joined asks) name)
        → assigned_to (assigned db (joined asks)) name
        ≡ assigned_to (assigned db (joined other)) name }
{}
