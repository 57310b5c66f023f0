//! What a step adds to a lawful history, and what such a history has.
ghost use Rattle.std.specs.Prelude.{◌≡◌, ◌↔◌, ◌*◌, ◌^◌, ◌<◌, ◌≤◌, ℕ, ℤ, List, Contains};
ghost use Rattle.edn_model.specs.Form.{Form};
ghost use Rattle.fb_values.specs.declared.facts.Datom.{Datom};
ghost use Rattle.fb_values.specs.declared.facts.Entry.{Entry};
ghost use Rattle.fb_numbers.specs.Numbers.{greatest_t, most_datoms};
ghost use Rattle.fb_model.specs.History.{basis, users_issued};
ghost use Rattle.fb_model.specs.Lawful.{IsLawful, IsLawfulAfter};
ghost use Rattle.tx_model.specs.Transaction.{changes_in};
ghost use Rattle.tx_model.specs.Step.{Guard, step, accepted};

/// The entry of an accepted transaction is lawful after the history, whatever the guard and the
/// clock.
pub fn an_accepted_entry_is_lawful()
    ensures { (h : List Entry) (asked : Form) (guard : Guard) (reading : ℤ)
        → (entry : Entry) (tempids : List (List ℕ × ℕ))
        → IsLawful h
        → step h asked reading guard ≡ accepted entry tempids
        → IsLawfulAfter h entry }
{}

/// Of what is asked the changes alone are recorded, in one order: neither the order nor the number
/// of the asks matters.
pub fn changes_are_those_of_what_is_asked()
    ensures { (ds asked other : List Datom)
        → ((d : Datom) → Contains asked d ↔ Contains other d)
        → changes_in ds asked ≡ changes_in ds other }
{}

/// How large a lawful history can be: a transaction adds at most as many user entities as an entry
/// may have datoms. No law bounds them otherwise: whether there is room for more is what the rule
/// on fullness tests.
pub fn lawful_histories_are_small()
    ensures t { (h : List Entry) → IsLawful h → basis h ≤ greatest_t }
    ensures users_each { (h : List Entry) → IsLawful h → users_issued h ≤ most_datoms * basis h }
    ensures users { (h : List Entry) → IsLawful h → users_issued h < 2 ^ 47 }
{}
