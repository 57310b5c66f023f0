//! Examples, by computation, and what follows of the definition.
ghost use Rattle.std.specs.Prelude.{◌≡◌, [], ◌∷◌, codes, List, Some, None};
ghost use Rattle.fb_values.specs.declared.facts.Datom.{Datom};
ghost use Rattle.fb_values.specs.declared.facts.Entry.{Entry};
ghost use Rattle.tx_refusals.specs.declared.reasons.Bar.TheVariants.{AttrPred, MissingRequired};
ghost use Rattle.tx_refusals.specs.declared.reasons.Reason.TheVariants.{Barred, NotAnAttribute};
ghost use Rattle.tx_model.specs.Samples.{keyword, string, number, tempid, user, add, retract, retract_all, retract_entity, ident, refusal_at, decided, accepted_at};
ghost use Rattle.tx_model.specs.SampleHistories.{new_database};
ghost use Rattle.tx_model.specs.SamplePeople.{install_email, person, with_email_installed, one_person};
ghost use Rattle.fb_numbers.specs.Numbers.{user_entity};
ghost use Rattle.fb_checks.specs.Checks.{bars_of};
ghost use Rattle.fb_checks.specs.Shipped.{doc, email, shipped_guard};
ghost use Rattle.fb_checks.specs.Samples.{no_attribute, nothing_of_no_attribute, address_needs_no_attribute, no_attribute_needs_address, described, described_person, described_people, one_empty_text, decision_under, accepted_under};

/// Without a test and a need nothing is barred.
pub fn no_checks_bar_nothing()
    ensures { (h : List Entry) (changes : List Datom) → bars_of [] [] h changes ≡ None }
{}

/// An added value has to pass: what is retracted has not, nor has what another attribute's value is. A name of no attribute
/// is no attribute's.
pub fn values()
    ensures empty { decision_under shipped_guard new_database
        (described (tempid (codes "x")) [] ∷ [])
        ≡ refusal_at (Barred AttrPred) 0 }
    ensures unguarded { decided new_database (described (tempid (codes "x")) [] ∷ [])
        ≡ accepted_at 1 ((codes "x", user_entity 1) ∷ []) }
    ensures blank { accepted_under shipped_guard new_database
        (described (tempid (codes "x")) (codes " ") ∷ [])
        ≡ Some 1 }
    ensures retracted { accepted_under shipped_guard one_empty_text
        (retract (user 1) doc (string []) ∷ [])
        ≡ Some 2 }
    ensures other_attribute { accepted_under shipped_guard with_email_installed
        (described_person (codes "p") [] (codes "d") ∷ [])
        ≡ Some 2 }
    ensures no_attribute { accepted_under nothing_of_no_attribute new_database
        (described (tempid (codes "x")) [] ∷ [])
        ≡ Some 1 }
{}

/// What an entity has is what holds after the changes.
pub fn entities()
    ensures lacking { decision_under shipped_guard with_email_installed
        (person (codes "p") (codes "a@x") ∷ [])
        ≡ refusal_at (Barred MissingRequired) 0 }
    ensures both { accepted_under shipped_guard with_email_installed
        (described_person (codes "p") (codes "a@x") (codes "d") ∷ [])
        ≡ Some 2 }
    ensures lost { decision_under shipped_guard described_people (retract_all (user 2) doc ∷ [])
        ≡ refusal_at (Barred MissingRequired) 0 }
    ensures moved { decision_under shipped_guard described_people
        (retract_all (user 2) doc ∷ described (user 3) (codes "d") ∷ [])
        ≡ refusal_at (Barred MissingRequired) 0 }
    ensures replaced { accepted_under shipped_guard described_people
        (described (user 2) (codes "f") ∷ [])
        ≡ Some 3 }
    ensures both_lost { accepted_under shipped_guard described_people
        (retract_all (user 2) doc ∷ retract_all (user 2) email ∷ [])
        ≡ Some 3 }
    ensures whole_entity { accepted_under shipped_guard described_people
        (retract_entity (user 2) ∷ [])
        ≡ Some 3 }
{}

/// An entity is asked when something of it changes: one that lacked something before stays as it is until then.
pub fn entities_of_changes()
    ensures untouched { accepted_under shipped_guard one_person
        (described (tempid (codes "q")) (codes "e") ∷ [])
        ≡ Some 3 }
    ensures touched { decision_under shipped_guard one_person
        (add (user 2) ident (keyword (codes "p/q")) ∷ [])
        ≡ refusal_at (Barred MissingRequired) 0 }
    ensures mended { accepted_under shipped_guard one_person
        (described (user 2) (codes "d") ∷ [])
        ≡ Some 3 }
{}

/// A need of no attribute cannot be met, and what no attribute needs is needed by nobody.
pub fn names_of_no_attribute()
    ensures needed { decision_under address_needs_no_attribute with_email_installed
        (described_person (codes "p") (codes "a@x") (codes "d") ∷ [])
        ≡ refusal_at (Barred MissingRequired) 0 }
    ensures other_entity { accepted_under address_needs_no_attribute with_email_installed
        (described (tempid (codes "p")) (codes "d") ∷ [])
        ≡ Some 2 }
    ensures marker { accepted_under no_attribute_needs_address with_email_installed
        (described (tempid (codes "p")) (codes "d") ∷ [])
        ≡ Some 2 }
    ensures not_yet { accepted_under shipped_guard new_database install_email ≡ Some 1 }
{}

/// The other rules come first, then values, then entities.
pub fn order()
    ensures values_first { decision_under shipped_guard with_email_installed
        (person (codes "p") (codes "a@x") ∷ described (tempid (codes "q")) [] ∷ [])
        ≡ refusal_at (Barred AttrPred) 0 }
    ensures rules_first { decision_under shipped_guard with_email_installed
        (described (tempid (codes "q")) []
        ∷ add (tempid (codes "q")) no_attribute (number 1)
        ∷ [])
        ≡ refusal_at NotAnAttribute 1 }
{}
