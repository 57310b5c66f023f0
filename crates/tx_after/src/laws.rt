//! What the lists of facts say of all facts after the changes.
ghost use Rattle.std.specs.Prelude.{◌≡◌, ℕ, Bool, List, length, filter, IsTrue};
ghost use Rattle.std.specs.List.{list_any};
ghost use Rattle.fb_values.specs.declared.facts.Datom.{Datom};
ghost use Rattle.fb_values.specs.declared.facts.Entry.{Entry};
ghost use Rattle.fb_model.specs.Facts as facts;
ghost use Rattle.fb_model.specs.Laws.{has_datoms_in_order, has_no_other_holder};
ghost use Rattle.fb_model.specs.Schema.{attribute_of, is_whole};
ghost use Rattle.fb_facts.specs.FactLists.{is_of_entity};
ghost use Rattle.tx_after.specs.After.{AreChanges, after, facts_of, facts_under, values_of};

/// The datoms of an entry that are in order are changes.
pub fn datoms_in_order_are_changes()
    ensures { (h : List Entry) (entry : Entry) → IsTrue (has_datoms_in_order h entry)
        → AreChanges entry.datoms }
{}

/// What only facts of one entity or one attribute can pass is asked of these alone.
pub fn what_is_asked_of_a_part_is_asked_of_it_alone()
    ensures entity { (h : List Entry) (changes : List Datom) (e : ℕ) (test : Datom → Bool)
        → ((d : Datom) → IsTrue (test d) → d.e ≡ e)
        → list_any test (facts_of h changes e) ≡ list_any test (after h changes) }
    ensures attribute { (h : List Entry) (changes : List Datom) (a : ℕ) (test : Datom → Bool)
        → ((d : Datom) → IsTrue (test d) → d.a ≡ a)
        → list_any test (facts_under h changes a) ≡ list_any test (after h changes) }
    ensures holder { (h : List Entry) (changes : List Datom) (d : Datom)
        → has_no_other_holder (facts_under h changes d.a) d
        ≡ has_no_other_holder (after h changes) d }
{}

/// The values that are listed are as many as all values of the entity under the attribute.
pub fn values_are_as_many()
    ensures { (h : List Entry) (changes : List Datom) (e a : ℕ)
        → length (values_of h changes e a) ≡ length (facts.values_of (after h changes) e a) }
{}

/// What holds of an entity is among its own facts.
pub fn what_is_said_of_an_entity_is_in_its_facts()
    ensures values { (all : List Datom) (e a : ℕ)
        → facts.values_of (filter (is_of_entity e) all) e a ≡ facts.values_of all e a }
    ensures attribute { (all : List Datom) (e : ℕ)
        → attribute_of (filter (is_of_entity e) all) e ≡ attribute_of all e }
    ensures whole { (all : List Datom) (e : ℕ)
        → is_whole (filter (is_of_entity e) all) e ≡ is_whole all e }
{}
