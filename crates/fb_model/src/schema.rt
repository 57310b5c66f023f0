//! Facts and the schema in lawful histories.
ghost use Rattle.std.specs.Prelude.{◌≡◌, ℕ, List, [], ◌∷◌, ◌++◌, IsTrue, Contains, false};
ghost use Rattle.std.specs.List.{list_any};
ghost use Rattle.std.specs.Option.{option_map_or};
ghost use Rattle.fb_values.specs.declared.facts.Datom.{Datom};
ghost use Rattle.fb_values.specs.declared.facts.Entry.{Entry};
ghost use Rattle.fb_values.specs.declared.facts.Value.{Value};
ghost use Rattle.fb_values.specs.declared.facts.Value.TheVariants.{Ref};
ghost use Rattle.fb_numbers.specs.Numbers.{is_builtin};
ghost use Rattle.fb_model.specs.FirstEntry.{first_entry};
ghost use Rattle.fb_model.specs.History.{is_issued};
ghost use Rattle.fb_model.specs.Types.{is_of_type};
ghost use Rattle.fb_model.specs.Facts.{is_of, holds, Holds, facts};
ghost use Rattle.fb_model.specs.Schema.{attribute_of, is_attribute, is_one, is_unique, SaysNothingOf};
ghost use Rattle.fb_model.specs.Lawful.{IsLawful, IsLawfulAfter};

/// A triple holds where a fact is of it.
pub fn facts_are_what_holds()
    ensures { (h : List Entry) (e a : ℕ) (v : Value)
        → holds h e a v ≡ list_any (is_of e a v) (facts h) }
{}

/// In a lawful history an entity has one value of an attribute of cardinality one, and a value of a unique attribute has
/// one holder.
pub fn one_value_and_one_holder()
    ensures one_value { (h : List Entry) (e a : ℕ) (v w : Value) → IsLawful h
        → IsTrue (is_one (facts h) a) → Holds h e a v → Holds h e a w → v ≡ w }
    ensures one_holder { (h : List Entry) (e f a : ℕ) (v : Value) → IsLawful h
        → IsTrue (is_unique (facts h) a) → Holds h e a v → Holds h f a v → e ≡ f }
{}

/// An entity of which the new entry says nothing as an attribute is the attribute that it was.
pub fn the_schema_changes_by_the_entry_alone()
    ensures { (h : List Entry) (entry : Entry) (e : ℕ) → SaysNothingOf e entry.datoms
        → attribute_of (facts (h ++ entry ∷ [])) e ≡ attribute_of (facts h) e }
{}

/// An attribute stays one, and the built-in attributes stay as they are.
pub fn attributes_stay_attributes()
    ensures installed { (h : List Entry) (entry : Entry) (e : ℕ) → IsLawfulAfter h entry
        → IsTrue (is_attribute (facts h) e) → IsTrue (is_attribute (facts (h ++ entry ∷ [])) e) }
    ensures built_in { (e : ℕ) → IsTrue (is_builtin e) → (h : List Entry) → IsLawful h
        → attribute_of (facts h) e ≡ attribute_of (facts (first_entry ∷ [])) e }
{}

/// In a lawful history each fact is of an installed attribute and its type. Its entity's number is that of an entity, and so is its
/// value's, where its value is a reference.
pub fn facts_are_of_their_types()
    ensures installed { (h : List Entry) → IsLawful h → (d : Datom) → Contains (facts h) d
        → IsTrue (is_attribute (facts h) d.a) }
    ensures typed { (h : List Entry) → IsLawful h → (d : Datom) → Contains (facts h) d
        → IsTrue (option_map_or (λ attribute. is_of_type attribute.kind d.v)
        (attribute_of (facts h) d.a) false) }
    ensures issued { (h : List Entry) → IsLawful h → (d : Datom) → Contains (facts h) d
        → IsTrue (is_issued h d.e) }
    ensures referred { (h : List Entry) → IsLawful h → (d : Datom) → Contains (facts h) d → (n : ℕ)
        → d.v ≡ Ref n → IsTrue (is_issued h n) }
{}
