//! Laws of the walk and of the rules that need the schema alone.
ghost use Rattle.std.specs.Prelude.{◌≡◌, ℕ, List, map, length};
ghost use Rattle.edn_model.specs.Form.{Form};
ghost use Rattle.fb_values.specs.declared.facts.Datom.{Datom};
ghost use Rattle.fb_values.specs.declared.facts.Entry.{Entry};
ghost use Rattle.fb_model.specs.Facts.{facts};
ghost use Rattle.fb_model.specs.Lawful.{IsLawful};
ghost use Rattle.fb_model.specs.Schema.{attribute_named};
ghost use Rattle.tx_model.specs.Asks.{Ask};
ghost use Rattle.tx_model.specs.Tempids.{Db};
ghost use Rattle.tx_model.specs.Walk.{flat};
ghost use Rattle.tx_forms.specs.Parts.{parts_in};
ghost use Rattle.tx_asks.specs.Asks.{AreApart};
ghost use Rattle.tx_expand.specs.Known.{HaveOwnNames, IsLawfulSchema};
ghost use Rattle.tx_expand.specs.Numbered.{walk_forms, next_behind};
ghost use Rattle.tx_expand.specs.Placed.{ask_placed};
ghost use Rattle.tx_expand.specs.Rules.{schema_rules};

use fb_model::{attributes_stay_attributes, facts_are_what_holds, one_value_and_one_holder};
use fb_schema::schemas_tell_of_attributes;

/// What a transaction asks, and which of the rules it breaks that need the schema alone, depends on the attributes that
/// keywords name.
pub fn attributes_decide_what_is_asked()
    ensures asks { (one other : List Datom) (fs : List Form)
        → ((k : List ℕ) → attribute_named one k ≡ attribute_named other k)
        → flat one fs ≡ flat other fs }
    ensures rules { (one other : Db) (asks : List (List Ask))
        → ((k : List ℕ) → attribute_named one.facts k ≡ attribute_named other.facts k)
        → schema_rules one asks ≡ schema_rules other asks }
{}

/// In a lawful history an attribute that a keyword names has that keyword as its name.
pub fn attributes_have_their_names()
    ensures history { (h : List Entry) → IsLawful h → HaveOwnNames (facts h) }
    ensures schema { (schema : List Datom) → IsLawfulSchema schema → HaveOwnNames schema }
{
    facts_are_what_holds();
    one_value_and_one_holder();
    attributes_stay_attributes();
    schemas_tell_of_attributes();
}

/// No two maps of a transaction are at one place: where they are numbered in the order in which a reader meets them,
/// each number has a place of its own.
pub fn maps_have_places_of_their_own()
    ensures { (facts : List Datom) (fs : List Form)
        → (places : List (List ℕ))
        × (AreApart places
        × (length places ≡ next_behind facts 0 (map parts_in fs))
        × (map (map (ask_placed places)) (walk_forms facts 0 (map parts_in fs)) ≡ flat facts fs)) }
{}
