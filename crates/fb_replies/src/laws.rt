//! What the lines of a lawful history rest on. The functions here are laws: each has no body of its own, and its contract is what is
//! proved.
ghost use Rattle.std.specs.Prelude.{◌≡◌, ℕ, List, Contains, IsTrue};
ghost use Rattle.fb_values.specs.declared.facts.Datom.{Datom};
ghost use Rattle.fb_values.specs.declared.facts.Entry.{Entry};
ghost use Rattle.fb_model.specs.History.{said};
ghost use Rattle.fb_model.specs.Facts.{facts};
ghost use Rattle.fb_model.specs.Lawful.{IsLawful};
ghost use Rattle.fb_schema.specs.Described.{SchemaStands};
ghost use Rattle.talk_model.specs.Replies.{datoms_reply, transactions_reply};
ghost use Rattle.fb_replies.specs.Texts.{have_texts, entries_have_texts};

use fb_schema::schemas_tell_of_attributes;

/// A reply that a history's schema names the attributes of is the one that all facts of the history name them of.
pub fn a_schema_tells_its_history()
    ensures datoms { (basis : ℕ) (schema : List Datom) (h : List Entry) (ds : List Datom)
        → SchemaStands schema h → datoms_reply basis schema ds ≡ datoms_reply basis (facts h) ds }
    ensures transactions { (basis : ℕ) (schema : List Datom) (h entries : List Entry)
        → SchemaStands schema h
        → transactions_reply basis schema entries ≡ transactions_reply basis (facts h) entries }
{
    schemas_tell_of_attributes();
}

/// Of a lawful history every value has a text: those of all datoms, of some of them, and of some entries.
pub fn what_is_said_has_a_text()
    ensures all { (h : List Entry) → IsLawful h → IsTrue (have_texts (said h)) }
    ensures some { (h : List Entry) (ds : List Datom) → IsLawful h
        → ((d : Datom) → Contains ds d → Contains (said h) d) → IsTrue (have_texts ds) }
    ensures entries { (h entries : List Entry) → IsLawful h
        → ((entry : Entry) → Contains entries entry → Contains h entry)
        → IsTrue (entries_have_texts entries) }
{}
