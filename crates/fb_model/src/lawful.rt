//! Lawful histories.
ghost use Rattle.std.specs.Prelude.{◌≡◌, ℕ, ℤ, ◌<◌, ◌≤◌, int_lt, ◌+◌, List, [], ◌∷◌, ◌++◌, length, IsTrue, IsUtf8, Contains, None, ◌↔◌};
ghost use Rattle.std.specs.declared.cmp.Ordering.TheVariants.{Equal};
ghost use Rattle.fb_values.specs.declared.facts.Datom.{Datom};
ghost use Rattle.fb_values.specs.declared.facts.Entry.{Entry};
ghost use Rattle.fb_values.specs.declared.indexes.Order.{Order};
ghost use Rattle.fb_values.specs.Orders.{key_cmp};
ghost use Rattle.fb_numbers.specs.Numbers.{is_instant, greatest_t, greatest_instant};
ghost use Rattle.fb_model.specs.FirstEntry.{first_entry};
ghost use Rattle.fb_model.specs.History.{basis, last_instant, said};
ghost use Rattle.fb_model.specs.TextEntry.{text_entry};
ghost use Rattle.fb_model.specs.Lawful.{IsLawful, IsLawfulAfter, least_law};

pub fn first_is_lawful()
    ensures { IsLawful (first_entry ∷ []) }
{}

/// A lawful history with an entry that may follow it is lawful, and there are no others.
pub fn lawful_entries_make_lawful_histories()
    ensures made { (h : List Entry) (entry : Entry) → IsLawful h → IsLawfulAfter h entry
        → IsLawful (h ++ entry ∷ []) }
    ensures taken_apart { (first : Entry) (rest : List Entry) (entry : Entry)
        → IsLawful ((first ∷ rest) ++ entry ∷ [])
        → IsLawful (first ∷ rest) × IsLawfulAfter (first ∷ rest) entry }
{}

/// Entry t is at place t, and the last instant is in its range.
pub fn lawful_histories_are_counted_by_t()
    ensures counted { (h : List Entry) → IsLawful h → length h ≡ basis h + 1 }
    ensures instant { (h : List Entry) → IsLawful h → IsTrue (is_instant (last_instant h)) }
{}

/// In a lawful history datoms with equal keys are one datom: none is recorded as added and as retracted by the same transaction.
pub fn equal_keys_are_one_datom()
    ensures { (h : List Entry) → IsLawful h → (order : Order) (x y : Datom) → Contains (said h) x
        → Contains (said h) y → key_cmp order x y ≡ Equal → x ≡ y }
{}

/// An entry may follow a history where it breaks no law.
pub fn the_least_law_is_none_where_all_are_kept()
    ensures { (h : List Entry) (entry : Entry)
        → (least_law h entry ≡ None) ↔ IsLawfulAfter h entry }
{}

/// A new entity may be given a text in UTF-8, where there is room for one more transaction and the text is not too long.
pub fn a_text_of_a_new_entity_is_lawful()
    ensures { (h : List Entry) (reading : ℤ) (text : List ℕ) → IsLawful h → basis h < greatest_t
        → IsTrue (int_lt (last_instant h) greatest_instant) → IsUtf8 text → length text ≤ 1048576
        → IsLawfulAfter h (text_entry h reading text) }
{}
