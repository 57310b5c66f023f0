//! Laws about tuples.
ghost use Rattle.std.specs.Prelude.{◌≡◌, ◌↔◌, ℕ, ◌≤◌, Bool, false, nat_eq, is_some, List, [], ◌∷◌, ◌++◌, Option, Some, None, Contains, IsTrue};
ghost use Rattle.std.specs.List.{list_any};
ghost use Rattle.edn_model.specs.Form.{Form};
ghost use Rattle.fb_values.specs.declared.facts.Datom.{Datom};
ghost use Rattle.fb_values.specs.declared.facts.Entry.{Entry};
ghost use Rattle.fb_numbers.specs.Numbers.{greatest_t};
ghost use Rattle.fb_model.specs.History.{basis};
ghost use Rattle.fb_model.specs.Facts.{facts};
ghost use Rattle.fb_model.specs.Lawful.{IsLawful};
ghost use Rattle.view_model.specs.Window.{Window, whole};
ghost use Rattle.view_model.specs.View.{is_selected_by};
ghost use Rattle.tuple_model.specs.Composite.{is_composite};
ghost use Rattle.tuple_model.specs.Tuples.{Tuple, Row, tuple_of, has_one_of, AreTuples, tuples, tuples_seen, range, is_bound};
ghost use Rattle.tuple_model.specs.Seen.{AreTuplesIn};
ghost use Rattle.tx_refusals.specs.declared.reasons.Bar.TheVariants.{UniqueTuple};
ghost use Rattle.tuple_model.specs.UniqueTuples.{IsBarred, bars_unique};
ghost use Rattle.tuple_model.specs.Given.{composite_in, kinds_of, bound_in};

/// What all filters of a view select together, by whatever predicate.
pub trait Selection {
    ghost selects: { Datom → Type 0 };
}

/// The computed list is the one rising list of a composite's tuples.
pub fn tuples_are_one_list()
    ensures computed { (facts : List Datom) (attrs : List ℕ)
        → AreTuples facts attrs (tuples facts attrs) }
    ensures one { (facts : List Datom) (attrs : List ℕ) (first second : List Row)
        → AreTuples facts attrs first
        → AreTuples facts attrs second
        → first ≡ second }
{}

/// A range of the tuples in a view is one list, which is computed where filters are tests. It may be
/// taken from the list of all, and in the whole view the tuples are those of the facts.
pub fn tuples_in_a_view_are_one_list<S: Selection>()
    ensures one { (h : List Entry) (w : Window) (attrs : List ℕ) (start end : Option Tuple)
        (first second : List Row)
        → AreTuplesIn h w S.selects attrs start end first
        → AreTuplesIn h w S.selects attrs start end second
        → first ≡ second }
    ensures computed { (h : List Entry) (w : Window) (filters : List (Datom → Bool))
        (attrs : List ℕ) (start end : Option Tuple)
        → AreTuplesIn h w (λ d. IsTrue (is_selected_by filters d)) attrs start end
        (range start end (tuples_seen h w filters attrs)) }
    ensures whole { (h : List Entry) (attrs : List ℕ) (rows : List Row)
        → IsLawful h → basis h ≤ greatest_t → ((d : Datom) → S.selects d)
        → AreTuplesIn h whole S.selects attrs None None rows ↔ AreTuples (facts h) attrs rows }
    ensures of_a_range { (h : List Entry) (w : Window) (attrs : List ℕ) (start end : Option Tuple)
        (rows : List Row)
        → AreTuplesIn h w S.selects attrs None None rows
        → AreTuplesIn h w S.selects attrs start end (range start end rows) }
{}

/// The list that is read from a command is a composite, and a bound that is read for it is one of
/// its bounds.
pub fn what_is_given_fits()
    ensures composite { (facts : List Datom) (given : Form) (attrs : List ℕ)
        → composite_in facts given ≡ Some attrs → IsTrue (is_composite facts attrs) }
    ensures bound { (facts : List Datom) (attrs : List ℕ) (given : Form) (bound : Tuple)
        → bound_in (kinds_of facts attrs) given ≡ Some (Some bound)
        → IsTrue (is_bound facts attrs bound) }
{}

/// An entity is in the list once.
pub fn an_entity_has_one_row()
    ensures { (facts : List Datom) (attrs : List ℕ) (rows : List Row) (x y : Row)
        → AreTuples facts attrs rows
        → Contains rows x
        → Contains rows y
        → x.e ≡ y.e
        → x ≡ y }
{}

/// An entity is in the list exactly if some member of its tuple is not nil.
pub fn a_tuple_has_a_value()
    ensures { (facts : List Datom) (attrs : List ℕ) (e : ℕ)
        → has_one_of facts attrs e ≡ list_any is_some (tuple_of facts attrs e) }
{}

/// The guard bars exactly the changes that are barred: it finds the other entity among those that
/// have facts.
pub fn the_guard_bars_what_is_barred()
    ensures { (lists : List (List (List ℕ))) (h : List Entry) (changes : List Datom)
        → bars_unique lists h changes ≡ Some UniqueTuple ↔ IsBarred lists h changes }
{}

/// An entry changes the tuples of its own entities alone, so a list of tuples can be kept from
/// entry to entry.
pub fn an_entry_tells_of_its_own_entities()
    ensures tuple { (h : List Entry) (entry : Entry) (attrs : List ℕ) (e : ℕ)
        → list_any (λ d. nat_eq d.e e) entry.datoms ≡ false
        → tuple_of (facts (h ++ entry ∷ [])) attrs e ≡ tuple_of (facts h) attrs e }
    ensures some { (h : List Entry) (entry : Entry) (attrs : List ℕ) (e : ℕ)
        → list_any (λ d. nat_eq d.e e) entry.datoms ≡ false
        → has_one_of (facts (h ++ entry ∷ [])) attrs e ≡ has_one_of (facts h) attrs e }
{}
