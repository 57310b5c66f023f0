//! Laws of views and scans.
ghost use Rattle.std.specs.Prelude.{◌≡◌, ◌↔◌, ℕ, ◌+◌, ◌≤◌, Bool, false, List, ◌++◌, min, max, filter, Contains, IsTrue};
ghost use Rattle.fb_values.specs.declared.facts.Datom.{Datom};
ghost use Rattle.fb_values.specs.declared.facts.Entry.{Entry};
ghost use Rattle.fb_values.specs.declared.indexes.Order.{Order};
ghost use Rattle.fb_values.specs.Rising.{rises};
ghost use Rattle.fb_numbers.specs.Numbers.{greatest_t};
ghost use Rattle.fb_model.specs.History.{basis, said, upto};
ghost use Rattle.fb_model.specs.Facts.{facts};
ghost use Rattle.fb_model.specs.Lawful.{IsLawful};
ghost use Rattle.view_model.specs.Window.{Window, whole, as_of, since, is_within};
ghost use Rattle.view_model.specs.View.{seen, view, is_selected_by};
ghost use Rattle.view_model.specs.Scan.{Range, IsScan, scan};

/// What is seen was said, and lies in the window.
pub fn what_is_seen_was_said()
    ensures said { (h : List Entry) (w : Window) (d : Datom)
        → Contains (seen h w) d → Contains (said h) d }
    ensures within { (h : List Entry) (w : Window) (d : Datom)
        → Contains (seen h w) d → IsTrue (is_within w d) }
{}

/// As of the basis nothing is hidden, and as of a transaction the database is what it was then.
pub fn as_of_is_the_database_then()
    ensures basis { (h : List Entry) (w : Window)
        → IsLawful h → seen h (as_of (basis h + 1) w) ≡ seen h w }
    ensures then { (h : List Entry) (t : ℕ)
        → IsLawful h → t ≤ greatest_t → seen h (as_of (t + 1) whole) ≡ facts (upto h t) }
    ensures now { (h : List Entry) → IsLawful h → basis h ≤ greatest_t → seen h whole ≡ facts h }
{}

/// As-of and since in any order and number come to one window.
pub fn windows_compose()
    ensures as_of_twice { (a b : ℕ) (w : Window) → as_of a (as_of b w) ≡ as_of (min a b) w }
    ensures since_twice { (a b : ℕ) (w : Window) → since a (since b w) ≡ since (max a b) w }
    ensures either_first { (a b : ℕ) (w : Window) → as_of a (since b w) ≡ since b (as_of a w) }
{}

/// Filters apply one after another, and one more hides datoms and shows none.
pub fn filters_only_hide()
    ensures in_turn { (h : List Entry) (w : Window) (filters more : List (Datom → Bool))
        → view h w (filters ++ more) ≡ filter (is_selected_by more) (view h w filters) }
    ensures hides { (h : List Entry) (w : Window) (filters more : List (Datom → Bool)) (d : Datom)
        → Contains (view h w (filters ++ more)) d → Contains (view h w filters) d }
{}

/// What is seen since a point is seen without it: no fact comes back whose retraction is in the
/// window.
pub fn since_only_hides()
    ensures { (h : List Entry) (x : ℕ) (w : Window) (d : Datom)
        → IsLawful h → w.history ≡ false → Contains (seen h (since x w)) d → Contains (seen h w) d }
{}

/// The computed scan is the strictly rising list that a scan is to be, and there is no other.
pub fn a_scan_is_one_list()
    ensures is_scan { (h : List Entry) (w : Window) (filters : List (Datom → Bool)) (order : Order)
        (range : Range)
        → IsLawful h
        → IsScan h w (λ d. IsTrue (is_selected_by filters d)) order range
        (scan h w filters order range) }
    ensures one { (order : Order) (ds es : List Datom)
        → IsTrue (rises order ds) → IsTrue (rises order es)
        → ((d : Datom) → Contains ds d ↔ Contains es d) → ds ≡ es }
{}
