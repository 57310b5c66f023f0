//! Laws of points, names and components.
ghost use Rattle.std.specs.Prelude.{◌≡◌, ℕ, ◌+◌, ℤ, pos, ◌+ℤ◌, Bool, List, IsTrue, Option, option_map, Result, Err, ◌≤◌, ◌++◌, length};
ghost use Rattle.edn_model.specs.Form.{Form};
ghost use Rattle.fb_values.specs.declared.facts.Datom.{Datom};
ghost use Rattle.fb_values.specs.declared.facts.Entry.{Entry};
ghost use Rattle.fb_values.specs.declared.indexes.Order.{Order};
ghost use Rattle.fb_values.specs.declared.indexes.Probe.{Probe};
ghost use Rattle.view_model.specs.Window.{Window, end_of_number, end_of_instant};
ghost use Rattle.view_model.specs.View.{is_selected_by, facts_seen};
ghost use Rattle.view_model.specs.Scan.{Range};
ghost use Rattle.view_model.specs.Names.{Id, entity_named};
ghost use Rattle.read_refusals.specs.declared.reasons.Refusal.{Refusal};
ghost use Rattle.read_model.specs.Points.{t_of, count_before};
ghost use Rattle.read_model.specs.Finding.{IsNamed};
ghost use Rattle.read_model.specs.Components.{AreComponents, IsIndexRange, components, index_range};

/// What all filters of a view select together, by whatever predicate.
pub trait Selection {
    ghost selects: { Datom → Type 0 };
}

/// The end of a point is after the t that the log's range takes it for: after a t, and after the
/// last instant up to one.
pub fn points_agree()
    ensures numbers { (n : ℕ) → end_of_number n ≡ option_map (λ t. t + 1) (t_of n) }
    ensures instants { (h : List Entry) (z : ℤ) → end_of_instant h z ≡ count_before h (z +ℤ pos 1) }
{}

/// Under filters that are any predicates a name finds one entity or none.
pub fn a_name_finds_one_entity<S: Selection>()
    ensures { (h : List Entry) (w : Window) (id : Id) (x y : Option ℕ)
        → IsNamed h w S.selects id x → IsNamed h w S.selects id y → x ≡ y }
{}

/// Where filters are tests, a name finds the entity that it has by the facts seen.
pub fn names_are_found_by_tests()
    ensures { (h : List Entry) (w : Window) (filters : List (Datom → Bool)) (id : Id)
        → IsNamed h w (λ d. IsTrue (is_selected_by filters d)) id
        (entity_named (facts_seen h w filters) id) }
{}

/// Each list of forms comes to one probe or one refusal, and where filters are tests to the
/// computed one.
pub fn components_are_read_in_one_way<S: Selection>()
    ensures one { (h : List Entry) (w : Window) (order : Order) (fs : List Form)
        (x y : Result Probe Refusal)
        → AreComponents h w S.selects order fs x → AreComponents h w S.selects order fs y → x ≡ y }
    ensures computed { (h : List Entry) (w : Window) (filters : List (Datom → Bool)) (order : Order)
        (fs : List Form)
        → AreComponents h w (λ d. IsTrue (is_selected_by filters d)) order fs
        (components h w filters order fs) }
{}

/// The forms of a range of values come to one range or one refusal, and where filters are tests to the computed one.
pub fn ranges_are_read_in_one_way<S: Selection>()
    ensures one { (h : List Entry) (w : Window) (a start end : Form) (x y : Result Range Refusal)
        → IsIndexRange h w S.selects a start end x → IsIndexRange h w S.selects a start end y
        → x ≡ y }
    ensures computed { (h : List Entry) (w : Window) (filters : List (Datom → Bool))
        (a start end : Form)
        → IsIndexRange h w (λ d. IsTrue (is_selected_by filters d)) a start end
        (index_range h w filters a start end) }
{}

/// Components are read from left to right: what follows a place that fails makes no difference.
pub fn what_follows_a_refusal_does_not_tell<S: Selection>()
    ensures { (h : List Entry) (w : Window) (order : Order) (fs more : List Form) (r : Refusal)
        → length (fs ++ more) ≤ 4 → AreComponents h w S.selects order fs (Err r)
        → AreComponents h w S.selects order (fs ++ more) (Err r) }
{}
