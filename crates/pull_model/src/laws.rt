//! Laws of pulls.
ghost use Rattle.std.specs.Prelude.{◌≡◌, ◌≢◌, ◌↔◌, ℕ, ◌+◌, ◌-◌, ◌<◌, ◌≤◌, max, Bool, true, false, List, [], ◌∷◌, ◌++◌, map, fold, drop, get_or, length, nat_eq, is_some, is_none, Contains, IsTrue, Some, None, Result};
ghost use Rattle.std.specs.Option.{option_or};
ghost use Rattle.edn_model.specs.Form.{Form, pairs};
ghost use Rattle.edn_model.specs.Likeness.{distinct, keys};
ghost use Rattle.edn_values.specs.Values.{form_of_value};
ghost use Rattle.fb_values.specs.declared.facts.Datom.{Datom};
ghost use Rattle.fb_values.specs.declared.facts.Entry.{Entry};
ghost use Rattle.fb_values.specs.declared.indexes.Order.TheVariants.{Eavt};
ghost use Rattle.fb_values.specs.Rising.{rises};
ghost use Rattle.fb_numbers.specs.Numbers.{type_ref};
ghost use Rattle.fb_model.specs.Facts.{values_of};
ghost use Rattle.fb_model.specs.Schema.{Attribute};
ghost use Rattle.fb_model.specs.Lawful.{IsLawful};
ghost use Rattle.read_refusals.specs.declared.reasons.Reason.{Reason};
ghost use Rattle.view_model.specs.Window.{Window};
ghost use Rattle.view_model.specs.View.{is_selected_by};
ghost use Rattle.pull_model.specs.Patterns.{Options, Pattern, Item, attribute, Below, is_reversed, limit_of};
ghost use Rattle.pull_model.specs.Reading.{pattern_of, first_bad_item};
ghost use Rattle.pull_model.specs.Found.{Db, IsDb, meant, put_name};
ghost use Rattle.pull_model.specs.Made.{Made, Inside, nothing, limited, collected, or_default, maps_made, depth_made, enclosed};
ghost use Rattle.pull_model.specs.Tree.{items_from, pull_below, with_item, key_of_item, made_of, inside, tree};
ghost use Rattle.pull_model.specs.Measures.{AreInOrder, is_path, without_attribute, most_levels};
ghost use Rattle.pull_model.specs.Pull.{most_around, answered, pulled, pull, IsPulled};

use read_model::Selection;

/// A form is a pattern, or it has a first bad item.
pub fn a_pattern_has_no_bad_item()
    ensures { (form : Form) → is_some (pattern_of form) ≡ is_none (first_bad_item form) }
{}

/// The keys of a tree are in the order of the items, and no two are alike.
pub fn keys_stand_once_and_in_the_order_of_items()
    ensures once { (trees : Pattern → List ℕ → ℕ → Made) (db : Db) (pattern : Pattern)
        (above : List ℕ) (e : ℕ)
        → distinct (keys (pairs (inside trees db pattern above e).pairs)) ≡ true }
    ensures in_order { (trees : Pattern → List ℕ → ℕ → Made) (db : Db) (pattern : Pattern)
        (above : List ℕ) (e : ℕ)
        → AreInOrder (map (λ p. p.0) (inside trees db pattern above e).pairs)
        (map (λ p. key_of_item p.1) (items_from db e pattern 0 pattern)) }
{}

/// An attribute whose facts a filter hides is given as the name of no attribute is: by its default
/// or not at all.
pub fn a_hidden_attribute_is_absent()
    ensures hidden { (trees : Pattern → List ℕ → ℕ → Made) (db : Db) (pattern : Pattern)
        (above : List ℕ) (e place : ℕ) (name : List ℕ) (options : Options) (below : Below)
        (a : Attribute)
        → meant db name ≡ Some a
        → made_of trees (without_attribute a.id db) pattern above e place
        (attribute name options below)
        ≡ or_default options.default nothing }
    ensures no_attribute { (trees : Pattern → List ℕ → ℕ → Made) (db : Db) (pattern : Pattern)
        (above : List ℕ) (e place : ℕ) (name : List ℕ) (options : Options) (below : Below)
        → meant db name ≡ None
        → made_of trees db pattern above e place (attribute name options below)
        ≡ or_default options.default nothing }
{}

/// A limit counts the values that the view shows.
pub fn a_limit_counts_after_the_filters()
    ensures { (trees : Pattern → List ℕ → ℕ → Made) (db : Db) (pattern : Pattern) (above : List ℕ)
        (e place : ℕ) (name : List ℕ) (options : Options) (below : Below) (a : Attribute)
        → is_reversed name ≡ false → meant db name ≡ Some a → nat_eq a.kind type_ref ≡ false
        → a.many ≡ true
        → (made_of trees db pattern above e place (attribute name options below)).form
        ≡ option_or
        (collected true (map form_of_value (limited (limit_of options) (values_of db.seen e a.id))))
        options.default }
{}

/// No entity is on a path twice, so it makes no difference how trees would be made there.
pub fn no_entity_is_twice_on_a_path()
    ensures { (trees others : Pattern → List ℕ → ℕ → Made) (db : Db) (pattern : Pattern)
        (above : List ℕ) (e : ℕ)
        → (
        (inner : Pattern) (path : List ℕ) (n : ℕ) → is_path (n ∷ path) ≡ true
        → others inner path n ≡ trees inner path n) → is_path (e ∷ above) ≡ true
        → inside others db pattern above e ≡ inside trees db pattern above e }
{}

/// A tree ends, whatever refers to what: with more room than its pattern and its facts call for it
/// is the same.
pub fn a_tree_is_finite()
    ensures { (db : Db) (pattern : Pattern) (e more : ℕ)
        → tree (most_levels db pattern + more) db pattern [] e
        ≡ tree (most_levels db pattern) db pattern [] e }
{}

/// What a map inside 256 others holds makes no difference: with more room the answer is the same.
pub fn the_room_is_enough()
    ensures { (db : Db) (pattern : Pattern) (e more : ℕ)
        → answered (tree (most_around + more) db pattern [] e)
        ≡ answered (tree most_around db pattern [] e) }
{}

/// Where filters are tests, the computed answer is the one that a pull gives. The schema and the
/// facts in view decide it: two lists of the same facts give one answer.
pub fn a_pull_has_one_answer()
    ensures computed { (h : List Entry) (w : Window) (filters : List (Datom → Bool))
        (pattern : Pattern) (e : ℕ)
        → IsLawful h
        → IsPulled h w (λ d. IsTrue (is_selected_by filters d)) pattern e
        (pull h w filters pattern e) }
    ensures one { (a b : Db) (in_history : Bool) (pattern : Pattern) (e : ℕ)
        → a.schema ≡ b.schema → IsTrue (rises Eavt a.seen) → IsTrue (rises Eavt b.seen)
        → ((d : Datom) → Contains a.seen d ↔ Contains b.seen d)
        → pulled in_history a pattern e ≡ pulled in_history b pattern e }
{}

/// Whatever filters select, a view cannot be without the list of its facts, though no test may make
/// it. So what is said over every such list is not said of nothing: two answers of a pull cannot be
/// unequal.
pub fn a_view_is_not_without_a_list<S: Selection>()
    ensures list { (h : List Entry) (w : Window)
        → IsLawful h → ((db : Db) → IsDb h w S.selects db → ⊥) → ⊥ }
    ensures answers { (h : List Entry) (w : Window) (pattern : Pattern) (e : ℕ)
        (answer other : Result Form Reason)
        → IsLawful h → IsPulled h w S.selects pattern e answer
        → IsPulled h w S.selects pattern e other → (answer ≡ other → ⊥) → ⊥ }
{}

/// What is made stays counted: each further item leaves at least as many maps, as deep, and so does
/// each further entity, which makes at least one map.
pub fn counts_only_grow()
    ensures items { (made : ℕ → Item → Made) (before : Inside) (list : List (ℕ × Item))
        → (before.maps ≤ (fold (with_item made) before list).maps)
        × (before.depth ≤ (fold (with_item made) before list).depth) }
    ensures lists { (before more : List Made)
        → (maps_made (before ++ more) ≡ maps_made before + maps_made more)
        × (depth_made (before ++ more) ≡ max (depth_made before) (depth_made more)) }
    ensures each { (room : ℕ) (db : Db) (pattern : Pattern) (place : ℕ) (path : List ℕ)
        (parts : Bool) (below : Below) (n : ℕ)
        → (1 ≤ (pull_below (tree room db) pattern place path parts below n).maps)
        × (1 ≤ (pull_below (tree room db) pattern place path parts below n).depth) }
{}

/// A name that is put in order twice is there once: of several datoms of one attribute one is
/// enough.
pub fn a_name_put_twice_is_there_once()
    ensures { (name : List ℕ) (names : List (List ℕ))
        → put_name name (put_name name names) ≡ put_name name names }
{}

/// A tree with room left is a map made of the trees with one less room, item by item.
pub fn a_tree_is_made_item_by_item()
    ensures room { (room : ℕ) (db : Db) (pattern : Pattern) (above : List ℕ) (e : ℕ)
        → room ≢ 0
        → enclosed (inside (tree (room - 1) db) db pattern above e) ≡ tree room db pattern above e }
    ensures items { (made : ℕ → Item → Made) (before : Inside) (list : List (ℕ × Item)) (n : ℕ)
        (next : ℕ × Item)
        → n < length list → next ≡ get_or list n next
        → fold (with_item made) (with_item made before next) (drop (n + 1) list)
        ≡ fold (with_item made) before (drop n list) }
{}
