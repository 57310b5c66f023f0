//! Examples, by computation: which forms are patterns, and the first item that is none.
ghost use Rattle.std.specs.Prelude.{◌≡◌, [], ◌∷◌, codes, negsuc, None, Some};
ghost use Rattle.edn_model.specs.Form.{nil, integer, symbol, list, forms};
ghost use Rattle.pull_model.specs.Patterns.{wildcard, own, attribute, usual, under, times, unlimited, no_options, first, all};
ghost use Rattle.pull_model.specs.Reading.{pattern_of, first_bad_item};
ghost use Rattle.pull_model.specs.Samples.{key, text, int, vector, map_of, star, dots, id, below, with, name, friend, friend_of, renamed, with_default, with_limit, only, pattern_with, bare, as_alone, default_alone, limit_alone, doc_word};

/// What is read of a pattern with an item of each form.
pub fn patterns()
    ensures items { pattern_of (vector (
        name
        ∷ id
        ∷ star
        ∷ below friend_of (only id)
        ∷ map_of ((friend, int 2) ∷ (friend_of, dots) ∷ [])
        ∷ []))
        ≡ Some (pattern_with (
        bare (codes "f/name") usual
        ∷ own no_options
        ∷ wildcard
        ∷ bare (codes "f/_friend") (under (pattern_with (own no_options ∷ [])))
        ∷ bare (codes "f/friend") (times 2)
        ∷ bare (codes "f/_friend") unlimited
        ∷ [])) }
    ensures with_options { pattern_of (vector (
        vector (name ∷ key (codes "limit") ∷ nil ∷ key (codes "as") ∷ text (codes "n") ∷ [])
        ∷ renamed id (key (codes "n"))
        ∷ below (with_limit friend (int 5)) dots
        ∷ []))
        ≡ Some (pattern_with (
        attribute (codes "f/name")
        (record { renamed = Some (text (codes "n")); default = None; limit = Some all }) usual
        ∷ own (as_alone (key (codes "n")))
        ∷ attribute (codes "f/friend") (limit_alone (first 5)) unlimited
        ∷ [])) }
    ensures default_of_nil { pattern_of (only (with_default name nil))
        ≡ Some (pattern_with (attribute (codes "f/name") (default_alone nil) usual ∷ [])) }
{}

/// Options that are given, and some that no item may have.
pub fn options()
    ensures limit { first_bad_item (only (with_limit name (int 2147483647))) ≡ None }
    ensures limit_of_0 { first_bad_item (only (with_limit name (int 0))) ≡ Some 0 }
    ensures limit_below_0 { first_bad_item (only (with_limit name (integer (negsuc 0)))) ≡ Some 0 }
    ensures too_great_a_limit { first_bad_item (only (with_limit name (int 2147483648))) ≡ Some 0 }
    ensures renamed_by_a_number { first_bad_item (only (renamed name (int 1))) ≡ Some 0 }
    ensures twice { first_bad_item (vector (
        vector (name ∷ key (codes "as") ∷ key (codes "a") ∷ key (codes "as") ∷ key (codes "b") ∷ [])
        ∷ []))
        ≡ Some 0 }
    ensures without_one { first_bad_item (vector (only name ∷ [])) ≡ Some 0 }
    ensures without_its_value { first_bad_item (vector (vector (name ∷ key (codes "as") ∷ []) ∷ []))
        ≡ Some 0 }
    ensures of_no_such_name { first_bad_item
        (vector (with name (codes "xform") (key (codes "f")) ∷ []))
        ≡ Some 0 }
    ensures before_the_name { first_bad_item
        (only (vector (symbol (codes "limit") ∷ friend ∷ int 1 ∷ [])))
        ≡ Some 0 }
    ensures in_a_list { first_bad_item
        (only (list (forms (symbol (codes "limit") ∷ friend ∷ int 1 ∷ []))))
        ≡ Some 0 }
    ensures of_everything { first_bad_item (only (with_limit star (int 1))) ≡ Some 0 }
{}

/// Forms that are no patterns, with the place of the first bad item of the outermost one.
pub fn no_patterns()
    ensures no_vector { first_bad_item star ≡ Some 0 }
    ensures empty { first_bad_item (vector []) ≡ Some 0 }
    ensures a_number { first_bad_item (vector (doc_word ∷ int 5 ∷ [])) ≡ Some 1 }
    ensures fifth { first_bad_item
        (vector (name ∷ id ∷ star ∷ friend ∷ text (codes "f/name") ∷ int 5 ∷ []))
        ≡ Some 4 }
    ensures text_of_everything { first_bad_item (only (text (codes "*"))) ≡ Some 0 }
    ensures text_of_dots { first_bad_item (only (below friend (text (codes "...")))) ≡ Some 0 }
    ensures another_symbol { first_bad_item (only dots) ≡ Some 0 }
    ensures second_pair { first_bad_item
        (vector (name ∷ map_of ((friend, only id) ∷ (friend_of, int 0) ∷ []) ∷ int 5 ∷ []))
        ≡ Some 1 }
    ensures a_map_counts_once { first_bad_item
        (vector (map_of ((friend, only id) ∷ (friend_of, int 1) ∷ []) ∷ int 5 ∷ []))
        ≡ Some 1 }
    ensures empty_map { first_bad_item (only (map_of [])) ≡ Some 0 }
    ensures inside { first_bad_item
        (vector (name ∷ below friend (vector (name ∷ name ∷ int 5 ∷ [])) ∷ []))
        ≡ Some 1 }
    ensures empty_inside { first_bad_item (only (below friend (vector []))) ≡ Some 0 }
    ensures id_as_a_key { first_bad_item (only (below id (only star))) ≡ Some 0 }
    ensures id_with_options_as_a_key { first_bad_item
        (only (below (renamed id (text (codes "x"))) (only star)))
        ≡ Some 0 }
    ensures everything_as_a_key { first_bad_item (only (below star (only star))) ≡ Some 0 }
    ensures too_many_times { first_bad_item (only (below friend (int 2147483648))) ≡ Some 0 }
{}
