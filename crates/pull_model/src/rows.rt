//! Examples, by computation: pulls of small databases, as a user would ask for them.
ghost use Rattle.std.specs.Prelude.{◌≡◌, [], ◌∷◌, map, codes, pos, negsuc, Some, Ok};
ghost use Rattle.edn_model.specs.Form.{nil};
ghost use Rattle.fb_numbers.specs.Numbers.{user_entity, doc};
ghost use Rattle.fb_model.specs.Lawful.{IsLawful};
ghost use Rattle.view_model.specs.Window.{whole, as_of};
ghost use Rattle.view_model.specs.Names.{entity_named};
ghost use Rattle.view_model.specs.View.{facts_seen};
ghost use Rattle.view_model.specs.Samples.{texts, emails, by_email, hides_attribute};
ghost use Rattle.pull_model.specs.Samples.{home, homes, text, int, vector, map_of, star, dots, id, below, entity, tree_in, tree_over, tree_of, name, friend, friends, sku, orders, orders_retracted, some_number, numbers, numbers_hidden_below_0, number_forms, counted, renamed, with_default, with_limit, only, ann, name_is, friend_is, named, first_line, doc_word, unknown, numbered};

/// A text, under a key of its own and with a filter that hides it.
pub fn under_filters()
    ensures all_of_it { tree_of texts (star ∷ []) (user_entity 1)
        ≡ Ok (map_of ((id, int (user_entity 1)) ∷ (doc_word, text (codes "hi")) ∷ [])) }
    ensures filtered { tree_in texts whole (hides_attribute doc ∷ []) (only star)
        (user_entity 1)
        ≡ Ok (entity (user_entity 1)) }
    ensures nothing_left { tree_in texts whole (hides_attribute doc ∷ []) (only doc_word)
        (user_entity 1)
        ≡ Ok nil }
    ensures before_it { tree_in texts (as_of 1 whole) [] (only doc_word) (user_entity 1)
        ≡ Ok nil }
{}

/// A uri is given as a string.
pub fn a_home_page()
    ensures lawful { IsLawful homes }
    ensures told { tree_of homes (star ∷ []) (user_entity 1)
        ≡ Ok (map_of (
        (id, int (user_entity 1))
        ∷ (doc_word, text (codes "hi"))
        ∷ (home, text (codes "http://a"))
        ∷ [])) }
{}

/// A key in place of a name, and what is given for an attribute that the entity has not.
pub fn names_and_defaults()
    ensures { tree_of texts
        (renamed doc_word (text (codes "d")) ∷ with_default unknown (int 0) ∷ []) (user_entity 1)
        ≡ Ok (map_of ((text (codes "d"), text (codes "hi")) ∷ (unknown, int 0) ∷ [])) }
{}

/// An entity is found by a unique value.
pub fn one_by_its_email()
    ensures found { entity_named (facts_seen emails whole []) (by_email (codes "b@x"))
        ≡ Some (user_entity 3) }
    ensures told { tree_of emails (id ∷ []) (user_entity 3) ≡ Ok (entity (user_entity 3)) }
{}

/// Of an entity that was retracted nothing is given.
pub fn a_retracted_entity()
    ensures lawful { IsLawful orders_retracted }
    ensures before { tree_of orders (sku ∷ []) first_line ≡ Ok (below sku (text (codes "A"))) }
    ensures after { tree_of orders_retracted (sku ∷ []) first_line ≡ Ok nil }
{}

/// Two friends of each other: without an end, twice and once.
pub fn friends_of_friends()
    ensures lawful { IsLawful friends }
    ensures without_end { tree_of friends (name ∷ below friend dots ∷ []) ann
        ≡ Ok (map_of (
        name_is (codes "A")
        ∷ friend_is (map_of (name_is (codes "B") ∷ friend_is (entity ann) ∷ []))
        ∷ [])) }
    ensures twice { tree_of friends (name ∷ below friend (int 2) ∷ []) ann
        ≡ tree_of friends (name ∷ below friend dots ∷ []) ann }
    ensures once { tree_of friends (name ∷ below friend (int 1) ∷ []) ann
        ≡ Ok (map_of (name_is (codes "A") ∷ friend_is (named (codes "B")) ∷ [])) }
{}

/// The first thousand values, all of them, and the first thousand of those that a filter leaves.
pub fn many_numbers()
    ensures first_thousand { tree_over (numbers 1000) (only some_number) numbered
        ≡ Ok (below some_number (vector (number_forms (negsuc 0 ∷ map pos (counted 0 999))))) }
    ensures all { tree_over (numbers 1000) (only (with_limit some_number nil)) numbered
        ≡ Ok (below some_number (vector (number_forms (negsuc 0 ∷ map pos (counted 0 1000))))) }
    ensures filtered { tree_over (numbers_hidden_below_0 1000) (only some_number)
        numbered
        ≡ Ok (below some_number (vector (number_forms (map pos (counted 0 1000))))) }
{}
