//! Examples, by computation: `*` beside other items, reversed names, defaults, limits and skipped
//! items.
ghost use Rattle.std.specs.Prelude.{◌≡◌, [], ◌∷◌, codes, Ok};
ghost use Rattle.edn_model.specs.Form.{nil};
ghost use Rattle.fb_numbers.specs.Numbers.{user_entity};
ghost use Rattle.fb_model.specs.Lawful.{IsLawful};
ghost use Rattle.view_model.specs.Window.{whole};
ghost use Rattle.pull_model.specs.Samples.{key, text, int, vector, map_of, star, id, below, entity, tree_in, tree_of, name, friend, friend_of, friends, nameless_friend, lines, order_of, sku, orders, part_of, next, two_wholes, two_names, renamed, with_default, with_limit, only, ann, ben, name_is, friend_is, friend_of_is, named, the_order, first_line, both_lines, left, middle, twice_named, one_is_told, two_is_told, unknown};
ghost use Rattle.view_model.specs.Samples.{hides_attribute};

/// What `*` stands for.
pub fn wildcards()
    ensures lawful { IsLawful two_names }
    ensures by_the_bytes_of_names { tree_of two_names (star ∷ []) twice_named
        ≡ Ok (map_of ((id, int twice_named) ∷ two_is_told ∷ one_is_told ∷ [])) }
    ensures without_items_of_their_own { tree_of two_names
        (star ∷ renamed (key (codes "a.b/c")) (text (codes "c")) ∷ []) twice_named
        ≡ Ok
        (map_of ((id, int twice_named) ∷ one_is_told ∷ (text (codes "c"), text (codes "2")) ∷ [])) }
    ensures id_besides { tree_of two_names (star ∷ id ∷ []) twice_named
        ≡ tree_of two_names (star ∷ []) twice_named }
    ensures id_renamed { tree_of two_names (renamed id (text (codes "e")) ∷ star ∷ []) twice_named
        ≡ Ok (map_of (
        (text (codes "e"), int twice_named)
        ∷ (id, int twice_named)
        ∷ two_is_told
        ∷ one_is_told
        ∷ [])) }
    ensures reversed_besides { tree_of friends (star ∷ friend_of ∷ []) ann
        ≡ Ok (map_of (
        (id, int ann)
        ∷ friend_is (entity ben)
        ∷ name_is (codes "A")
        ∷ friend_of_is (entity ben)
        ∷ [])) }
    ensures of_no_facts { tree_of friends (star ∷ []) (user_entity 99)
        ≡ Ok (entity (user_entity 99)) }
    ensures parts_whole { tree_of orders (star ∷ []) the_order
        ≡ Ok (map_of ((id, int the_order) ∷ (lines, both_lines) ∷ [])) }
{}

/// The entities that refer to one; of a part's wholes the first alone counts.
pub fn reversed_names()
    ensures lawful { IsLawful two_wholes }
    ensures several { tree_of friends (friend_of ∷ []) ann
        ≡ Ok (below friend_of (only (entity ben))) }
    ensures with_a_pattern { tree_of friends (below friend_of (only name) ∷ []) ann
        ≡ Ok (below friend_of (only (named (codes "B")))) }
    ensures of_a_part { tree_of orders (order_of ∷ []) first_line
        ≡ Ok (below order_of (entity the_order)) }
    ensures first_whole { tree_of two_wholes (part_of ∷ []) middle
        ≡ Ok (below part_of (entity left)) }
    ensures first_whole_alone { tree_of two_wholes (below part_of (only next) ∷ []) middle
        ≡ Ok nil }
    ensures of_no_ref { tree_of friends (key (codes "f/_name") ∷ []) ann ≡ Ok nil }
    ensures of_no_attribute { tree_of friends (key (codes "x/_y") ∷ []) ann ≡ Ok nil }
{}

/// Defaults: only where the attribute is absent, also with a pattern below it that finds nothing.
pub fn defaults()
    ensures of_nil { tree_of friends (with_default unknown nil ∷ []) ann
        ≡ Ok (below unknown nil) }
    ensures not_needed { tree_of friends (with_default name (int 0) ∷ []) ann
        ≡ Ok (named (codes "A")) }
    ensures behind_everything { tree_of nameless_friend (star ∷ with_default name (int 0) ∷ []) ben
        ≡ Ok (map_of ((id, int ben) ∷ friend_is (entity ann) ∷ (name, int 0) ∷ [])) }
    ensures hidden { tree_in friends whole (hides_attribute (user_entity 1) ∷ [])
        (only (with_default name (int 0))) ann
        ≡ Ok (below name (int 0)) }
    ensures nothing_below { tree_of friends
        (below (with_default friend (text (codes "none"))) (only sku) ∷ []) ann
        ≡ Ok (below friend (text (codes "none"))) }
    ensures after_the_limit { tree_of nameless_friend
        (below
        (vector
        (friend ∷ key (codes "limit") ∷ int 1 ∷ key (codes "default") ∷ text (codes "none") ∷ []))
        (only name)
        ∷ [])
        ann
        ≡ Ok (below friend (text (codes "none"))) }
    ensures reversed { tree_of friends (with_default (key (codes "f/_name")) (vector []) ∷ []) ann
        ≡ Ok (below (key (codes "f/_name")) (vector [])) }
{}

/// An item is skipped where its key is there already; a limit counts before what is left out; a pattern below
/// values is ignored.
pub fn skipped_items()
    ensures lawful { IsLawful nameless_friend }
    ensures key_there { tree_of friends (name ∷ renamed friend name ∷ []) ann
        ≡ Ok (named (codes "A")) }
    ensures key_not_there { tree_of friends (renamed sku name ∷ name ∷ []) ann
        ≡ Ok (named (codes "A")) }
    ensures id_there { tree_of two_names (renamed (key (codes "a/b")) id ∷ star ∷ []) twice_named
        ≡ Ok (map_of ((id, text (codes "1")) ∷ two_is_told ∷ [])) }
    ensures limit_of_1 { tree_of nameless_friend (with_limit friend (int 1) ∷ []) ann
        ≡ Ok (below friend (only (entity ben))) }
    ensures limit_before_nil { tree_of nameless_friend
        (below (with_limit friend (int 1)) (only name) ∷ []) ann
        ≡ Ok nil }
    ensures limit_of_nil { tree_of nameless_friend (below (with_limit friend nil) (only name) ∷ [])
        ann
        ≡ Ok (below friend (only (named (codes "C")))) }
    ensures limit_of_one_value { tree_of orders (with_limit order_of (int 5) ∷ []) first_line
        ≡ tree_of orders (order_of ∷ []) first_line }
    ensures options_of_id { tree_of friends
        (vector (id ∷ key (codes "default") ∷ int 0 ∷ key (codes "limit") ∷ int 3 ∷ []) ∷ []) ann
        ≡ Ok (entity ann) }
    ensures below_values { tree_of friends (below name (only sku) ∷ []) ann
        ≡ Ok (named (codes "A")) }
    ensures times_below_values { tree_of friends (below name (int 1) ∷ []) ann
        ≡ Ok (named (codes "A")) }
{}
