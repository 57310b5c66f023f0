//! Examples, by computation: recursion and its path, and parts that are given whole.
ghost use Rattle.std.specs.Prelude.{◌≡◌, [], ◌∷◌, codes, Ok};
ghost use Rattle.fb_model.specs.Lawful.{IsLawful};
ghost use Rattle.pull_model.specs.Samples.{text, int, vector, map_of, star, dots, id, below, entity, tree_of, name, friend, friend_of, friends, nameless_friend, lines, order_of, sku, orders, part, next, circle, with_default, only, ann, ben, cleo, name_is, friend_is, friend_of_is, named, the_order, first_line, both_lines, left, right_in_left};

/// An item whose number is used up is left out: it gives no default, and `*` stands for its
/// attribute again.
pub fn recursion()
    ensures no_default_at_the_end { tree_of friends
        (name ∷ below (with_default friend (text (codes "none"))) (int 1) ∷ []) ann
        ≡ Ok (map_of (name_is (codes "A") ∷ friend_is (named (codes "B")) ∷ [])) }
    ensures default_before_the_end { tree_of nameless_friend
        (name ∷ below (with_default friend (text (codes "none"))) (int 1) ∷ []) cleo
        ≡ Ok (map_of (name_is (codes "C") ∷ (friend, text (codes "none")) ∷ [])) }
    ensures everything_at_the_end { tree_of friends (star ∷ below friend (int 1) ∷ []) ann
        ≡ Ok (map_of (
        (id, int ann)
        ∷ name_is (codes "A")
        ∷ friend_is (map_of ((id, int ben) ∷ friend_is (entity ann) ∷ name_is (codes "B") ∷ []))
        ∷ [])) }
    ensures what_is_left_is_nothing { tree_of friends (below friend (int 1) ∷ []) ann
        ≡ tree_of friends (below sku dots ∷ []) ann }
    ensures each_its_own_number { tree_of friends
        (name ∷ map_of ((friend, int 1) ∷ (friend_of, int 1) ∷ []) ∷ []) ann
        ≡ Ok (map_of (
        name_is (codes "A")
        ∷ friend_is (map_of (name_is (codes "B") ∷ friend_of_is (entity ann) ∷ []))
        ∷ friend_of_is (map_of (name_is (codes "B") ∷ friend_is (entity ann) ∷ []))
        ∷ [])) }
{}

/// The items of one pattern share its path; a pattern below an item has a path of its own.
pub fn paths()
    ensures shared { tree_of friends (name ∷ map_of ((friend, dots) ∷ (friend_of, dots) ∷ []) ∷ [])
        ann
        ≡ Ok (map_of (
        name_is (codes "A")
        ∷ friend_is
        (map_of (name_is (codes "B") ∷ friend_is (entity ann) ∷ friend_of_is (entity ann) ∷ []))
        ∷ friend_of_is
        (map_of (name_is (codes "B") ∷ friend_is (entity ann) ∷ friend_of_is (entity ann) ∷ []))
        ∷ [])) }
    ensures of_its_own { tree_of friends
        (below friend (vector (name ∷ below friend dots ∷ [])) ∷ []) ann
        ≡ Ok (below friend (only (map_of (
        name_is (codes "B")
        ∷ friend_is (map_of (name_is (codes "A") ∷ friend_is (entity ben) ∷ []))
        ∷ [])))) }
{}

/// Parts are given whole, unless they are on the path; a pattern from a part to its whole and back
/// begins anew.
pub fn parts()
    ensures lawful { IsLawful circle }
    ensures from_a_part { tree_of orders (below order_of (only lines) ∷ []) first_line
        ≡ Ok (below order_of (below lines both_lines)) }
    ensures in_a_circle { tree_of circle (part ∷ []) left
        ≡ Ok (below part (only right_in_left)) }
    ensures with_recursion { tree_of circle (part ∷ below next dots ∷ []) left
        ≡ Ok
        (map_of ((part, only right_in_left) ∷ (next, below part (only (entity left))) ∷ [])) }
    ensures with_a_pattern { tree_of orders (below lines (only sku) ∷ []) the_order
        ≡ Ok
        (below lines (vector (below sku (text (codes "A")) ∷ below sku (text (codes "B")) ∷ []))) }
{}
