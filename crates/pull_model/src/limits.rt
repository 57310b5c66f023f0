//! Examples, by computation: refusals, and the maps that count.
ghost use Rattle.std.specs.Prelude.{◌≡◌, [], ◌∷◌, codes, Some, None, Ok, Err, true, false};
ghost use Rattle.edn_model.specs.Form.{nil};
ghost use Rattle.fb_numbers.specs.Numbers.{user_entity, ident as db_ident};
ghost use Rattle.read_refusals.specs.declared.reasons.Reason.TheVariants.{History, TooLarge};
ghost use Rattle.view_model.specs.Window.{whole, with_history};
ghost use Rattle.view_model.specs.View.{facts_seen};
ghost use Rattle.view_model.specs.Names.{ident, entity_named};
ghost use Rattle.view_model.specs.Samples.{texts, hides_attribute};
ghost use Rattle.pull_model.specs.Patterns.{attribute, usual, under};
ghost use Rattle.pull_model.specs.Reading.{pattern_in};
ghost use Rattle.pull_model.specs.Pull.{answered, is_too_large, made_by};
ghost use Rattle.pull_model.specs.Samples.{int, vector, star, id, below, entity, tree_in, tree_of, name, friend, friends, chain, only, pattern_with, bare, as_alone, default_alone, ann, ben, named, names_of_friends, made_for_ann, doc_word, all_behind};

/// What is refused: a form that is no pattern, by its first bad item; a view that shows its
/// history; and what is too large.
pub fn refusals()
    ensures no_items_at_all { pattern_in (vector []) ≡ Err 0 }
    ensures second_item { pattern_in (vector (doc_word ∷ int 5 ∷ [])) ≡ Err 1 }
    ensures with_its_history { tree_in texts (with_history whole) [] (only star) (user_entity 1)
        ≡ Err History }
    ensures as_many_maps { answered (record { form = None; maps = 65536; depth = 1 }) ≡ Ok nil }
    ensures one_map_more { answered (record { form = None; maps = 65537; depth = 1 })
        ≡ Err TooLarge }
    ensures as_deep { answered (record { form = None; maps = 300; depth = 256 }) ≡ Ok nil }
    ensures one_deeper { answered (record { form = None; maps = 300; depth = 257 })
        ≡ Err TooLarge }
{}

/// An entity's ident is looked for in the view, an attribute's in the whole schema.
pub fn hidden_idents()
    ensures seen { entity_named (facts_seen friends whole []) (ident (codes "f/name"))
        ≡ Some (user_entity 1) }
    ensures hidden { entity_named (facts_seen friends whole (hides_attribute db_ident ∷ []))
        (ident (codes "f/name"))
        ≡ None }
    ensures as_an_attribute { tree_in friends whole (hides_attribute db_ident ∷ []) (only name) ann
        ≡ Ok (named (codes "A")) }
    ensures number_of_no_entity { tree_of friends (name ∷ []) 99 ≡ Ok nil }
{}

/// A chain of entities, each given inside the one before: 256 are given, and one more is too
/// deep.
pub fn a_long_chain()
    ensures as_long_as_may_be { is_too_large (made_by (chain 255) all_behind (user_entity 3))
        ≡ false }
    ensures one_longer { is_too_large (made_by (chain 256) all_behind (user_entity 3)) ≡ true }
{}

/// Which maps count: those that came to nothing too, and none of a skipped item or of a default.
pub fn maps_that_are_made()
    ensures with_what_was_met_again { (made_for_ann names_of_friends).maps ≡ 3 }
    ensures one_inside_another { (made_for_ann names_of_friends).depth ≡ 3 }
    ensures come_to_nothing { made_for_ann (pattern_with
        (bare (codes "f/friend") (under (pattern_with (bare (codes "x/y") usual ∷ []))) ∷ []))
        ≡ record { form = None; maps = 2; depth = 2 } }
    ensures come_to_nothing_inside { made_for_ann (pattern_with
        (bare (codes "f/friend") (under (pattern_with
        (bare (codes "f/friend") (under (pattern_with (bare (codes "x/y") usual ∷ []))) ∷ [])))
        ∷ []))
        ≡ record { form = None; maps = 3; depth = 3 } }
    ensures of_an_item_without_a_key { made_for_ann (pattern_with (
        bare (codes "f/friend") (under (pattern_with (bare (codes "x/y") usual ∷ [])))
        ∷ bare (codes "f/friend") usual
        ∷ []))
        ≡ record { form = Some (below friend (only (entity ben))); maps = 3; depth = 2 } }
    ensures skipped { (made_for_ann (pattern_with (
        bare (codes "f/name") usual
        ∷ attribute (codes "f/friend") (as_alone name) usual
        ∷ []))).maps
        ≡ 1 }
    ensures in_a_default { (made_for_ann (pattern_with (
        attribute (codes "x/y") (default_alone (below name (entity (user_entity 1)))) usual
        ∷ []))).maps
        ≡ 1 }
{}
