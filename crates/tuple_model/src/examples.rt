//! Examples, by computation.
ghost use Rattle.std.specs.Prelude.{◌≡◌, [], ◌∷◌, ◌++◌, codes, true, false, not, nat_eq, Some, None};
ghost use Rattle.fb_values.specs.declared.facts.Value.TheVariants.{Str, Ref, Keyword};
ghost use Rattle.fb_numbers.specs.Numbers.{user_entity, doc, type_ref, type_keyword, type_long};
ghost use Rattle.edn_model.specs.Form.{nil};
ghost use Rattle.tx_refusals.specs.declared.reasons.Bar.TheVariants.{AttrPred, UniqueTuple};
ghost use Rattle.tx_model.specs.Step.{no_guard};
ghost use Rattle.tx_model.specs.Samples.{keyword, vector, number, string, list_of};
ghost use Rattle.fb_model.specs.History.{said};
ghost use Rattle.fb_model.specs.Facts.{facts, standing};
ghost use Rattle.std.specs.declared.cmp.Ordering.TheVariants.{Greater};
ghost use Rattle.fb_model.specs.Samples.{datom};
ghost use Rattle.fb_model.specs.Lawful.{IsLawful};
ghost use Rattle.view_model.specs.Window.{whole, as_of};
ghost use Rattle.tuple_model.specs.Composite.{bad_place, attributes_named};
ghost use Rattle.tuple_model.specs.Tuples.{tuple_cmp, tuple_of, tuples_seen, range, is_bound};
ghost use Rattle.tuple_model.specs.Given.{composite_in, kinds_of, members_in, bound_in};
ghost use Rattle.tuple_model.specs.UniqueTuples.{is_whole, IsBarred, bars_unique, both};
ghost use Rattle.tuple_model.specs.Samples.{a, b, a_and_b, long, has, numbered, paired, loses, bars_both, bars_named, tuples_now, row};

/// Two to eight different attributes of cardinality one are a composite.
pub fn composites()
    ensures lawful { IsLawful numbered }
    ensures two { bad_place (facts numbered) a_and_b ≡ None }
    ensures one { bad_place (facts numbered) (a ∷ []) ≡ Some 0 }
    ensures none { bad_place (facts numbered) [] ≡ Some 0 }
    ensures nine { bad_place (facts numbered) (1 ∷ 2 ∷ 3 ∷ 4 ∷ 5 ∷ 6 ∷ 7 ∷ 8 ∷ a ∷ []) ≡ Some 0 }
    ensures eight { bad_place (facts numbered) (1 ∷ 2 ∷ 3 ∷ 4 ∷ 5 ∷ 6 ∷ 7 ∷ a ∷ []) ≡ None }
    ensures twice { bad_place (facts numbered) (a ∷ b ∷ a ∷ []) ≡ Some 2 }
    ensures not_installed { bad_place (facts numbered) (a ∷ user_entity 3 ∷ []) ≡ Some 1 }
    ensures named { attributes_named (facts numbered) (codes "n/b" ∷ codes "db/doc" ∷ [])
        ≡ Some (b ∷ doc ∷ []) }
    ensures no_name { attributes_named (facts numbered) (codes "n/b" ∷ codes "n/c" ∷ []) ≡ None }
{}

/// The tuples of three entities: nil is below every value.
pub fn tuples_of_a_view()
    ensures all { tuples_now
        ≡ row (long 0 ∷ long 9 ∷ []) (user_entity 5)
        ∷ row (long 1 ∷ None ∷ []) (user_entity 4)
        ∷ row (long 1 ∷ long 2 ∷ []) (user_entity 3)
        ∷ [] }
    ensures turned { tuples_seen numbered whole [] (b ∷ a ∷ [])
        ≡ row (None ∷ long 1 ∷ []) (user_entity 4)
        ∷ row (long 2 ∷ long 1 ∷ []) (user_entity 3)
        ∷ row (long 9 ∷ long 0 ∷ []) (user_entity 5)
        ∷ [] }
    ensures before { tuples_seen numbered (as_of 2 whole) [] a_and_b ≡ [] }
    ensures filtered { tuples_seen numbered whole ((λ d. not (nat_eq d.a a)) ∷ []) a_and_b
        ≡ row (None ∷ long 2 ∷ []) (user_entity 3)
        ∷ row (None ∷ long 9 ∷ []) (user_entity 5)
        ∷ [] }
{}

/// Parts of the list: the start is among them, the end is not.
pub fn ranges()
    ensures from { range (Some (long 1 ∷ None ∷ [])) None tuples_now
        ≡ row (long 1 ∷ None ∷ []) (user_entity 4)
        ∷ row (long 1 ∷ long 2 ∷ []) (user_entity 3)
        ∷ [] }
    ensures before { range None (Some (long 1 ∷ long 2 ∷ [])) tuples_now
        ≡ row (long 0 ∷ long 9 ∷ []) (user_entity 5)
        ∷ row (long 1 ∷ None ∷ []) (user_entity 4)
        ∷ [] }
    ensures bound { is_bound (facts numbered) a_and_b (long 1 ∷ None ∷ []) ≡ true }
    ensures other_type { is_bound (facts numbered) a_and_b
        (long 1 ∷ Some (Str (codes "2")) ∷ [])
        ≡ false }
    ensures too_short { is_bound (facts numbered) a_and_b (long 1 ∷ []) ≡ false }
    ensures too_long { is_bound (facts numbered) a_and_b (long 1 ∷ long 2 ∷ None ∷ []) ≡ false }
{}

/// A vector of names is a composite where the list of the attributes is one.
pub fn composites_given()
    ensures two { composite_in (facts numbered)
        (vector (keyword (codes "n/a") ∷ keyword (codes "n/b") ∷ []))
        ≡ Some a_and_b }
    ensures one { composite_in (facts numbered) (vector (keyword (codes "n/a") ∷ [])) ≡ None }
    ensures twice { composite_in (facts numbered)
        (vector (keyword (codes "n/a") ∷ keyword (codes "n/a") ∷ []))
        ≡ None }
    ensures no_name { composite_in (facts numbered)
        (vector (keyword (codes "n/a") ∷ keyword (codes "n/c") ∷ []))
        ≡ None }
    ensures numbers { composite_in (facts numbered) (vector (number a ∷ number b ∷ [])) ≡ None }
    ensures list { composite_in (facts numbered)
        (list_of (keyword (codes "n/a") ∷ keyword (codes "n/b") ∷ []))
        ≡ None }
{}

/// A bound is nil, or a vector of a nil or a value for each attribute. Of a ref the value is a
/// number, and the entity's name is none.
pub fn bounds_given()
    ensures kinds { kinds_of (facts numbered) (a ∷ user_entity 3 ∷ []) ≡ type_long ∷ 0 ∷ [] }
    ensures open { bound_in (kinds_of (facts numbered) a_and_b) nil ≡ Some None }
    ensures both { bound_in (kinds_of (facts numbered) a_and_b)
        (vector (number 1 ∷ number 2 ∷ []))
        ≡ Some (Some (long 1 ∷ long 2 ∷ [])) }
    ensures first { bound_in (kinds_of (facts numbered) a_and_b) (vector (number 1 ∷ nil ∷ []))
        ≡ Some (Some (long 1 ∷ None ∷ [])) }
    ensures nils { bound_in (kinds_of (facts numbered) a_and_b) (vector (nil ∷ nil ∷ []))
        ≡ Some (Some (None ∷ None ∷ [])) }
    ensures too_short { bound_in (kinds_of (facts numbered) a_and_b) (vector (number 1 ∷ []))
        ≡ None }
    ensures too_long { bound_in (kinds_of (facts numbered) a_and_b)
        (vector (number 1 ∷ number 2 ∷ nil ∷ []))
        ≡ None }
    ensures other_type { bound_in (kinds_of (facts numbered) a_and_b)
        (vector (number 1 ∷ string (codes "2") ∷ []))
        ≡ None }
    ensures list { bound_in (kinds_of (facts numbered) a_and_b)
        (list_of (number 1 ∷ number 2 ∷ []))
        ≡ None }
    ensures entity { members_in (type_ref ∷ type_keyword ∷ [])
        (number (user_entity 3) ∷ keyword (codes "n/a") ∷ [])
        ≡ Some (Some (Ref (user_entity 3)) ∷ Some (Keyword (codes "n/a")) ∷ []) }
    ensures ident { members_in (type_ref ∷ type_keyword ∷ [])
        (keyword (codes "n/b") ∷ keyword (codes "n/a") ∷ [])
        ≡ None }
{}

/// A second entity with 1 and 2 is barred; nil makes no tuple whole.
pub fn shared_tuples()
    ensures shared { IsBarred ((codes "n/a" ∷ codes "n/b" ∷ []) ∷ []) numbered
        (has 3 (user_entity 4) b 2 ∷ []) }
    ensures nil_is_not_whole { is_whole (tuple_of (facts numbered) a_and_b (user_entity 4))
        ≡ false }
    ensures other_value { tuple_cmp
        (tuple_of (standing (said numbered ++ has 3 (user_entity 4) b 3 ∷ [])) a_and_b
        (user_entity 4))
        (tuple_of (facts numbered) a_and_b (user_entity 3))
        ≡ Greater }
{}

/// What the guard on both attributes answers. A pair that is shared already bars a change of one of
/// the two under another attribute too.
pub fn guard_on_both()
    ensures second { bars_both (has 3 (user_entity 4) b 2 ∷ []) ≡ Some UniqueTuple }
    ensures another { bars_both (has 3 (user_entity 4) b 3 ∷ []) ≡ None }
    ensures nil { bars_both (has 3 (user_entity 6) a 1 ∷ []) ≡ None }
    ensures two_new { bars_both
        (has 3 (user_entity 6) a 7 ∷ has 3 (user_entity 6) b 7
        ∷ has 3 (user_entity 7) a 7 ∷ has 3 (user_entity 7) b 7 ∷ [])
        ≡ Some UniqueTuple }
    ensures given_up { bars_both (loses 3 (user_entity 3) b 2 ∷ has 3 (user_entity 4) b 2 ∷ [])
        ≡ None }
    ensures no_composite { bars_unique ((codes "n/a" ∷ []) ∷ []) numbered
        (has 3 (user_entity 4) b 2 ∷ [])
        ≡ None }
    ensures no_name { bars_unique ((codes "n/a" ∷ codes "n/c" ∷ []) ∷ []) numbered
        (has 3 (user_entity 4) b 2 ∷ [])
        ≡ None }
    ensures shared_before { bars_unique ((codes "n/a" ∷ codes "n/b" ∷ []) ∷ []) paired
        (datom (user_entity 4) doc (Str (codes "hi")) 4 true ∷ [])
        ≡ Some UniqueTuple }
    ensures of_others { bars_unique ((codes "n/a" ∷ codes "n/b" ∷ []) ∷ []) paired
        (datom (user_entity 5) doc (Str (codes "hi")) 4 true ∷ [])
        ≡ None }
    ensures first_of_two { both (λ h changes. Some AttrPred) bars_named numbered
        (has 3 (user_entity 4) b 2 ∷ [])
        ≡ Some AttrPred }
    ensures second_of_two { both no_guard bars_named numbered (has 3 (user_entity 4) b 2 ∷ [])
        ≡ Some UniqueTuple }
{}
