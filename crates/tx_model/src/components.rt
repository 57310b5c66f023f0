//! Examples, by computation: nested maps, components, and retracting entities.
ghost use Rattle.std.specs.Prelude.{◌≡◌, [], ◌∷◌, codes};
ghost use Rattle.fb_numbers.specs.Numbers.{user_entity};
ghost use Rattle.tx_refusals.specs.declared.reasons.Reason.TheVariants.{WrongType, NestedWithoutId};
ghost use Rattle.tx_model.specs.Samples.{keyword, string, vector, map_of, tempid, user, retract_entity, id, doc, decision, refusal_at, decided, accepted_at, changed, retraction};
ghost use Rattle.tx_model.specs.SampleHistories.{order_lines, order_of, sku_a, order_and_note, with_orders_installed, order_with_lines};

/// Nested maps are numbered as a reader meets them, and answered by the bytes of their names.
pub fn nested_maps()
    ensures told { decided with_orders_installed order_and_note
        ≡ accepted_at 2 ((codes "b", user_entity 6)
        ∷ (codes "n", user_entity 7)
        ∷ (codes "o", user_entity 4)
        ∷ []) }
    ensures reversed { decided with_orders_installed
        (map_of (sku_a ∷ (keyword order_of, map_of ((id, tempid (codes "o")) ∷ [])) ∷ []) ∷ [])
        ≡ accepted_at 2 ((codes "o", user_entity 5) ∷ []) }
    ensures reversed_no_ref { decision with_orders_installed
        (map_of ((keyword (codes "line/_sku"), string (codes "A")) ∷ sku_a ∷ []) ∷ [])
        ≡ refusal_at WrongType 0 }
    ensures reversed_without_id { decision with_orders_installed
        (map_of (sku_a ∷ (keyword order_of, map_of ((keyword doc, string (codes "o")) ∷ [])) ∷ [])
        ∷ [])
        ≡ refusal_at NestedWithoutId 0 }
    ensures empty_collection { decided with_orders_installed
        (map_of (sku_a ∷ (keyword order_lines, vector []) ∷ []) ∷ [])
        ≡ accepted_at 2 [] }
    ensures nested_collection { decision with_orders_installed
        (map_of (sku_a ∷ (keyword order_lines, vector (vector [] ∷ [])) ∷ []) ∷ [])
        ≡ refusal_at WrongType 0 }
{}

/// With an entity go its parts, and the references of others to each of them.
pub fn components_and_references()
    ensures gone { changed order_with_lines (retract_entity (user 4) ∷ [])
        ≡ retraction (user_entity 4) []
        ∷ retraction (user_entity 4) []
        ∷ retraction (user_entity 5) (codes "A")
        ∷ retraction (user_entity 6) (codes "B")
        ∷ retraction (user_entity 7) []
        ∷ [] }
{}
