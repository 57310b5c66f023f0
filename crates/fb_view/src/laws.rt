//! What the two lists of an order are together, for callers that walk an order as one list.
ghost use Rattle.std.specs.Prelude.{◌≡◌, filter};
ghost use Rattle.fb_values.specs.declared.indexes.Order.{Order};
ghost use Rattle.fb_values.specs.declared.indexes.Order.TheVariants.{Avet};
ghost use Rattle.fb_values.specs.Lists.{list_in};
ghost use Rattle.fb_model.specs.Facts.{facts, standing};
ghost use Rattle.fb_model.specs.Rising.{IsRisingListOf};
ghost use Rattle.fb_model.specs.Schema.{covers};
ghost use Rattle.view_model.specs.Stands.{IsIndexed};
ghost use Rattle.seg_tree.specs.Indexes.{tree_in};
ghost use Rattle.seg_tree.specs.Nodes.{tree_datoms};
ghost use Rattle.fb_index.specs.Sides.{whole};
ghost use Rattle.fb_index.specs.declared.sides.Extent.TheVariants.{Held};
ghost use Rattle.fb_view.specs.SnapshotModel.{SnapshotModel, Stands};
ghost use Rattle.live_index.specs.Halves.{merged};

/// The two lists of an order, read as one, are the index of the history. In AVET the trees may still hold datoms of an
/// attribute whose index has been switched off since: without those.
pub fn the_two_lists_are_the_index()
    ensures whole { (k : SnapshotModel) (order : Order) → Stands k → (order ≡ Avet → ⊥)
        → IsRisingListOf order
        (merged order (tree_datoms (tree_in k.roots order)) (list_in k.live order))
        (IsIndexed k.entries order) }
    ensures held { (k : SnapshotModel) (order : Order) → Stands k
        → IsRisingListOf order
        (filter (λ d. covers (facts k.entries) order d.a)
        (merged order (tree_datoms (tree_in k.roots order)) (list_in k.live order)))
        (IsIndexed k.entries order) }
{}

/// The trees of what holds and the live lists, read for what holds, are what holds of all datoms. In AVET the
/// trees may still hold facts of an attribute whose index has been switched off since, and AVET's live list does not
/// say which of these have ended: without those.
pub fn the_present_lists_are_the_facts()
    ensures whole { (k : SnapshotModel) (order : Order) → Stands k → (order ≡ Avet → ⊥)
        → whole Held order (tree_datoms (tree_in k.now order)) k.live
        ≡ standing (merged order (tree_datoms (tree_in k.roots order)) (list_in k.live order)) }
    ensures held { (k : SnapshotModel) (order : Order) → Stands k
        → filter (λ d. covers (facts k.entries) order d.a)
        (whole Held order (tree_datoms (tree_in k.now order)) k.live)
        ≡ filter (λ d. covers (facts k.entries) order d.a)
        (standing (merged order (tree_datoms (tree_in k.roots order)) (list_in k.live order))) }
{}
