//! Laws about the nodes of a file, and about lists that are counted.
ghost use Rattle.std.specs.Prelude.{◌≡◌, ℕ, List, [], ◌∷◌, ◌++◌, length, nat_eq, IsTrue, All};
ghost use Rattle.std.specs.List.{IsDistinct};
ghost use Rattle.fb_values.specs.declared.facts.Datom.{Datom};
ghost use Rattle.fb_values.specs.declared.facts.Entry.{Entry};
ghost use Rattle.fb_values.specs.declared.indexes.Order.{Order};
ghost use Rattle.fb_values.specs.Rising.{rises};
ghost use Rattle.fb_model.specs.Rising.{IsRisingListOf};
ghost use Rattle.fb_model.specs.History.{upto};
ghost use Rattle.fb_model.specs.Lawful.{IsLawful};
ghost use Rattle.view_model.specs.Stands.{IsIndexed};
ghost use Rattle.log_model.specs.Nodes.{Nodes, ids_in, MergeRecord};
ghost use Rattle.log_model.specs.Merges.{record_says, merges, bad_from};
ghost use Rattle.log_model.specs.Kept.{with_nodes, tree_datoms, kept_root, kept_roots, nodes_of, are_good, HasTree, index_len};

/// After good records, a record that merges keeps one more root and adds its nodes. A bad one adds
/// nothing, and neither does what follows it.
pub fn one_more_record_keeps_one_more_root()
    ensures root { (records : List (List ℕ)) (payload : List ℕ) (merge : MergeRecord)
        → IsTrue (are_good records) → record_says (nodes_of records) payload ≡ merges merge
        → kept_roots (records ++ payload ∷ [])
        ≡ kept_roots records ++ kept_root (with_nodes (nodes_of records) merge) merge ∷ [] }
    ensures nodes { (records : List (List ℕ)) (payload : List ℕ) (merge : MergeRecord)
        → IsTrue (are_good records) → record_says (nodes_of records) payload ≡ merges merge
        → nodes_of (records ++ payload ∷ []) ≡ with_nodes (nodes_of records) merge }
    ensures good { (records : List (List ℕ)) (payload : List ℕ) (merge : MergeRecord)
        → IsTrue (are_good records) → record_says (nodes_of records) payload ≡ merges merge
        → IsTrue (are_good (records ++ payload ∷ [])) }
    ensures bad_roots { (records : List (List ℕ)) (payload : List ℕ) (byte : ℕ)
        (more : List (List ℕ))
        → record_says (nodes_of records) payload ≡ bad_from byte
        → kept_roots (records ++ payload ∷ more) ≡ kept_roots records }
    ensures bad_nodes { (records : List (List ℕ)) (payload : List ℕ) (byte : ℕ)
        (more : List (List ℕ))
        → record_says (nodes_of records) payload ≡ bad_from byte
        → nodes_of (records ++ payload ∷ more) ≡ nodes_of records }
{}

/// No two nodes of a file have one id, whatever its records are.
pub fn no_two_nodes_have_one_id()
    ensures one_record { (nodes : Nodes) (payload : List ℕ) (merge : MergeRecord)
        → IsDistinct nat_eq (ids_in nodes) → record_says nodes payload ≡ merges merge
        → IsDistinct nat_eq (ids_in (with_nodes nodes merge)) }
    ensures all { (records : List (List ℕ)) → IsDistinct nat_eq (ids_in (nodes_of records)) }
{}

/// Where the nodes have a tree, later ones leave its datoms as they are.
pub fn later_nodes_change_no_tree()
    ensures one_record { (nodes : Nodes) (payload : List ℕ) (merge : MergeRecord) (ids : List ℕ)
        → record_says nodes payload ≡ merges merge → HasTree nodes ids
        → tree_datoms (with_nodes nodes merge) ids ≡ tree_datoms nodes ids }
    ensures more_records { (records more : List (List ℕ)) (ids : List ℕ)
        → HasTree (nodes_of records) ids
        → tree_datoms (nodes_of (records ++ more)) ids ≡ tree_datoms (nodes_of records) ids }
{}

/// A rising list of datoms that an index has is the whole index where it is as long, and in a
/// lawful history it is so long.
pub fn a_counted_list_is_the_index()
    ensures counted { (h : List Entry) (c : ℕ) (order : Order) (ds : List Datom)
        → IsTrue (rises order ds) → All (IsIndexed (upto h c) order) ds
        → length ds ≡ index_len (upto h c) order
        → IsRisingListOf order ds (IsIndexed (upto h c) order) }
    ensures len { (h : List Entry) (c : ℕ) (order : Order) (ds : List Datom)
        → IsLawful h → IsRisingListOf order ds (IsIndexed (upto h c) order)
        → length ds ≡ index_len (upto h c) order }
{}
