//! Laws about trees and the nodes of a file. Each function has an empty body, and its contract is the law.
ghost use Rattle.std.specs.Prelude.{◌≡◌, ◌<◌, ◌^◌, ◌++◌, ℕ, List, nat_eq};
ghost use Rattle.std.specs.List.{IsDistinct};
ghost use Rattle.fb_values.specs.declared.indexes.Order.{Order};
ghost use Rattle.log_model.specs.Payload.{written_format};
ghost use Rattle.log_model.specs.Nodes.{Nodes as FileNodes, Roots as FileRoots, MergeRecord, ids_in, record_bytes_in};
ghost use Rattle.log_model.specs.Merges.{IsRecordOf};
ghost use Rattle.log_model.specs.Kept.{with_nodes, kept_root};
ghost use Rattle.seg_tree.specs.Ids.{AreDistinct};
ghost use Rattle.seg_tree.specs.Indexes.{tree_in, trees_of, root_ids};
ghost use Rattle.seg_tree.specs.declared.roots.Roots.{Roots as SegRoots};
ghost use Rattle.seg_codec.specs.Trees.{AreTreesOf, Fits, merge_over, merge_of, ids_lacking, AreIdsOf, AreWritable};

/// What a record writes of fitting trees may follow the nodes of the file, and after it the file has the trees. The ids of
/// the file alone decide what is written, and after the record it has those that it lacked.
pub fn a_record_has_what_the_file_lacks()
    ensures record_of { (nodes : FileNodes) (trees : SegRoots) (c : ℕ)
        → IsDistinct nat_eq (ids_in nodes) → AreDistinct (root_ids trees)
        → Fits nodes trees → AreWritable trees → c < 2 ^ 32
        → IsRecordOf nodes (merge_of nodes trees c)
        (record_bytes_in written_format (merge_of nodes trees c)) }
    ensures trees { (nodes : FileNodes) (trees : SegRoots) (c : ℕ)
        → Fits nodes trees
        → AreTreesOf (with_nodes nodes (merge_of nodes trees c)) (merge_of nodes trees c).roots
        trees }
    ensures ids { (nodes : FileNodes) (ids : List ℕ) (trees : SegRoots) (c : ℕ)
        → AreIdsOf ids nodes → merge_over ids trees c ≡ merge_of nodes trees c }
    ensures grown { (nodes : FileNodes) (ids : List ℕ) (trees : SegRoots) (c : ℕ)
        → AreIdsOf ids nodes
        → AreIdsOf (ids ++ ids_lacking ids trees) (with_nodes nodes (merge_of nodes trees c)) }
{}

/// Trees that are in the nodes of a file are there after each later record.
pub fn trees_stand_over_later_nodes()
    ensures { (nodes : FileNodes) (merge : MergeRecord) (ids : FileRoots) (trees : SegRoots)
        → AreTreesOf nodes ids trees → AreTreesOf (with_nodes nodes merge) ids trees }
{}

/// The trees of a root, read from left to right, are those that the file keeps.
pub fn trees_are_the_kept_root()
    ensures { (nodes : FileNodes) (merge : MergeRecord) (trees : SegRoots)
        → IsDistinct nat_eq (ids_in nodes) → AreTreesOf nodes merge.roots trees
        → (kept_root nodes merge).lists ≡ trees_of trees }
{}

/// Where no two nodes have one id, the ids of a root name one tree of each order.
pub fn nodes_make_one_tree()
    ensures { (nodes : FileNodes) (ids : FileRoots) (trees other : SegRoots)
        → IsDistinct nat_eq (ids_in nodes)
        → AreTreesOf nodes ids trees → AreTreesOf nodes ids other
        → (order : Order) → tree_in trees order ≡ tree_in other order }
{}
