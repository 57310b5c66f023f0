//! Laws about trees that are kept. Each function has an empty body, and its contract is the law.
ghost use Rattle.std.specs.Prelude.{◌<◌, ◌≤◌, ℕ, List, All, Contains};
ghost use Rattle.fb_values.specs.declared.facts.Entry.{Entry};
ghost use Rattle.fb_values.specs.declared.indexes.Order.{Order};
ghost use Rattle.fb_model.specs.Lawful.{IsLawful};
ghost use Rattle.view_model.specs.Stands.{RootStands};
ghost use Rattle.log_model.specs.Nodes.{Nodes, ids_in};
ghost use Rattle.seg_tree.specs.Nodes.{LeafNode, tree_leaves};
ghost use Rattle.seg_tree.specs.Ids.{next_above};
ghost use Rattle.seg_tree.specs.Indexes.{tree_in, trees_of};
ghost use Rattle.seg_tree.specs.declared.roots.Roots.{Roots};
ghost use Rattle.seg_codec.specs.Trees.{Fits};
ghost use Rattle.seg_store.specs.Trees.{HaveStorableDatoms};

/// Trees that stand for the first entries of a lawful history can be kept.
pub fn trees_of_a_lawful_history_are_storable()
    ensures { (h : List Entry) (c : ℕ) (trees : Roots)
        → IsLawful h → RootStands (trees_of trees) h c → HaveStorableDatoms trees }
{}

/// Trees fit a file that were made of ones that fit it: their other nodes are numbered after those of the file.
pub fn trees_made_of_fitting_ones_fit()
    ensures { (nodes : Nodes) (first : ℕ) (old new : Roots)
        → next_above (ids_in nodes) ≤ first → Fits nodes old
        → ((order : Order) (leaf : LeafNode) → Contains (tree_leaves (tree_in new order)) leaf
        → leaf.id < first → Contains (tree_leaves (tree_in old order)) leaf)
        → ((order : Order) → All (λ d. first ≤ d.id) (tree_in new order))
        → Fits nodes new }
{}
