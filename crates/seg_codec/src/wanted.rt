//! Leaves that are wanted of a file, and what is held of the others.
ghost use Rattle.std.specs.Prelude.{◌≡◌, ◌&&◌, ◌||◌, [], ◌∷◌, ℕ, map, IfOk, OnOk};
ghost use Rattle.std.specs.List.{list_all};
ghost use Rattle.std.specs.Arc.{arc_value};
ghost use Rattle.log_model.specs.Nodes.{is_among};
ghost use Rattle.seg_tree.specs.Nodes.{tree_leaves};
ghost use Rattle.seg_tree.specs.Ids.{leaf_ids};
ghost use Rattle.seg_codec.specs.Trees.{file_leaf, leaves_of_four};
ghost use Rattle.seg_codec.specs.Wanted.{is_wanted, held_leaf, are_wanted};

use crate::ids::Ids;
use fb_memory::Memory;
use seg_tree::{Leaf, Roots, Tree};
use std::alloc::Global;
use std::sync::Arc;

/// Which leaves of a file are held whole. Of each other leaf the first datom alone is held, so that many dead leaves take
/// little memory.
#[derive(Drop)]
pub enum Wanted {
    Every,
    /// Those with these ids.
    Only(Ids),
}

impl Wanted {
    /// Whether the leaf of this id is held whole.
    pub(crate) fn has(&self, id: u64) -> bool
        ensures { result ≡ is_wanted self.now id }
    {
        match self {
            Wanted::Every => true,
            Wanted::Only(ids) => ids.contains(id),
        }
    }

    /// Whether all leaves of four trees are held whole.
    pub fn has_all(&self, alloc: Global, trees: &Roots) -> Result<bool, Memory>
        ensures { IfOk result (λ all. all ≡ are_wanted self.now trees.now) }
    {
        let eavt = self.has_tree(alloc, &trees.eavt)?;
        let aevt = self.has_tree(alloc, &trees.aevt)?;
        let avet = self.has_tree(alloc, &trees.avet)?;
        let vaet = self.has_tree(alloc, &trees.vaet)?;
        Ok(all_four(eavt, aevt, avet, vaet))
    }

    fn has_tree(&self, alloc: Global, tree: &Tree) -> Result<bool, Memory>
        ensures { IfOk result (λ all. all
            ≡ list_all (λ leaf. is_wanted self.now leaf.id) (tree_leaves tree.now)) }
    {
        let leaves = tree.leaves(alloc)?;
        Ok(self.has_each(&leaves))
    }

    fn has_each(&self, leaves: &Vec<Arc<Leaf>>) -> bool
        ensures { result
            ≡ list_all (λ leaf. is_wanted self.now leaf.id) (map arc_value leaves.now.items) }
    {
        for leaf in leaves.iter() {
            if !self.has(leaf.id()) {
                return false;
            }
        }
        true
    }
}

fn all_four(first: bool, second: bool, third: bool, fourth: bool) -> bool
    ensures { result ≡ (((first && second) && third) && fourth) }
{
    first && second && third && fourth
}

impl Ids {
    /// The ids of the leaves of four trees.
    pub fn of_leaves(alloc: Global, trees: &Roots) -> Result<Ids, Memory>
        ensures { IfOk result (λ ids. (id : ℕ)
            → is_among ids id ≡ is_among (leaf_ids (leaves_of_four trees.now)) id) }
    {
        let mut ids = Ids::new(alloc);
        add_tree(alloc, &trees.eavt, &mut ids)?;
        add_tree(alloc, &trees.aevt, &mut ids)?;
        add_tree(alloc, &trees.avet, &mut ids)?;
        add_tree(alloc, &trees.vaet, &mut ids)?;
        Ok(ids)
    }
}

/// The ids of a tree's leaves.
fn add_tree(alloc: Global, tree: &Tree, ids: &mut Ids) -> Result<(), Memory>
    ensures { OnOk result ((id : ℕ) → is_among ids.new id
        ≡ (is_among ids.old id || is_among (leaf_ids (tree_leaves tree.now)) id)) }
{
    let leaves = tree.leaves(alloc)?;
    add_leaves(&leaves, ids)
}

fn add_leaves(leaves: &Vec<Arc<Leaf>>, ids: &mut Ids) -> Result<(), Memory>
    ensures { OnOk result ((id : ℕ) → is_among ids.new id
        ≡ (is_among ids.old id || is_among (leaf_ids (map arc_value leaves.now.items)) id)) }
{
    for leaf in leaves.iter() {
        add_leaf(leaf, ids)?;
    }
    Ok(())
}

/// The id of a leaf, where it is not there yet.
fn add_leaf(leaf: &Leaf, ids: &mut Ids) -> Result<(), Memory>
    ensures { OnOk result ((id : ℕ) → is_among ids.new id
        ≡ (is_among ids.old id || is_among (leaf_ids (leaf.now ∷ [])) id)) }
{
    if ids.contains(leaf.id()) {
        return Ok(());
    }
    ids.add(leaf.id())?;
    Ok(())
}

/// The leaf as it is held.
pub(crate) fn held(alloc: Global, leaf: Leaf, wanted: &Wanted) -> Result<Leaf, Memory>
    ensures held { IfOk result
        (λ held. file_leaf held ≡ held_leaf wanted.now (file_leaf leaf)) }
    ensures id { IfOk result (λ held. held.id ≡ leaf.id) }
{
    if wanted.has(leaf.id()) {
        return Ok(leaf);
    }
    let _ = leaf.datoms();
    let first = leaf.first().copy()?;
    Ok(Leaf::of(leaf.id(), vec![in alloc; first]?))
}
