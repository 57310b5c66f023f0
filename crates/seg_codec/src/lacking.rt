//! The ids of trees' nodes that a file lacks, which it has once a record of these trees is written.
ghost use Rattle.std.specs.Prelude.{◌≡◌, ◌++◌, map, IfOk, OnOk, OnErr};
ghost use Rattle.std.specs.Arc.{arc_value};
ghost use Rattle.seg_tree.specs.Ids.{leaf_ids};
ghost use Rattle.seg_codec.specs.Trees.{directory_ids, ids_lacking};

use crate::ids::Ids;
use crate::written::{new_directories, new_leaves};
use fb_memory::Memory;
use seg_tree::{Directory, Leaf, Roots};
use std::alloc::Global;
use std::sync::Arc;

impl Ids {
    /// The ids of four trees that are not there yet, or none of them where memory runs out.
    pub fn add_trees(&mut self, alloc: Global, trees: &Roots) -> Result<(), Memory>
        ensures added { OnOk result (self.new ≡ self.old ++ ids_lacking self.old trees.now) }
        ensures unchanged { OnErr result (self.new ≡ self.old) }
    {
        // What holds of the ids is known once they are asked.
        let _ = self.len();
        let _ = trees.next_id();
        let lacking = ids_lacking_of(alloc, trees, self)?;
        self.add_all(&lacking)
    }
}

fn ids_lacking_of(alloc: Global, trees: &Roots, in_file: &Ids) -> Result<Vec<u64>, Memory>
    ensures { IfOk result (λ v. v.items ≡ ids_lacking in_file.now trees.now) }
{
    let leaves = new_leaves(alloc, trees, in_file)?;
    let directories = new_directories(alloc, trees, in_file)?;
    let mut ids = Vec::new(alloc);
    add_leaf_ids(&leaves, &mut ids)?;
    add_directory_ids(&directories, &mut ids)?;
    Ok(ids)
}

fn add_leaf_ids(leaves: &Vec<Arc<Leaf>>, ids: &mut Vec<u64>) -> Result<(), Memory>
    ensures { OnOk result
        (ids.new.items ≡ ids.old.items ++ leaf_ids (map arc_value leaves.now.items)) }
{
    for leaf in leaves.iter() {
        ids.push(leaf.id())?;
    }
    Ok(())
}

fn add_directory_ids(directories: &Vec<Arc<Directory>>, ids: &mut Vec<u64>) -> Result<(), Memory>
    ensures { OnOk result
        (ids.new.items ≡ ids.old.items ++ directory_ids (map arc_value directories.now.items)) }
{
    for directory in directories.iter() {
        ids.push(directory.id())?;
    }
    Ok(())
}
