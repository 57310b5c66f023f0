//! Where the walk of a tree begins, and how long it is.
ghost use Rattle.std.specs.Prelude.{◌≡◌, ◌↔◌, length, IsTrue};
ghost use Rattle.seg_tree.specs.Nodes.{leaf_datoms, tree_datoms};
ghost use Rattle.seg_tree.specs.Ranks.{rank};

use seg_tree::{Directory, Place, Tree};

/// The first place of a tree, which in the empty tree is the end.
pub(crate) fn start(tree: &Tree) -> Place
    ensures { rank tree.now result ≡ 0 }
{
    // That a directory has a first datom is known once it is asked.
    if let Some(first) = tree.directories().first() {
        let _ = first.first();
    }
    Place::START
}

/// Whether a tree has so many datoms.
pub(crate) fn has_len(tree: &Tree, len: u64) -> bool
    ensures { IsTrue result ↔ (length (tree_datoms tree.now) ≡ len) }
{
    let mut left = len;
    for directory in tree.directories() {
        let more = len_of(directory);
        if more > left {
            return false;
        }
        left -= more;
    }
    left == 0
}

/// How many datoms a directory has.
fn len_of(directory: &Directory) -> u64
    ensures { result ≡ length (leaf_datoms directory.now.leaves) }
{
    let mut len = 0;
    for leaf in directory.leaves() {
        len += leaf.datoms().len() as u64;
    }
    len
}
