//! From how many live datoms on a merge is worth what it writes.
ghost use Rattle.std.specs.Prelude.{◌≡◌, IsTrue};

use fb_roots::Base;
use fb_values::Order;
use seg_tree::{Directory, Tree};

/// Up to so many datoms in all trees, each merge that is due is worth it.
const SMALL: u64 = 1 << 20;

/// What larger trees have beyond that is so many times what is live when they are merged.
const TIMES: u64 = 2;

/// A merge into these trees is worth what it writes from so many live datoms on. Keys in no order touch every leaf, and a leaf into
/// which one datom falls is written whole. So the larger the trees are, the more is brought into them at once: what all merges of a
/// history write together stays within a few times the trees. Where no session is left, each merge that is due is worth it.
pub(crate) fn worth_of(trees: &Base, shut: bool) -> u64
    ensures { IsTrue shut → result ≡ 0 }
{
    if shut {
        return 0;
    }
    let roots = &trees.roots;
    let by_entity = len_of(roots.tree(Order::Eavt)).saturating_add(len_of(roots.tree(Order::Aevt)));
    let by_value = len_of(roots.tree(Order::Avet)).saturating_add(len_of(roots.tree(Order::Vaet)));
    by_entity.saturating_add(by_value).saturating_sub(SMALL) / TIMES
}

/// How many datoms a tree has, by its leaves.
fn len_of(tree: &Tree) -> u64 {
    let mut len: u64 = 0;
    for directory in tree.directories() {
        len = len.saturating_add(len_under(directory));
    }
    len
}

fn len_under(directory: &Directory) -> u64 {
    let mut len: u64 = 0;
    for leaf in directory.leaves() {
        len = len.saturating_add(leaf.datoms().len() as u64);
    }
    len
}
