//! A tree of items that only grows and whose older versions stay. Its leaves have up to `CHUNK` items, and its forks up to
//! `CHUNK` sides, all of one length but the last. A longer tree is a copy of one way down, and shares all other sides.
ghost use Rattle.std.specs.Prelude.{◌≡◌, ◌<◌, ◌≤◌, ◌^◌, ◌-◌, [], ◌∷◌, ◌++◌, length, map, slice_get, IfOk, Some};
ghost use Rattle.std.specs.Arc.{arc_value};
ghost use Rattle.fb_chunks.specs.Chunks.{joined};
ghost use Rattle.fb_chunks.specs.Tree.{IsFork};

use crate::chunks::CHUNK;
use crate::sharing::{Share, copy_with};
use fb_memory::Memory;
use std::alloc::Global;
use std::marker::Model;
use std::sync::Arc;

/// A list of items, in a tree.
#[cycle(tree)]
#[derive(Drop)]
pub struct Tree<X> {
    node: Node<X>,
}

#[cycle(tree)]
#[derive(Drop)]
enum Node<X> {
    Leaf(Vec<X>),
    Fork {
        /// How many items each full side has.
        each: usize,
        /// How many items the whole has.
        len: usize,
        full: Vec<Arc<Tree<X>>>,
        last: Arc<Tree<X>>,
    },
}

impl<X> Model for Tree<X> {
    ghost use Rattle.std.specs.Prelude.{List, length};

    ghost Value = { List X };

    ghost use Rattle.fb_chunks.specs.Tree.{items_of, IsTree};

    ghost view = { λ a. items_of a.node };

    ghost invariant = { λ a. IsTree a.node };

    ghost size = { length };

    ghost use Rattle.fb_chunks.specs.TreeFalls.{depth_le-length};

    ghost size_decreases = { λ a h. depth_le-length a.node h };
}

impl<X> Tree<X> {
    pub fn leaf(items: Vec<X>) -> Tree<X>
        requires { length items.items ≤ CHUNK }
        ensures { result ≡ items.items }
    {
        Tree {
            node: Node::Leaf(items),
        }
    }

    pub fn at(&self, place: usize) -> &X
        requires { place < length self.now }
        ensures { slice_get self.now place ≡ Some result.now }
    {
        match &self.node {
            Node::Leaf(items) => &items[place],
            Node::Fork {
                each,
                full,
                last,
                ..
            } => {
                let side = place / *each;
                let place = place % *each;
                if side < full.len() {
                    full[side].at(place)
                } else {
                    last.at(place)
                }
            }
        }
    }

    pub fn len(&self) -> usize
        ensures { result ≡ length self.now }
    {
        match &self.node {
            Node::Leaf(items) => items.len(),
            Node::Fork { len, .. } => *len,
        }
    }
}

/// The tree with one more item at its end.
pub fn with<X: Share>(alloc: Global, tree: &Arc<Tree<X>>, item: X) -> Result<Arc<Tree<X>>, Memory>
    requires { length (arc_value tree.now) < 2 ^ 32 - 1 }
    ensures { IfOk result (λ grown. arc_value grown ≡ arc_value tree.now ++ item ∷ []) }
{
    let whole: &Tree<X> = tree;
    match &whole.node {
        Node::Leaf(items) => {
            if items.len() < CHUNK {
                let items = copy_with(alloc, items, item)?;
                Ok(Arc::new(alloc, Tree::leaf(items))?)
            } else {
                higher(alloc, tree, item)
            }
        }
        Node::Fork {
            each,
            len,
            full,
            last,
        } => {
            if last.len() < *each {
                let last = with(alloc, last, item)?;
                fork(alloc, *each, *len + 1, copy_sides(alloc, full)?, last)
            } else if full.len() + 1 < CHUNK {
                let mut full = copy_sides(alloc, full)?;
                full.push(last.clone()?)?;
                fork(alloc, *each, *len + 1, full, leaf_of(alloc, item)?)
            } else {
                higher(alloc, tree, item)
            }
        }
    }
}

/// A tree whose first full side is the tree as it is, and whose last one begins with the item.
fn higher<X: Share>(alloc: Global, tree: &Arc<Tree<X>>, item: X) -> Result<Arc<Tree<X>>, Memory>
    requires some { 0 < length (arc_value tree.now) }
    requires fits { length (arc_value tree.now) < 2 ^ 32 - 1 }
    ensures { IfOk result (λ grown. arc_value grown ≡ arc_value tree.now ++ item ∷ []) }
{
    let len = tree.len();
    let mut full = Vec::with_capacity(alloc, 1)?;
    full.push(tree.clone()?)?;
    fork(alloc, len, len + 1, full, leaf_of(alloc, item)?)
}

/// A leaf of one item.
fn leaf_of<X: Drop>(alloc: Global, item: X) -> Result<Arc<Tree<X>>, Memory>
    ensures { IfOk result (λ leaf. arc_value leaf ≡ item ∷ []) }
{
    let mut items = Vec::with_capacity(alloc, 1)?;
    items.push(item)?;
    Ok(Arc::new(alloc, Tree::leaf(items))?)
}

/// The same sides, with room for one more.
fn copy_sides<X: Drop>(alloc: Global, sides: &[Arc<Tree<X>>]) -> Result<Vec<Arc<Tree<X>>>, Memory>
    requires { length sides.now < 2 ^ 32 - 1 }
    ensures { IfOk result (λ copy. map arc_value copy.items ≡ map arc_value sides.now) }
{
    let mut copy = Vec::with_capacity(alloc, sides.len() + 1)?;
    for side in sides {
        copy.push(side.clone()?)?;
    }
    Ok(copy)
}

fn fork<X: Drop>(
    alloc: Global,
    each: usize,
    len: usize,
    full: Vec<Arc<Tree<X>>>,
    last: Arc<Tree<X>>,
) -> Result<Arc<Tree<X>>, Memory>
    requires { IsFork each len (map arc_value full.items) (arc_value last) }
    ensures { IfOk result
        (λ fork. arc_value fork ≡ joined (map arc_value full.items) ++ arc_value last) }
{
    let node = Node::Fork {
        each,
        len,
        full,
        last,
    };
    Ok(Arc::new(alloc, Tree { node })?)
}
