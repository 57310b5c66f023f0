//! The balanced tree below a map. Each fork has an item, which is between those of its two sides.
ghost use Rattle.std.specs.Prelude.{◌≡◌, ◌+◌, ◌<◌, ◌≤◌, max, ◌∷◌, ◌++◌, [], IfOk};
ghost use Rattle.std.specs.Arc.{arc_value};
ghost use Rattle.shared_map.specs.Trees.{DifferByAtMost, IsHeightAfterBalance};

use fb_chunks::{Share, Shared};
use fb_memory::Memory;
use std::alloc::Global;
use std::marker::Model;
use std::sync::Arc;

/// No map that a memory can hold is as high: a balanced tree of this height has more than 2^64 items.
pub const HIGHEST: u8 = 100;

#[cycle(tree)]
#[derive(Drop)]
pub struct Tree<X> {
    pub node: Node<X>,
}

#[cycle(tree)]
#[derive(Drop)]
pub enum Node<X> {
    /// The end of each way down. A map has one, which all its forks share.
    Tip,
    Fork {
        left: Arc<Tree<X>>,
        item: Shared<X>,
        right: Arc<Tree<X>>,
        /// How many forks are on the longest way down.
        height: u8,
    },
}

impl<X> Model for Tree<X> {
    ghost use Rattle.std.specs.Prelude.{ℕ, List, length};

    ghost Value = { List X × ℕ };

    ghost use Rattle.shared_map.specs.Tree.{items_and_height, IsTree};

    ghost view = { λ a. items_and_height a.node };

    ghost invariant = { λ a. IsTree a.node };

    ghost size = { λ d. length d.0 };

    ghost use Rattle.shared_map.specs.TreeFalls.{depth_le-length};

    ghost size_decreases = { λ a h. depth_le-length a.node };
}

impl<X> Tree<X> {
    pub fn tip() -> Tree<X>
        ensures { result ≡ ([], 0) }
    {
        Tree { node: Node::Tip }
    }

    pub fn height(&self) -> u8
        ensures height { result ≡ self.now.1 }
        ensures tip { self.now.1 ≡ 0 → self.now.0 ≡ [] }
    {
        match &self.node {
            Node::Tip => 0,
            Node::Fork { height, .. } => *height,
        }
    }
}

/// A tree of two sides that are about as high.
pub fn fork<X: Drop>(
    alloc: Global,
    left: Arc<Tree<X>>,
    item: Shared<X>,
    right: Arc<Tree<X>>,
) -> Result<Arc<Tree<X>>, Memory>
    requires balanced { DifferByAtMost 1 (arc_value left).1 (arc_value right).1 }
    requires low { max (arc_value left).1 (arc_value right).1 ≤ HIGHEST }
    ensures items { IfOk result
        (λ new. (arc_value new).0 ≡ (arc_value left).0 ++ item ∷ (arc_value right).0) }
    ensures height { IfOk result
        (λ new. (arc_value new).1 ≡ max (arc_value left).1 (arc_value right).1 + 1) }
{
    let height = left.height().max(right.height()) + 1;
    let node = Node::Fork {
        left,
        item,
        right,
        height,
    };
    Ok(Arc::new(alloc, Tree { node })?)
}

/// A tree of two sides of which one may be two forks higher.
pub fn balance<X: Drop>(
    alloc: Global,
    left: Arc<Tree<X>>,
    item: Shared<X>,
    right: Arc<Tree<X>>,
) -> Result<Arc<Tree<X>>, Memory>
    requires near { DifferByAtMost 2 (arc_value left).1 (arc_value right).1 }
    requires low { max (arc_value left).1 (arc_value right).1 ≤ HIGHEST }
    ensures items { IfOk result
        (λ new. (arc_value new).0 ≡ (arc_value left).0 ++ item ∷ (arc_value right).0) }
    ensures height { IfOk result (λ new.
        IsHeightAfterBalance (arc_value left).1 (arc_value right).1 (arc_value new).1) }
{
    let (l, r) = (left.height(), right.height());
    if l > r + 1 {
        lean_left(alloc, &left, item, right)
    } else if r > l + 1 {
        lean_right(alloc, left, item, &right)
    } else {
        fork(alloc, left, item, right)
    }
}

/// The sides of a fork, and the item between them.
#[derive(Drop)]
struct Sides<X> {
    left: Arc<Tree<X>>,
    item: Shared<X>,
    right: Arc<Tree<X>>,
}

/// A fork taken apart.
fn sides_of<X: Drop>(tree: &Tree<X>) -> Result<Sides<X>, Memory>
    requires { 0 < tree.now.1 }
    ensures items { IfOk result (λ sides.
        tree.now.0 ≡ (arc_value sides.left).0 ++ sides.item ∷ (arc_value sides.right).0) }
    ensures height { IfOk result (λ sides.
        tree.now.1 ≡ max (arc_value sides.left).1 (arc_value sides.right).1 + 1) }
    ensures balanced { IfOk result (λ sides.
        DifferByAtMost 1 (arc_value sides.left).1 (arc_value sides.right).1) }
{
    match &tree.node {
        Node::Tip => unreachable!(),
        Node::Fork {
            left,
            item,
            right,
            ..
        } => {
            let (left, right) = (left.clone()?, right.clone()?);
            let item = item.share()?;
            Ok(Sides { left, item, right })
        }
    }
}

/// A tree whose first side is two forks too high.
fn lean_left<X: Drop>(
    alloc: Global,
    left: &Tree<X>,
    item: Shared<X>,
    right: Arc<Tree<X>>,
) -> Result<Arc<Tree<X>>, Memory>
    requires two_higher { left.now.1 ≡ (arc_value right).1 + 2 }
    requires low { left.now.1 ≤ HIGHEST }
    ensures items { IfOk result
        (λ new. (arc_value new).0 ≡ left.now.0 ++ item ∷ (arc_value right).0) }
    ensures height { IfOk result
        (λ new. IsHeightAfterBalance left.now.1 (arc_value right).1 (arc_value new).1) }
{
    let Sides {
        left: outer,
        item: first,
        right: inner,
    } = sides_of(left)?;
    if outer.height() >= inner.height() {
        let inner = fork(alloc, inner, item, right)?;
        return fork(alloc, outer, first, inner);
    }
    let Sides {
        left: near,
        item: middle,
        right: far,
    } = sides_of(&inner)?;
    let left = fork(alloc, outer, first, near)?;
    let right = fork(alloc, far, item, right)?;
    fork(alloc, left, middle, right)
}

/// A tree whose second side is two forks too high.
fn lean_right<X: Drop>(
    alloc: Global,
    left: Arc<Tree<X>>,
    item: Shared<X>,
    right: &Tree<X>,
) -> Result<Arc<Tree<X>>, Memory>
    requires two_higher { right.now.1 ≡ (arc_value left).1 + 2 }
    requires low { right.now.1 ≤ HIGHEST }
    ensures items { IfOk result
        (λ new. (arc_value new).0 ≡ (arc_value left).0 ++ item ∷ right.now.0) }
    ensures height { IfOk result
        (λ new. IsHeightAfterBalance (arc_value left).1 right.now.1 (arc_value new).1) }
{
    let Sides {
        left: inner,
        item: last,
        right: outer,
    } = sides_of(right)?;
    if outer.height() >= inner.height() {
        let inner = fork(alloc, left, item, inner)?;
        return fork(alloc, inner, last, outer);
    }
    let Sides {
        left: far,
        item: middle,
        right: near,
    } = sides_of(&inner)?;
    let left = fork(alloc, left, item, far)?;
    let right = fork(alloc, near, last, outer)?;
    fork(alloc, left, middle, right)
}

/// The first item of a tree, and the tree of those after it.
#[derive(Drop)]
struct First<X> {
    item: Shared<X>,
    rest: Arc<Tree<X>>,
}

fn without_first<X: Drop>(alloc: Global, tree: &Tree<X>) -> Result<First<X>, Memory>
    requires some { 0 < tree.now.1 }
    requires low { tree.now.1 ≤ HIGHEST }
    ensures items { IfOk result (λ split. tree.now.0 ≡ split.item ∷ (arc_value split.rest).0) }
    ensures lower { IfOk result (λ split. (arc_value split.rest).1 ≤ tree.now.1) }
    ensures at_most_one_lower { IfOk result
        (λ split. tree.now.1 ≤ (arc_value split.rest).1 + 1) }
{
    let Sides { left, item, right } = sides_of(tree)?;
    if left.height() == 0 {
        return Ok(First { item, rest: right });
    }
    let First { item: first, rest } = without_first(alloc, &left)?;
    let rest = balance(alloc, rest, item, right)?;
    Ok(First { item: first, rest })
}

/// The items of one tree and then those of another that is about as high.
pub fn joined<X: Drop>(
    alloc: Global,
    left: &Arc<Tree<X>>,
    right: &Arc<Tree<X>>,
) -> Result<Arc<Tree<X>>, Memory>
    requires balanced { DifferByAtMost 1 (arc_value left.now).1 (arc_value right.now).1 }
    requires low { max (arc_value left.now).1 (arc_value right.now).1 ≤ HIGHEST }
    ensures items { IfOk result
        (λ new. (arc_value new).0 ≡ (arc_value left.now).0 ++ (arc_value right.now).0) }
    ensures not_lower { IfOk result
        (λ new. max (arc_value left.now).1 (arc_value right.now).1 ≤ (arc_value new).1) }
    ensures at_most_one_higher { IfOk result
        (λ new. (arc_value new).1 ≤ max (arc_value left.now).1 (arc_value right.now).1 + 1) }
{
    if right.height() == 0 {
        return Ok(left.clone()?);
    }
    let First { item, rest } = without_first(alloc, right)?;
    balance(alloc, left.clone()?, item, rest)
}
