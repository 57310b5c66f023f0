//! The entries of a map in its tree, found by their keys.
ghost use Rattle.std.specs.Prelude.{◌≡◌, ◌+◌, ◌≤◌, IfOk, is_some};
ghost use Rattle.std.specs.List.{list_all};
ghost use Rattle.std.specs.Arc.{arc_value};
ghost use Rattle.std.specs.Option.{option_copied};
ghost use Rattle.shared_map.specs.Entries.{get, put, removed, first_from, IsRising};

use crate::tree::{HIGHEST, Node, Tree, balance, fork, joined};
use fb_chunks::{Share, Shared};
use fb_memory::Memory;
use std::alloc::Global;
use std::cmp::Ordering;
use std::sync::Arc;

/// Another form of a key, by which its value is found.
pub trait Query<K: Ord> {
    ghost key: { Self → K };

    /// How the key compares with another one.
    fn compare(&self, other: &K) -> Ordering
        ensures { result ≡ K.cmp (key self.now) other.now };
}

/// The key as it is.
#[derive(Drop)]
pub struct Plain<'a, K>(pub &'a K);

impl<K: Ord> Query<K> for Plain<'_, K> {
    ghost key = { λ query. query.0.now };

    fn compare(&self, other: &K) -> Ordering {
        self.0.cmp(other)
    }
}

/// The value at a key.
pub fn value_at<'a, K: Ord, V, Q: Query<K>>(tree: &'a Tree<(K, V)>, query: &Q) -> Option<&'a V>
    requires { IsRising K.cmp tree.now.0 }
    ensures { option_copied result ≡ get K.cmp tree.now.0 (Q.key query.now) }
{
    match &tree.node {
        Node::Tip => None,
        Node::Fork {
            left,
            item,
            right,
            ..
        } => {
            let (here, value) = item.get();
            match query.compare(here) {
                Ordering::Less => value_at(left, query),
                Ordering::Equal => Some(value),
                Ordering::Greater => value_at(right, query),
            }
        }
    }
}

/// The first entry whose key is not below this one.
pub fn entry_from<'a, K: Ord, V>(tree: &'a Tree<(K, V)>, key: &K) -> Option<&'a (K, V)>
    requires { IsRising K.cmp tree.now.0 }
    ensures { option_copied result ≡ first_from K.cmp key.now tree.now.0 }
{
    match &tree.node {
        Node::Tip => None,
        Node::Fork {
            left,
            item,
            right,
            ..
        } => {
            let entry = item.get();
            match key.cmp(&entry.0) {
                Ordering::Greater => entry_from(right, key),
                _ => Some(entry_from(left, key).unwrap_or(entry)),
            }
        }
    }
}

/// Whether the other tree has an entry of each key of the tree.
pub fn keys_are_in<K: Ord, V, W>(tree: &Tree<(K, V)>, other: &Tree<(K, W)>) -> bool
    requires { IsRising K.cmp other.now.0 }
    ensures { result ≡ list_all (λ e. is_some (get K.cmp other.now.0 e.0)) tree.now.0 }
{
    match &tree.node {
        Node::Tip => true,
        Node::Fork {
            left,
            item,
            right,
            ..
        } => {
            keys_are_in(left, other)
                && value_at(other, &Plain(&item.get().0)).is_some()
                && keys_are_in(right, other)
        }
    }
}

/// The tree with an entry, to which that of an equal key gives way.
pub fn with_entry<K: Ord + Drop, V: Drop>(
    alloc: Global,
    tree: &Arc<Tree<(K, V)>>,
    entry: Shared<(K, V)>,
) -> Result<Arc<Tree<(K, V)>>, Memory>
    requires rising { IsRising K.cmp (arc_value tree.now).0 }
    requires low { (arc_value tree.now).1 ≤ HIGHEST }
    ensures entries { IfOk result
        (λ new. (arc_value new).0 ≡ put K.cmp entry (arc_value tree.now).0) }
    ensures not_lower { IfOk result (λ new. (arc_value tree.now).1 ≤ (arc_value new).1) }
    ensures at_most_one_higher { IfOk result
        (λ new. (arc_value new).1 ≤ (arc_value tree.now).1 + 1) }
{
    let whole: &Tree<(K, V)> = tree;
    match &whole.node {
        Node::Tip => fork(alloc, tree.clone()?, entry, tree.clone()?),
        Node::Fork {
            left,
            item,
            right,
            ..
        } => match entry.get().0.cmp(&item.get().0) {
            Ordering::Less => {
                let left = with_entry(alloc, left, entry)?;
                balance(alloc, left, item.share()?, right.clone()?)
            }
            Ordering::Equal => fork(alloc, left.clone()?, entry, right.clone()?),
            Ordering::Greater => {
                let right = with_entry(alloc, right, entry)?;
                balance(alloc, left.clone()?, item.share()?, right)
            }
        },
    }
}

/// The tree without the entry of a key.
pub fn without_key<K: Ord + Drop, V: Drop>(
    alloc: Global,
    tree: &Arc<Tree<(K, V)>>,
    key: &K,
) -> Result<Arc<Tree<(K, V)>>, Memory>
    requires rising { IsRising K.cmp (arc_value tree.now).0 }
    requires low { (arc_value tree.now).1 ≤ HIGHEST }
    ensures entries { IfOk result
        (λ new. (arc_value new).0 ≡ removed K.cmp key.now (arc_value tree.now).0) }
    ensures not_higher { IfOk result (λ new. (arc_value new).1 ≤ (arc_value tree.now).1) }
    ensures at_most_one_lower { IfOk result
        (λ new. (arc_value tree.now).1 ≤ (arc_value new).1 + 1) }
{
    let whole: &Tree<(K, V)> = tree;
    match &whole.node {
        Node::Tip => Ok(tree.clone()?),
        Node::Fork {
            left,
            item,
            right,
            ..
        } => match key.cmp(&item.get().0) {
            Ordering::Less => {
                let left = without_key(alloc, left, key)?;
                balance(alloc, left, item.share()?, right.clone()?)
            }
            Ordering::Equal => joined(alloc, left, right),
            Ordering::Greater => {
                let right = without_key(alloc, right, key)?;
                balance(alloc, left.clone()?, item.share()?, right)
            }
        },
    }
}
