//! The map for callers.
ghost use Rattle.std.specs.Prelude.{◌≡◌, [], ◌==◌, length, IfOk, is_some};
ghost use Rattle.std.specs.List.{list_all};
ghost use Rattle.std.specs.Option.{option_copied};
ghost use Rattle.shared_map.specs.Entries.{get, put, removed, first_from, IsRising};

use crate::entries::{Plain, Query, entry_from, keys_are_in, value_at, with_entry, without_key};
use crate::tree::{HIGHEST, Node, Tree};
use fb_chunks::{Share, Shared};
use fb_memory::Memory;
use std::alloc::Global;
use std::marker::Model;
use std::sync::Arc;

/// A map in the order of its keys. A newer one is made from it by `with` and `without`, which leave it as it is, also
/// where memory runs out. They copy one way down a balanced tree, and a look-up goes one way down. `share` takes one
/// reference count.
#[derive(Drop)]
pub struct SharedMap<K: Ord, V> {
    alloc: Global,
    root: Arc<Tree<(K, V)>>,
}

impl<K: Ord, V> Model for SharedMap<K, V> {
    ghost use Rattle.std.specs.Prelude.{List, ◌≤◌};
    ghost use Rattle.std.specs.Arc.{arc_value};
    ghost use Rattle.shared_map.specs.declared.tree.TheConstants.{HIGHEST};
    ghost use Rattle.shared_map.specs.Entries.{IsRising};

    ghost Value = { List (K × V) };

    ghost view = { λ m. (arc_value m.root).0 };

    ghost invariant = { λ m. IsRising K.cmp (arc_value m.root).0
        × ((arc_value m.root).1 ≤ HIGHEST) };
}

impl<K: Ord + Drop, V: Drop> SharedMap<K, V> {
    pub fn new(alloc: Global) -> Result<SharedMap<K, V>, Memory>
        ensures { IfOk result (λ m. m ≡ []) }
    {
        let root = Arc::new(alloc, Tree::tip())?;
        Ok(SharedMap { alloc, root })
    }

    /// With a value at a key, to which an older one there gives way.
    pub fn with(&self, key: K, value: V) -> Result<SharedMap<K, V>, Memory>
        ensures { IfOk result (λ m. m ≡ put K.cmp (key, value) self.now) }
    {
        let entry = Shared::new(self.alloc, (key, value))?;
        let root = with_entry(self.alloc, &self.root, entry)?;
        if root.height() > HIGHEST {
            return Err(Memory);
        }
        Ok(SharedMap {
            alloc: self.alloc,
            root,
        })
    }

    /// Without the value at a key.
    pub fn without(&self, key: &K) -> Result<SharedMap<K, V>, Memory>
        ensures entries { IfOk result (λ m. m ≡ removed K.cmp key.now self.now) }
        ensures rising { IsRising K.cmp self.now }
    {
        let root = without_key(self.alloc, &self.root, key)?;
        Ok(SharedMap {
            alloc: self.alloc,
            root,
        })
    }
}

impl<K: Ord, V> SharedMap<K, V> {
    pub fn get(&self, key: &K) -> Option<&V>
        ensures { option_copied result ≡ get K.cmp self.now key.now }
    {
        value_at(&self.root, &Plain(key))
    }

    /// The value at the key of which the query is another form.
    pub fn get_by<Q: Query<K>>(&self, query: &Q) -> Option<&V>
        ensures { option_copied result ≡ get K.cmp self.now (Q.key query.now) }
    {
        value_at(&self.root, query)
    }

    /// The first entry whose key is not below this one.
    pub fn first_from(&self, key: &K) -> Option<&(K, V)>
        ensures entry { option_copied result ≡ first_from K.cmp key.now self.now }
        ensures rising { IsRising K.cmp self.now }
    {
        entry_from(&self.root, key)
    }

    pub fn is_empty(&self) -> bool
        ensures { result ≡ (length self.now == 0) }
    {
        match &self.root.node {
            Node::Tip => true,
            Node::Fork { .. } => false,
        }
    }

    /// Whether another map has a value at each of the keys. It takes a look-up for each.
    pub fn keys_are_in<W>(&self, other: &SharedMap<K, W>) -> bool
        ensures { result ≡ list_all (λ e. is_some (get K.cmp other.now e.0)) self.now }
    {
        keys_are_in(&self.root, &other.root)
    }
}

impl<K: Ord + Drop, V: Drop> Share for SharedMap<K, V> {
    fn share(&self) -> Result<SharedMap<K, V>, Memory> {
        let root = self.root.clone()?;
        Ok(SharedMap {
            alloc: self.alloc,
            root,
        })
    }
}
