//! The nodes of a file of segments.
ghost use Rattle.std.specs.Prelude.{◌≡◌, ◌<◌, ◌≤◌, ◌^◌, ◌++◌, ◌∷◌, [], length, map, take, nat_eq, not, false, Contains, All, IsTrue, IfSome, IfNone, IfOk, OnOk, OnErr};
ghost use Rattle.std.specs.List.{IsDistinct, list_any};
ghost use Rattle.std.specs.Arc.{arc_value};
ghost use Rattle.log_model.specs.Nodes.{no_nodes, ids_in, is_among, is_new_id, with_leaf, with_directory, is_directory_id, reaching};
ghost use Rattle.seg_tree.specs.Ids.{leaf_ids};
ghost use Rattle.seg_codec.specs.Trees.{file_leaf, file_directory};
ghost use Rattle.seg_codec.specs.InFile.{AreWhole, IsDirectoryOf};

use crate::ids::Ids;
use fb_memory::Memory;
use seg_tree::{Directory, Leaf};
use std::alloc::Global;
use std::marker::Model;
use std::sync::Arc;

/// All ids are below this number.
const IDS: u64 = 1 << 62;

/// The leaves and directories that a file has, in the order in which they are there.
#[derive(Drop)]
pub struct Nodes {
    leaves: Vec<Arc<Leaf>>,
    directories: Vec<Arc<Directory>>,
    leaf_ids: Ids,
    directory_ids: Ids,
}

impl Model for Nodes {
    ghost use Rattle.std.specs.Prelude.{map};
    ghost use Rattle.std.specs.Arc.{arc_value};
    ghost use Rattle.log_model.specs.Nodes as model;
    ghost use Rattle.seg_codec.specs.InFile.{nodes_in, AreNodes};

    ghost Value = { model.Nodes };

    ghost view = { λ n. nodes_in (map arc_value n.leaves.items)
        (map arc_value n.directories.items) };

    ghost invariant = { λ n. AreNodes (map arc_value n.leaves.items)
        (map arc_value n.directories.items) n.leaf_ids n.directory_ids };
}

/// How many nodes of each kind there are.
#[derive(Clone, Copy)]
pub(crate) struct Counts {
    pub leaves: usize,
    pub directories: usize,
}

impl Nodes {
    pub fn new(alloc: Global) -> Nodes
        ensures { result ≡ no_nodes }
    {
        Nodes {
            leaves: Vec::new(alloc),
            directories: Vec::new(alloc),
            leaf_ids: Ids::new(alloc),
            directory_ids: Ids::new(alloc),
        }
    }

    /// The ids of all nodes, those of leaves first.
    pub fn into_ids(self) -> Result<Ids, Memory>
        ensures { IfOk result (λ ids. ids ≡ ids_in self) }
    {
        let Nodes {
            leaf_ids,
            directory_ids,
            ..
        } = self;
        let mut ids = leaf_ids;
        // What holds of the ids is known once they are asked.
        let _ = ids.len();
        ids.add_all(directory_ids.as_slice())?;
        Ok(ids)
    }

    pub(crate) fn counts(&self) -> Counts
        ensures leaves { result.leaves ≡ length self.now.leaves }
        ensures directories { result.directories ≡ length self.now.directories }
        ensures distinct { IsDistinct nat_eq (ids_in self.now) }
        ensures whole { AreWhole self.now }
    {
        Counts {
            leaves: self.leaf_ids.len(),
            directories: self.directory_ids.len(),
        }
    }

    /// Whether the id may be that of a new node.
    pub(crate) fn is_new(&self, id: u64) -> bool
        ensures { result ≡ is_new_id self.now id }
    {
        id < IDS && !self.has(id)
    }

    fn has(&self, id: u64) -> bool
        ensures { result ≡ is_among (ids_in self.now) id }
    {
        self.leaf_ids.contains(id) || self.directory_ids.contains(id)
    }

    pub(crate) fn leaf(&self, id: u64) -> Option<&Arc<Leaf>>
        ensures none { IfNone result (is_among (map (λ leaf. leaf.id) self.now.leaves) id ≡ false) }
        ensures some { IfSome result (λ leaf. ((arc_value leaf.now).id ≡ id)
            × Contains self.now.leaves (file_leaf (arc_value leaf.now))) }
    {
        match self.leaf_ids.place(id) {
            None => None,
            Some(place) => Some(&self.leaves[place]),
        }
    }

    pub(crate) fn directory(&self, id: u64) -> Option<&Arc<Directory>>
        ensures none { IfNone result
            (is_among (map (λ directory. directory.id) self.now.directories) id ≡ false) }
        ensures some { IfSome result
            (λ directory. IsDirectoryOf self.now id (arc_value directory.now)) }
    {
        // What holds of the ids is known once they are asked.
        let _ = self.leaf_ids.len();
        let _ = self.directory_ids.len();
        match self.directory_ids.place(id) {
            None => None,
            Some(place) => Some(&self.directories[place]),
        }
    }

    pub(crate) fn add_leaf(&mut self, leaf: Arc<Leaf>) -> Result<(), Memory>
        requires { IsTrue (is_new_id self.old (arc_value leaf).id) }
        ensures added { OnOk result (self.new ≡ with_leaf self.old (file_leaf (arc_value leaf))) }
        ensures unchanged { OnErr result (self.new ≡ self.old) }
    {
        let known = self.leaves.len();
        let id = leaf.id();
        self.leaves.push(leaf)?;
        match self.leaf_ids.add(id) {
            Ok(()) => Ok(()),
            Err(memory) => {
                self.leaves.truncate(known);
                Err(memory)
            }
        }
    }

    pub(crate) fn add_directory(&mut self, directory: Arc<Directory>) -> Result<(), Memory>
        requires new { IsTrue (is_new_id self.old (arc_value directory).id) }
        requires there { All (λ leaf. Contains self.old.leaves (file_leaf leaf))
            (arc_value directory).leaves }
        requires once { IsDistinct nat_eq (leaf_ids (arc_value directory).leaves) }
        ensures added { OnOk result
            (self.new ≡ with_directory self.old (file_directory (arc_value directory))) }
        ensures unchanged { OnErr result (self.new ≡ self.old) }
    {
        let known = self.directories.len();
        let id = directory.id();
        self.directories.push(directory)?;
        match self.directory_ids.add(id) {
            Ok(()) => Ok(()),
            Err(memory) => {
                self.directories.truncate(known);
                Err(memory)
            }
        }
    }

    /// The first so many of each kind alone, if no directory among them has another leaf. It takes no memory.
    pub(crate) fn cut(&mut self, counts: Counts)
        requires { AreWhole
            (record {
              leaves = take counts.leaves self.old.leaves;
              directories = take counts.directories self.old.directories;
            }) }
        ensures { self.new
            ≡ record {
              leaves = take counts.leaves self.old.leaves;
              directories = take counts.directories self.old.directories;
            } }
    {
        // What holds of the ids is known once they are asked.
        let _ = self.leaf_ids.len();
        self.leaves.truncate(counts.leaves);
        self.directories.truncate(counts.directories);
        self.leaf_ids.cut(counts.leaves);
        self.directory_ids.cut(counts.directories);
    }

    /// Reaches a directory and its leaves, if it is a directory of the file and nothing of it is reached already.
    pub(crate) fn reach(&self, id: u64, reached: &mut Ids) -> Result<bool, Memory>
        ensures fits { IfOk result (λ fits. fits ≡ is_directory_id self.now reached.old id) }
        ensures reached { IfOk result
            (λ fits. IsTrue fits → reached.new ≡ reaching self.now reached.old id) }
    {
        match self.directory(id) {
            None => Ok(false),
            Some(directory) => {
                let fits = reach_directory(directory, reached)?;
                Ok(fits)
            }
        }
    }
}

/// Reaches a directory and its leaves, if nothing of it is reached already.
fn reach_directory(directory: &Directory, reached: &mut Ids) -> Result<bool, Memory>
    requires once { IsDistinct nat_eq (directory.now.id ∷ leaf_ids directory.now.leaves) }
    requires small { directory.now.id < 2 ^ 62 }
    ensures fits { IfOk result (λ fits. fits
        ≡ not (list_any (is_among reached.old) (directory.now.id ∷ leaf_ids directory.now.leaves))) }
    ensures reached { IfOk result (λ fits. IsTrue fits
        → reached.new ≡ reached.old ++ directory.now.id ∷ leaf_ids directory.now.leaves) }
{
    // What holds of the ids is known once they are asked.
    let _ = reached.len();
    if is_reached(directory, reached) {
        return Ok(false);
    }
    reached.add(directory.id())?;
    reach_leaves(directory, reached)?;
    Ok(true)
}

fn is_reached(directory: &Directory, reached: &Ids) -> bool
    ensures { result
        ≡ list_any (is_among reached.now) (directory.now.id ∷ leaf_ids directory.now.leaves) }
{
    reached.contains(directory.id()) || any_reached(directory, reached)
}

fn any_reached(directory: &Directory, reached: &Ids) -> bool
    ensures { result ≡ list_any (is_among reached.now) (leaf_ids directory.now.leaves) }
{
    for leaf in directory.leaves() {
        if reached.contains(leaf.id()) {
            return true;
        }
    }
    false
}

fn reach_leaves(directory: &Directory, reached: &mut Ids) -> Result<(), Memory>
    requires { IsDistinct nat_eq (reached.old ++ leaf_ids directory.now.leaves) }
    ensures { OnOk result (reached.new ≡ reached.old ++ leaf_ids directory.now.leaves) }
{
    for leaf in directory.leaves() {
        reached.add(leaf.id())?;
    }
    Ok(())
}
