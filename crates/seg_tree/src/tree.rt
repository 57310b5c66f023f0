//! A tree and the places in it.
ghost use Rattle.std.specs.Prelude.{◌≡◌, ℕ, ◌+◌, ◌^◌, ◌<◌, ◌≤◌, ◌++◌, min, take, length, map, IfOk, Some};
ghost use Rattle.std.specs.List.{All, slice_get};
ghost use Rattle.std.specs.Option.{option_copied};
ghost use Rattle.std.specs.Arc.{arc_value};
ghost use Rattle.fb_values.specs.Rising.{IsRising};
ghost use Rattle.fb_search.specs.Places.{place_of};
ghost use Rattle.seg_tree.specs.Chunks.{AreFirsts};
ghost use Rattle.seg_tree.specs.Nodes.{leaf_datoms, tree_datoms, tree_leaves, StartsFull};
ghost use Rattle.seg_tree.specs.Ids.{node_ids, next_above};
ghost use Rattle.seg_tree.specs.Ranks.{rank, leaf_rank, IsInside, AreWithin};

use crate::nodes::{Directory, Leaf};
use fb_memory::Memory;
use fb_search::{Steps, lower_bound};
use fb_values::{Datom, Probe};
use std::alloc::Global;
use std::marker::{Brand, Model};
use std::sync::Arc;
use std::sync::ledger::{Blank, Ledger};

/// A place in a tree, or its end. It serves the tree that gave it.
#[derive(Clone, Copy, Debug, PartialEq, Eq)]
pub struct Place {
    directory: usize,
    leaf: usize,
    datom: usize,
}

impl Place {
    /// The first place of every tree, which in the empty tree is the end.
    pub const START: Place = Place {
        directory: 0,
        leaf: 0,
        datom: 0,
    };
}

/// A directory of directories.
#[derive(Drop)]
struct Root {
    /// The first datom of each directory.
    firsts: Vec<Datom>,
    directories: Vec<Arc<Directory>>,
}

impl Model for Root {
    ghost use Rattle.std.specs.Prelude.{List, map};
    ghost use Rattle.std.specs.Arc.{arc_value};
    ghost use Rattle.seg_tree.specs.Nodes.{DirectoryNode, IsRoot};

    ghost Value = { List DirectoryNode };

    ghost view = { λ r. map arc_value r.directories.items };

    ghost invariant = { λ r. IsRoot r.firsts.items (map arc_value r.directories.items) };
}

/// The datoms of one order in leaves under directories. A copy shares every node.
#[derive(Drop)]
pub struct Tree {
    root: Arc<Root>,
    next_id: u64,
}

impl Model for Tree {
    ghost use Rattle.std.specs.Prelude.{◌≡◌, ◌≤◌, ◌^◌, List};
    ghost use Rattle.std.specs.Arc.{arc_value};
    ghost use Rattle.seg_tree.specs.Nodes.{DirectoryNode};
    ghost use Rattle.seg_tree.specs.Ids.{node_ids, next_above};

    ghost Value = { List DirectoryNode };

    ghost view = { λ t. arc_value t.root };

    ghost invariant = { λ t. (t.next_id ≡ next_above (node_ids (arc_value t.root)))
        × (t.next_id ≤ 2 ^ 62) };
}

impl Root {
    fn directory(&self, place: usize) -> Option<&Directory>
        ensures { option_copied result ≡ slice_get self.now place }
    {
        if place < self.directories.len() {
            Some(&self.directories[place])
        } else {
            None
        }
    }

    fn at(&self, place: Place) -> Option<&Datom>
        ensures { option_copied result ≡ slice_get (tree_datoms self.now) (rank self.now place) }
    {
        match self.directory(place.directory) {
            None => None,
            Some(directory) => directory.at(place.leaf, place.datom),
        }
    }

    fn next(&self, place: Place) -> Place
        ensures { rank self.now result
            ≡ min (rank self.now place + 1) (length (tree_datoms self.now)) }
    {
        // What holds of every value of the type is known once a field is read.
        let _ = &self.firsts;
        match self.directory(place.directory) {
            None => place,
            Some(directory) => match directory.next(place.leaf, place.datom) {
                None => place,
                Some((leaf, datom)) => self.settled(place.directory, directory, leaf, datom),
            },
        }
    }

    /// A place of a directory, or where it is the directory's end, the first place of the next one.
    fn settled(&self, at: usize, directory: &Directory, leaf: usize, datom: usize) -> Place
        requires there { slice_get self.now at ≡ Some directory.now }
        requires inside { IsInside directory.now.leaves leaf datom }
        ensures { rank self.now result
            ≡ length (tree_datoms (take at self.now)) + leaf_rank directory.now.leaves leaf datom }
    {
        // What holds of every value of the type is known once a field is read.
        let _ = &self.firsts;
        if leaf < directory.len() {
            Place {
                directory: at,
                leaf,
                datom,
            }
        } else {
            Place {
                directory: self.behind(at),
                leaf: 0,
                datom: 0,
            }
        }
    }

    fn directories(&self) -> &[Arc<Directory>]
        ensures { map arc_value result.now ≡ self.now }
    {
        &self.directories
    }

    fn behind(&self, at: usize) -> usize
        requires { at < length self.now }
        ensures { result ≡ at + 1 }
    {
        let _len = self.directories.len();
        at + 1
    }

    fn seek<L: Ledger>(&self, probe: &Probe, steps: &mut Steps<L>) -> Place
        requires { IsRising probe.now.order (tree_datoms self.now) }
        ensures place { rank self.now result ≡ place_of probe.now (tree_datoms self.now) }
        ensures cost { (d l k : ℕ) → AreWithin self.now d l k → steps.new ≤ steps.old + d + l + k }
    {
        let behind = lower_bound(&self.firsts, probe, steps);
        if behind == 0 {
            return Place {
                directory: 0,
                leaf: 0,
                datom: 0,
            };
        }
        match self.directory(behind - 1) {
            None => unreachable!(),
            Some(directory) => {
                let (leaf, datom) = directory.seek(probe, steps);
                self.settled(behind - 1, directory, leaf, datom)
            }
        }
    }
}

impl Tree {
    pub fn of_directories(alloc: Global, directories: Vec<Arc<Directory>>) -> Result<Tree, Memory>
        ensures { IfOk result (λ tree. tree ≡ map arc_value directories.items) }
    {
        let firsts = firsts_of(&directories)?;
        let next_id = next_id_of(&directories);
        let root = Root {
            firsts,
            directories,
        };
        Ok(Tree {
            root: Arc::new(alloc, root)?,
            next_id,
        })
    }

    /// The same tree, ids included.
    pub fn share(&self) -> Result<Tree, Memory>
        ensures { IfOk result (λ tree. tree ≡ self.now) }
    {
        let root = self.root.clone()?;
        Ok(Tree {
            root,
            next_id: self.next_id,
        })
    }

    /// The least number, from 1 on, that is above the ids of all nodes.
    pub fn next_id(&self) -> u64
        ensures next { result ≡ next_above (node_ids self.now) }
        ensures small { result ≤ 2 ^ 62 }
    {
        self.next_id
    }

    pub fn directories(&self) -> &[Arc<Directory>]
        ensures { map arc_value result.now ≡ self.now }
    {
        let root: &Root = &self.root;
        root.directories()
    }

    /// The leaves from left to right, which stay shared.
    pub fn leaves(&self, alloc: Global) -> Result<Vec<Arc<Leaf>>, Memory>
        ensures { IfOk result (λ leaves. map arc_value leaves.items ≡ tree_leaves self.now) }
    {
        let mut leaves = Vec::new(alloc);
        for directory in self.directories() {
            leaves = with_leaves(leaves, directory)?;
        }
        Ok(leaves)
    }

    /// The datom at a place, or none at the end.
    pub fn at(&self, place: Place) -> Option<&Datom>
        ensures { option_copied result ≡ slice_get (tree_datoms self.now) (rank self.now place) }
    {
        let root: &Root = &self.root;
        root.at(place)
    }

    /// The place after a place. After the end comes the end.
    pub fn next(&self, place: Place) -> Place
        ensures { rank self.now result
            ≡ min (rank self.now place + 1) (length (tree_datoms self.now)) }
    {
        let root: &Root = &self.root;
        root.next(place)
    }

    /// The first place whose datom is not below the probe, or the end, for a caller that counts no comparisons.
    pub fn place(&self, probe: &Probe) -> Place
        requires { IsRising probe.now.order (tree_datoms self.now) }
        ensures { rank self.now result ≡ place_of probe.now (tree_datoms self.now) }
    {
        seek_from::<Brand>(self, probe, Blank::new(1))
    }

    /// The first place whose datom is not below the probe, or the end.
    pub fn seek<L: Ledger>(&self, probe: &Probe, steps: &mut Steps<L>) -> Place
        requires { IsRising probe.now.order (tree_datoms self.now) }
        ensures place { rank self.now result ≡ place_of probe.now (tree_datoms self.now) }
        // At most as many comparisons as there are binary digits in the numbers of directories, of the most leaves of a
        // directory and of the most datoms of a leaf.
        ensures cost { (d l k : ℕ) → AreWithin self.now d l k → steps.new ≤ steps.old + d + l + k }
    {
        let root: &Root = &self.root;
        root.seek(probe, steps)
    }
}

/// A seek whose comparisons a ledger of its own counts.
fn seek_from<L: Ledger>(tree: &Tree, probe: &Probe, blank: Blank) -> Place
    requires name { blank.name ≡ L.name }
    requires parts { blank.parts ≡ L.parts }
    requires some { 0 < blank.parts }
    requires rising { IsRising probe.now.order (tree_datoms tree.now) }
    ensures { rank tree.now result ≡ place_of probe.now (tree_datoms tree.now) }
{
    let mut steps = Steps::<L>::of(blank);
    tree.seek(probe, &mut steps)
}

/// The first datom of each directory.
fn firsts_of(directories: &Vec<Arc<Directory>>) -> Result<Vec<Datom>, Memory>
    ensures firsts { IfOk result (λ firsts. AreFirsts firsts.items
        (map (λ d. leaf_datoms d.leaves) (map arc_value directories.now.items))) }
    ensures starts { IfOk result (λ _. All StartsFull (map arc_value directories.now.items)) }
{
    let mut firsts = Vec::with_capacity(*directories.allocator(), directories.len())?;
    for directory in directories.iter() {
        firsts.push(directory.first().copy()?)?;
    }
    Ok(firsts)
}

/// The least number, from 1 on, that is above the ids of all nodes.
fn next_id_of(directories: &Vec<Arc<Directory>>) -> u64
    ensures next { result ≡ next_above (node_ids (map arc_value directories.now.items)) }
    ensures small { result ≤ 2 ^ 62 }
{
    let mut next: u64 = 1;
    for directory in directories.iter() {
        next = next.max(directory.next_id());
    }
    next
}

/// The leaves, and those of a directory after them.
fn with_leaves(leaves: Vec<Arc<Leaf>>, directory: &Directory) -> Result<Vec<Arc<Leaf>>, Memory>
    ensures { IfOk result
        (λ all. map arc_value all.items ≡ map arc_value leaves.items ++ directory.now.leaves) }
{
    let mut leaves = leaves;
    for leaf in directory.leaves() {
        leaves.push(leaf.clone()?)?;
    }
    Ok(leaves)
}
