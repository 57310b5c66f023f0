//! The nodes of a segment tree.
ghost use Rattle.std.specs.Prelude.{◌≡◌, ℕ, ◌+◌, ◌^◌, ◌<◌, ◌≤◌, [], ◌∷◌, ◌++◌, length, map, IfOk, IfSome, IfNone};
ghost use Rattle.std.specs.List.{All, slice_get};
ghost use Rattle.std.specs.Option.{option_copied};
ghost use Rattle.std.specs.Arc.{arc_value};
ghost use Rattle.fb_values.specs.Rising.{IsRising};
ghost use Rattle.fb_search.specs.Places.{place_of};
ghost use Rattle.seg_tree.specs.Chunks.{BeginsWith, AreFirsts};
ghost use Rattle.seg_tree.specs.Nodes.{leaf_datoms, StartsFull};
ghost use Rattle.seg_tree.specs.Ids.{leaf_ids, directory_ids, next_above};
ghost use Rattle.seg_tree.specs.Ranks.{leaf_rank, IsInside};

use fb_memory::Memory;
use fb_search::{Steps, lower_bound};
use fb_values::{Datom, Probe};
use std::marker::Model;
use std::sync::Arc;
use std::sync::ledger::Ledger;

/// The greatest number of datoms of a leaf, and of leaves of a directory.
pub const MOST: usize = 512;

/// Some datoms that follow one another in the tree's order, under an id.
#[derive(Drop)]
pub struct Leaf {
    id: u64,
    datoms: Vec<Datom>,
}

impl Model for Leaf {
    ghost use Rattle.seg_tree.specs.Nodes.{LeafNode, IsLeaf};

    ghost Value = { LeafNode };

    ghost view = { λ l. record { id = l.id; datoms = l.datoms.items } };

    ghost invariant = { λ l. IsLeaf l.id l.datoms.items };
}

impl Leaf {
    /// A leaf of 1 to 512 datoms.
    pub fn of(id: u64, datoms: Vec<Datom>) -> Leaf
        requires some { 0 < length datoms.items }
        requires few { length datoms.items ≤ MOST }
        requires small { id < 2 ^ 62 }
        ensures { result ≡ record { id = id; datoms = datoms.items } }
    {
        Leaf { id, datoms }
    }

    pub fn id(&self) -> u64
        ensures id { result ≡ self.now.id }
        ensures small { self.now.id < 2 ^ 62 }
    {
        self.id
    }

    pub fn datoms(&self) -> &[Datom]
        ensures datoms { result.now ≡ self.now.datoms }
        ensures some { 0 < length self.now.datoms }
        ensures few { length self.now.datoms ≤ MOST }
    {
        &self.datoms
    }

    pub fn first(&self) -> &Datom
        ensures { BeginsWith self.now.datoms result.now }
    {
        &self.datoms[0]
    }
}

/// Some leaves that follow one another in the tree, under an id.
#[derive(Drop)]
pub struct Directory {
    id: u64,
    /// The first datom of each leaf.
    firsts: Vec<Datom>,
    leaves: Vec<Arc<Leaf>>,
}

impl Model for Directory {
    ghost use Rattle.std.specs.Prelude.{map};
    ghost use Rattle.std.specs.Arc.{arc_value};
    ghost use Rattle.seg_tree.specs.Nodes.{DirectoryNode, IsDirectory};

    ghost Value = { DirectoryNode };

    ghost view = { λ d. record { id = d.id; leaves = map arc_value d.leaves.items } };

    ghost invariant = { λ d. IsDirectory d.id d.firsts.items (map arc_value d.leaves.items) };
}

impl Directory {
    /// A directory of 1 to 512 leaves.
    pub fn of(id: u64, leaves: Vec<Arc<Leaf>>) -> Result<Directory, Memory>
        requires some { 0 < length leaves.items }
        requires few { length leaves.items ≤ MOST }
        requires small { id < 2 ^ 62 }
        ensures { IfOk result (λ d. d ≡ record { id = id; leaves = map arc_value leaves.items }) }
    {
        let firsts = firsts_of(&leaves)?;
        Ok(Directory { id, firsts, leaves })
    }

    pub fn id(&self) -> u64
        ensures { result ≡ self.now.id }
    {
        self.id
    }

    pub fn leaves(&self) -> &[Arc<Leaf>]
        ensures leaves { map arc_value result.now ≡ self.now.leaves }
        ensures some { 0 < length self.now.leaves }
        ensures few { length self.now.leaves ≤ MOST }
    {
        &self.leaves
    }

    pub fn first(&self) -> &Datom
        ensures begins { BeginsWith (leaf_datoms self.now.leaves) result.now }
        ensures starts { StartsFull self.now }
    {
        &self.firsts[0]
    }

    /// The least number, from 1 on, that is above the ids of the directory and of its leaves.
    pub fn next_id(&self) -> u64
        ensures next { result ≡ next_above (directory_ids self.now) }
        ensures small { result ≤ 2 ^ 62 }
    {
        next_id_of(self.id, &self.leaves)
    }

    pub(crate) fn len(&self) -> usize
        ensures { result ≡ length self.now.leaves }
    {
        self.leaves.len()
    }

    fn leaf(&self, place: usize) -> Option<&Leaf>
        ensures { option_copied result ≡ slice_get self.now.leaves place }
    {
        if place < self.leaves.len() {
            Some(&self.leaves[place])
        } else {
            None
        }
    }

    /// The datom at a leaf's place.
    pub(crate) fn at(&self, leaf: usize, datom: usize) -> Option<&Datom>
        ensures { option_copied result
            ≡ slice_get (leaf_datoms self.now.leaves) (leaf_rank self.now.leaves leaf datom) }
    {
        match self.leaf(leaf) {
            None => None,
            Some(leaf) => nth(leaf.datoms(), datom),
        }
    }

    /// The leaf and the datom after a place, which may be the end of the directory, or none where it has no such place.
    pub(crate) fn next(&self, leaf: usize, datom: usize) -> Option<(usize, usize)>
        ensures next { IfSome result (λ next. leaf_rank self.now.leaves next.0 next.1
            ≡ leaf_rank self.now.leaves leaf datom + 1) }
        ensures inside { IfSome result (λ next. IsInside self.now.leaves next.0 next.1) }
        ensures none { IfNone result
            (leaf_rank self.now.leaves leaf datom ≡ length (leaf_datoms self.now.leaves)) }
    {
        // What holds of every value of the type is known once a field is read.
        let _ = &self.leaves;
        match self.leaf(leaf) {
            None => None,
            Some(found) => {
                let len = found.datoms().len();
                if datom < len {
                    if datom + 1 < len {
                        Some((leaf, datom + 1))
                    } else {
                        Some((leaf + 1, 0))
                    }
                } else {
                    None
                }
            }
        }
    }

    /// The first leaf and datom that are not below the probe, or the end of the directory.
    pub(crate) fn seek<L: Ledger>(&self, probe: &Probe, steps: &mut Steps<L>) -> (usize, usize)
        requires { IsRising probe.now.order (leaf_datoms self.now.leaves) }
        ensures place { leaf_rank self.now.leaves result.0 result.1
            ≡ place_of probe.now (leaf_datoms self.now.leaves) }
        ensures inside { IsInside self.now.leaves result.0 result.1 }
        ensures cost { (l k : ℕ) → length self.now.leaves < 2 ^ l
            → All (λ leaf. length leaf.datoms < 2 ^ k) self.now.leaves
            → steps.new ≤ steps.old + l + k }
    {
        let behind = lower_bound(&self.firsts, probe, steps);
        if behind == 0 {
            return (0, 0);
        }
        match self.leaf(behind - 1) {
            None => unreachable!(),
            Some(leaf) => {
                let datom = lower_bound(leaf.datoms(), probe, steps);
                if datom < leaf.datoms().len() {
                    (behind - 1, datom)
                } else {
                    (behind, 0)
                }
            }
        }
    }
}

fn nth(datoms: &[Datom], place: usize) -> Option<&Datom>
    ensures { option_copied result ≡ slice_get datoms.now place }
{
    datoms.get(place)
}

/// The first datom of each leaf.
fn firsts_of(leaves: &Vec<Arc<Leaf>>) -> Result<Vec<Datom>, Memory>
    ensures { IfOk result (λ firsts. AreFirsts firsts.items
        (map (λ leaf. leaf.datoms) (map arc_value leaves.now.items))) }
{
    let mut firsts = Vec::with_capacity(*leaves.allocator(), leaves.len())?;
    for leaf in leaves.iter() {
        firsts.push(leaf.first().copy()?)?;
    }
    Ok(firsts)
}

/// The least number that is above a directory's id and above those of its leaves.
fn next_id_of(id: u64, leaves: &Vec<Arc<Leaf>>) -> u64
    requires { id < 2 ^ 62 }
    ensures next { result ≡ next_above (leaf_ids (map arc_value leaves.now.items) ++ id ∷ []) }
    ensures small { result ≤ 2 ^ 62 }
{
    let mut next = id + 1;
    for leaf in leaves.iter() {
        next = next.max(leaf.id() + 1);
    }
    next
}
