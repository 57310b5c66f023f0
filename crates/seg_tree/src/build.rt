//! How a tree is made, from left to right.
ghost use Rattle.std.specs.Prelude.{◌≡◌, ◌<◌, ◌≤◌, ◌^◌, ◌+◌, ◌++◌, [], ◌∷◌, length, map, IfOk};
ghost use Rattle.std.specs.List.{range_with_len};
ghost use Rattle.std.specs.Arc.{arc_value};
ghost use Rattle.seg_tree.specs.Nodes.{tree_datoms};
ghost use Rattle.seg_tree.specs.Ids.{node_ids};
ghost use Rattle.seg_tree.specs.Built.{Build, build_of, IsGrowing, IsBuilt};

use crate::nodes::{Directory, Leaf, MOST};
use crate::tree::Tree;
use fb_memory::Memory;
use fb_values::Datom;
use std::alloc::Global;
use std::marker::Model;
use std::sync::Arc;

/// All ids are below this number.
const IDS: u64 = 1 << 62;

/// A tree in the making. Its leaves come from left to right: older ones under their ids, and new ones, which are
/// numbered as they come. A directory is numbered after its leaves.
#[derive(Drop)]
pub struct Builder {
    alloc: Global,
    first: u64,
    next: u64,
    directories: Vec<Arc<Directory>>,
    /// Those of the next directory.
    leaves: Vec<Arc<Leaf>>,
}

impl Model for Builder {
    ghost use Rattle.std.specs.Prelude.{◌<◌, length, map};
    ghost use Rattle.std.specs.Arc.{arc_value};
    ghost use Rattle.seg_tree.specs.Built.{Build, build_of, IsGrowing};

    ghost Value = { Build };

    ghost view = { λ b. build_of b.first (map arc_value b.directories.items)
        (map arc_value b.leaves.items) };

    ghost invariant = { λ b. IsGrowing b.first b.next (map arc_value b.directories.items)
        (map arc_value b.leaves.items)
        × (length b.leaves.items < 512) };
}

impl Builder {
    /// A tree without a leaf, whose first new id is to be `first`.
    pub fn new(alloc: Global, first: u64) -> Builder
        requires { first ≤ 2 ^ 62 }
        ensures { result ≡ record { first = first; datoms = []; kept = [] } }
    {
        Builder {
            alloc,
            first,
            next: first,
            directories: Vec::new(alloc),
            leaves: Vec::new(alloc),
        }
    }

    /// The tree with an older leaf after it.
    pub fn keep(self, leaf: Arc<Leaf>) -> Result<Builder, Memory>
        requires { (arc_value leaf).id < self.first }
        ensures { IfOk result (λ build. build
            ≡ record self {
              datoms = self.datoms ++ (arc_value leaf).datoms;
              kept = self.kept ++ arc_value leaf ∷ [];
            }) }
    {
        let Builder {
            alloc,
            first,
            next,
            directories,
            mut leaves,
        } = self;
        leaves.push(leaf)?;
        settled(alloc, first, next, directories, leaves)
    }

    /// The tree with datoms after it, in new leaves that are between half full and full where there is more than one.
    pub fn add(self, datoms: Vec<Datom>) -> Result<Builder, Memory>
        ensures { IfOk result
            (λ build. build ≡ record self { datoms = self.datoms ++ datoms.items }) }
    {
        let mut front = datoms;
        if front.is_empty() {
            return Ok(self);
        }
        if front.len() <= MOST {
            return self.add_leaf(front);
        }
        let behind = front.split_off(front.len() / 2)?;
        self.add(front)?.add(behind)
    }

    fn add_leaf(self, datoms: Vec<Datom>) -> Result<Builder, Memory>
        requires some { 0 < length datoms.items }
        requires few { length datoms.items ≤ MOST }
        ensures { IfOk result
            (λ build. build ≡ record self { datoms = self.datoms ++ datoms.items }) }
    {
        let Builder {
            alloc,
            first,
            next,
            directories,
            mut leaves,
        } = self;
        if next >= IDS {
            // No memory holds as many nodes.
            return Err(Memory);
        }
        let mut datoms = datoms;
        datoms.shrink_to_fit();
        leaves.push(Arc::new(alloc, Leaf::of(next, datoms))?)?;
        settled(alloc, first, next + 1, directories, leaves)
    }

    /// The tree, and the number that follows the ids of its new nodes.
    pub fn finish(self) -> Result<(Tree, u64), Memory>
        ensures { IfOk result (λ built. IsBuilt self built.0 built.1) }
    {
        let Builder {
            alloc,
            first,
            next,
            directories,
            leaves,
        } = self;
        let whole = close(alloc, first, next, directories, leaves)?;
        let tree = Tree::of_directories(alloc, whole.directories)?;
        Ok((tree, whole.next))
    }
}

/// The leaves go into a directory as soon as they fill one.
fn settled(
    alloc: Global,
    first: u64,
    next: u64,
    directories: Vec<Arc<Directory>>,
    leaves: Vec<Arc<Leaf>>,
) -> Result<Builder, Memory>
    requires growing { IsGrowing first next (map arc_value directories.items)
        (map arc_value leaves.items) }
    requires few { length leaves.items ≤ MOST }
    ensures { IfOk result (λ build. build
        ≡ build_of first (map arc_value directories.items) (map arc_value leaves.items)) }
{
    if leaves.len() < MOST {
        return Ok(Builder {
            alloc,
            first,
            next,
            directories,
            leaves,
        });
    }
    let whole = close(alloc, first, next, directories, leaves)?;
    Ok(Builder {
        alloc,
        first,
        next: whole.next,
        directories: whole.directories,
        leaves: Vec::new(alloc),
    })
}

/// Whole directories, and the next id.
#[derive(Drop)]
struct Whole {
    directories: Vec<Arc<Directory>>,
    next: u64,
}

/// The leaves in one directory more, if there are any.
fn close(
    alloc: Global,
    first: u64,
    next: u64,
    directories: Vec<Arc<Directory>>,
    leaves: Vec<Arc<Leaf>>,
) -> Result<Whole, Memory>
    requires growing { IsGrowing first next (map arc_value directories.items)
        (map arc_value leaves.items) }
    requires few { length leaves.items ≤ MOST }
    ensures growing { IfOk result
        (λ c. IsGrowing first c.next (map arc_value c.directories.items) []) }
    ensures same { IfOk result (λ c. build_of first (map arc_value c.directories.items) []
        ≡ build_of first (map arc_value directories.items) (map arc_value leaves.items)) }
{
    if leaves.is_empty() {
        return Ok(Whole { directories, next });
    }
    if next >= IDS {
        // No memory holds as many nodes.
        return Err(Memory);
    }
    let mut directories = directories;
    let directory = Directory::of(next, leaves)?;
    directories.push(Arc::new(alloc, directory)?)?;
    Ok(Whole {
        directories,
        next: next + 1,
    })
}

impl Tree {
    /// The tree of a list. Its ids are `first_id` and the numbers that follow it.
    pub fn of(alloc: Global, datoms: Vec<Datom>, first_id: u64) -> Result<Tree, Memory>
        requires { first_id ≤ 2 ^ 61 }
        ensures datoms { IfOk result (λ tree. tree_datoms tree ≡ datoms.items) }
        ensures ids { IfOk result
            (λ tree. node_ids tree ≡ range_with_len first_id (length (node_ids tree))) }
    {
        let (tree, _) = numbered(alloc, datoms, first_id)?;
        Ok(tree)
    }
}

/// The tree of a list, whose ids are `first` and the numbers that follow it, and the number after them.
pub fn numbered(alloc: Global, datoms: Vec<Datom>, first: u64) -> Result<(Tree, u64), Memory>
    requires { first ≤ 2 ^ 62 }
    ensures { IfOk result (λ built. IsBuilt
        (record { first = first; datoms = datoms.items; kept = [] }) built.0 built.1) }
{
    let builder = Builder::new(alloc, first).add(datoms)?;
    builder.finish()
}
