//! Which trees have a record.
ghost use Rattle.std.specs.Prelude.{◌≡◌, ◌+◌, map, All, IfOk, OnOk};
ghost use Rattle.std.specs.Arc.{arc_value};
ghost use Rattle.seg_codec.specs.Trees.{AreWritable};
ghost use Rattle.seg_store.specs.Trees.{HaveStorableDatoms};
ghost use Rattle.seg_store.specs.Counts.{IsSmallLeaf, HasFewLeaves, IsCounted};

use fb_memory::Memory;
use seg_tree::{Directory, Leaf, Roots, Tree};
use std::alloc::Global;
use std::sync::Arc;

/// The greatest number of nodes of one kind that a record may have.
const MOST: u64 = u32::MAX as u64;

/// How many nodes of each kind there are.
#[derive(Clone, Copy)]
pub(crate) struct Counts {
    leaves: u32,
    directories: u32,
}

/// A record has places for the numbers of these trees' nodes. So many nodes that it has none have no room in memory either.
pub(crate) fn check_counts(alloc: Global, roots: &Roots) -> Result<(), Memory>
    requires { HaveStorableDatoms roots.now }
    ensures { OnOk result (AreWritable roots.now) }
{
    // That ids are small is known once the next one is asked.
    let _ = roots.next_id();
    let eavt = counts_of(alloc, &roots.eavt)?;
    let aevt = counts_of(alloc, &roots.aevt)?;
    let avet = counts_of(alloc, &roots.avet)?;
    let vaet = counts_of(alloc, &roots.vaet)?;
    let leaves = sum(eavt.leaves, aevt.leaves, avet.leaves, vaet.leaves);
    let directories = sum(
        eavt.directories,
        aevt.directories,
        avet.directories,
        vaet.directories,
    );
    if leaves > MOST || directories > MOST {
        return Err(Memory);
    }
    Ok(())
}

fn counts_of(alloc: Global, tree: &Tree) -> Result<Counts, Memory>
    ensures { IfOk result (IsCounted tree.now) }
{
    let leaves = tree.leaves(alloc)?;
    let directories = tree.directories();
    know_leaves(&leaves);
    know_directories(directories);
    Ok(Counts {
        leaves: count(leaves.len())?,
        directories: count(directories.len())?,
    })
}

/// So many, where a record has a place for the number.
fn count(len: usize) -> Result<u32, Memory>
    ensures { IfOk result (λ n. n ≡ len) }
{
    match u32::try_from(len) {
        Ok(n) => Ok(n),
        Err(_) => Err(Memory),
    }
}

fn sum(first: u32, second: u32, third: u32, fourth: u32) -> u64
    ensures { result ≡ first + second + third + fourth }
{
    first as u64 + second as u64 + third as u64 + fourth as u64
}

/// Each leaf is small. It does nothing: what holds of a leaf is known once it is asked.
fn know_leaves(leaves: &[Arc<Leaf>])
    ensures { All IsSmallLeaf (map arc_value leaves.now) }
{
    for leaf in leaves {
        let _ = leaf.id();
        let _ = leaf.datoms();
    }
}

/// Each directory has few leaves. It does nothing: what holds of a directory is known once it is asked.
fn know_directories(directories: &[Arc<Directory>])
    ensures { All HasFewLeaves (map arc_value directories.now) }
{
    for directory in directories {
        let _ = directory.leaves();
    }
}
