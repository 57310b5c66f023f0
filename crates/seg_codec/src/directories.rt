//! Directories of a record.
ghost use Rattle.std.specs.Prelude.{◌≡◌, ◌≤◌, [], ◌∷◌, ◌++◌, length, map, drop, nat_eq, Contains, All, IsTrue, IfOk};
ghost use Rattle.std.specs.List.{IsDistinct};
ghost use Rattle.std.specs.Arc.{arc_value};
ghost use Rattle.fb_codec.specs.Answers.{Gives, GivesBy};
ghost use Rattle.log_model.specs.Fields.{that_fits, read_u64};
ghost use Rattle.log_model.specs.Storable.{is_u32};
ghost use Rattle.log_model.specs.Nodes.{is_among, is_new_id, is_leaf_id, with_directory};
ghost use Rattle.log_model.specs.Merges.{several_over, read_list, read_directory};
ghost use Rattle.seg_tree.specs.Nodes.{LeafNode};
ghost use Rattle.seg_tree.specs.Ids.{leaf_ids};
ghost use Rattle.seg_codec.specs.Trees.{file_leaf, file_directory};
ghost use Rattle.seg_codec.specs.Answers.{AddsOne, Adds};

use crate::leaves::{get_count, get_new_id, get_node_len};
use crate::nodes::Nodes;
use fb_codec::{BytesFault, get_u64, misfit};
use seg_tree::{Directory, Leaf};
use std::alloc::Global;
use std::sync::Arc;

/// The bytes of an id.
const ID: usize = 8;

/// So many directories, which are added to the nodes as they are read.
pub(crate) fn get_directories(
    alloc: Global,
    bytes: &[u8],
    at: usize,
    nodes: &mut Nodes,
) -> Result<usize, BytesFault>
    requires { at ≤ length bytes.now }
    ensures { Adds with_directory bytes.now nodes.old nodes.new result
        (read_list is_u32 read_directory with_directory nodes.old (drop at bytes.now)) }
{
    let (count, start) = get_count(bytes, at)?;
    add_directories(alloc, bytes, start, count, nodes)
}

fn add_directories(
    alloc: Global,
    bytes: &[u8],
    at: usize,
    count: u32,
    nodes: &mut Nodes,
) -> Result<usize, BytesFault>
    requires { at ≤ length bytes.now }
    ensures { Adds with_directory bytes.now nodes.old nodes.new result
        (several_over read_directory with_directory nodes.old count (drop at bytes.now)) }
{
    let mut end = at;
    for _ in 0..count {
        let next = add_directory(alloc, bytes, end, nodes)?;
        end = next;
    }
    Ok(end)
}

fn add_directory(
    alloc: Global,
    bytes: &[u8],
    at: usize,
    nodes: &mut Nodes,
) -> Result<usize, BytesFault>
    requires { at ≤ length bytes.now }
    ensures { AddsOne with_directory bytes.now nodes.old nodes.new result
        (read_directory nodes.old (drop at bytes.now)) }
{
    let (directory, end) = get_directory(alloc, bytes, at, nodes)?;
    nodes.add_directory(Arc::new(alloc, directory)?)?;
    Ok(end)
}

fn get_directory(
    alloc: Global,
    bytes: &[u8],
    at: usize,
    nodes: &Nodes,
) -> Result<(Directory, usize), BytesFault>
    requires { at ≤ length bytes.now }
    ensures gives { GivesBy file_directory bytes.now result
        (read_directory nodes.now (drop at bytes.now)) }
    ensures new { IfOk result (λ r. IsTrue (is_new_id nodes.now r.0.id)) }
    ensures there { IfOk result
        (λ r. All (λ leaf. Contains nodes.now.leaves (file_leaf leaf)) r.0.leaves) }
    ensures once { IfOk result (λ r. IsDistinct nat_eq (leaf_ids r.0.leaves)) }
{
    let (id, behind_id) = get_new_id(bytes, at, nodes)?;
    let (count, behind_count) = get_node_len(bytes, behind_id)?;
    let (leaves, end) = get_listed(alloc, bytes, behind_count, count, nodes)?;
    Ok((Directory::of(id, leaves)?, end))
}

/// So many leaves of the file by their ids. The bytes that are there bound the room that is taken for them.
fn get_listed(
    alloc: Global,
    bytes: &[u8],
    at: usize,
    count: u32,
    nodes: &Nodes,
) -> Result<(Vec<Arc<Leaf>>, usize), BytesFault>
    requires { at ≤ length bytes.now }
    ensures gives { GivesBy (λ v. leaf_ids (map arc_value v.items)) bytes.now result
        (several_over (λ before behind. that_fits (is_leaf_id nodes.now before) read_u64 behind)
        (λ before leaf. before ++ leaf ∷ []) [] count (drop at bytes.now)) }
    ensures count { IfOk result (λ r. length r.0.items ≡ count) }
    ensures there { IfOk result (λ r. All (λ leaf. Contains nodes.now.leaves (file_leaf leaf))
        (map arc_value r.0.items)) }
    ensures once { IfOk result (λ r. IsDistinct nat_eq (leaf_ids (map arc_value r.0.items))) }
{
    let most = (bytes.len() - at) / ID;
    let mut leaves = Vec::with_capacity(alloc, most.min(count as usize))?;
    let mut end = at;
    for _ in 0..count {
        let (leaf, next) = get_leaf(bytes, end, nodes, &leaves)?;
        leaves.push(leaf)?;
        end = next;
    }
    Ok((leaves, end))
}

/// A leaf of the file that is not listed yet, by its id.
fn get_leaf(
    bytes: &[u8],
    at: usize,
    nodes: &Nodes,
    before: &Vec<Arc<Leaf>>,
) -> Result<(Arc<Leaf>, usize), BytesFault>
    requires { at ≤ length bytes.now }
    ensures gives { GivesBy (λ leaf. (arc_value {X = LeafNode} leaf).id) bytes.now result
        (that_fits (is_leaf_id nodes.now (leaf_ids (map arc_value before.now.items))) read_u64
        (drop at bytes.now)) }
    ensures there { IfOk result (λ r. Contains nodes.now.leaves (file_leaf (arc_value r.0))) }
    ensures new { IfOk result (λ r. IsTrue
        (is_leaf_id nodes.now (leaf_ids (map arc_value before.now.items)) (arc_value r.0).id)) }
{
    let (id, next) = get_u64(bytes, at)?;
    let Some(leaf) = nodes.leaf(id) else {
        return Err(misfit(at));
    };
    if is_listed(before, id) {
        return Err(misfit(at));
    }
    Ok((leaf.clone()?, next))
}

fn is_listed(leaves: &Vec<Arc<Leaf>>, id: u64) -> bool
    ensures { result ≡ is_among (leaf_ids (map arc_value leaves.now.items)) id }
{
    for leaf in leaves.iter() {
        if leaf.id() == id {
            return true;
        }
    }
    false
}
