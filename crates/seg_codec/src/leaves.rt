//! Leaves of a record.
ghost use Rattle.std.specs.Prelude.{◌≡◌, ℕ, ◌<◌, ◌≤◌, ◌^◌, length, drop, IsTrue, IfOk};
ghost use Rattle.fb_codec.specs.Answers.{Gives, GivesBy};
ghost use Rattle.log_model.specs.Fields.{that_fits, read_u32, read_u64};
ghost use Rattle.log_model.specs.Values.{is_format};
ghost use Rattle.log_model.specs.Storable.{is_u32};
ghost use Rattle.log_model.specs.Nodes.{Nodes as FileNodes, is_new_id, is_node_length};
ghost use Rattle.log_model.specs.Merges.{several_over, read_list, read_dated, read_leaf};
ghost use Rattle.seg_codec.specs.Trees.{file_leaf};
ghost use Rattle.seg_codec.specs.Wanted.{with_held};
ghost use Rattle.seg_codec.specs.Answers.{AddsOne, Adds};

use crate::nodes::Nodes;
use crate::wanted::{Wanted, held};
use fb_codec::{BytesFault, get_datom, get_u32, get_u64, misfit};
use fb_values::Datom;
use seg_tree::{Leaf, MOST};
use std::alloc::Global;
use std::sync::Arc;

/// The bytes of the shortest datom with its t.
const LEAST_DATOM: usize = 23;

/// How many nodes there are.
pub(crate) fn get_count(bytes: &[u8], at: usize) -> Result<(u32, usize), BytesFault>
    requires { at ≤ length bytes.now }
    ensures { Gives bytes.now result (that_fits is_u32 read_u32 (drop at bytes.now)) }
{
    let (count, next) = get_u32(bytes, at)?;
    Ok((count, next))
}

/// How many members a node has.
pub(crate) fn get_node_len(bytes: &[u8], at: usize) -> Result<(u32, usize), BytesFault>
    requires { at ≤ length bytes.now }
    ensures gives { Gives bytes.now result (that_fits is_node_length read_u32 (drop at bytes.now)) }
    ensures some { IfOk result (λ r. 0 < r.0) }
    ensures few { IfOk result (λ r. r.0 ≤ MOST) }
{
    let (len, next) = get_u32(bytes, at)?;
    if len == 0 || len as usize > MOST {
        return Err(misfit(at));
    }
    Ok((len, next))
}

/// An id that no node has yet.
pub(crate) fn get_new_id(bytes: &[u8], at: usize, nodes: &Nodes) -> Result<(u64, usize), BytesFault>
    requires { at ≤ length bytes.now }
    ensures gives { Gives bytes.now result
        (that_fits (is_new_id nodes.now) read_u64 (drop at bytes.now)) }
    ensures new { IfOk result (λ r. IsTrue (is_new_id nodes.now r.0)) }
    ensures small { IfOk result (λ r. r.0 < 2 ^ 62) }
{
    let (id, next) = get_u64(bytes, at)?;
    if !nodes.is_new(id) {
        return Err(misfit(at));
    }
    Ok((id, next))
}

/// So many leaves, which are added to the nodes as they are read, those whole that are wanted.
pub(crate) fn get_leaves(
    alloc: Global,
    bytes: &[u8],
    at: usize,
    format: u8,
    wanted: &Wanted,
    nodes: &mut Nodes,
) -> Result<usize, BytesFault>
    requires place { at ≤ length bytes.now }
    requires format { IsTrue (is_format format) }
    ensures { Adds (with_held wanted.now) bytes.now nodes.old nodes.new result
        (read_list is_u32 (read_leaf format) (with_held wanted.now) nodes.old (drop at bytes.now)) }
{
    let (count, start) = get_count(bytes, at)?;
    add_leaves(alloc, bytes, start, format, count, wanted, nodes)
}

fn add_leaves(
    alloc: Global,
    bytes: &[u8],
    at: usize,
    format: u8,
    count: u32,
    wanted: &Wanted,
    nodes: &mut Nodes,
) -> Result<usize, BytesFault>
    requires place { at ≤ length bytes.now }
    requires format { IsTrue (is_format format) }
    ensures { Adds (with_held wanted.now) bytes.now nodes.old nodes.new result
        (several_over (read_leaf format) (with_held wanted.now) nodes.old count (drop at bytes.now)) }
{
    let mut end = at;
    for _ in 0..count {
        let next = add_leaf(alloc, bytes, end, format, wanted, nodes)?;
        end = next;
    }
    Ok(end)
}

fn add_leaf(
    alloc: Global,
    bytes: &[u8],
    at: usize,
    format: u8,
    wanted: &Wanted,
    nodes: &mut Nodes,
) -> Result<usize, BytesFault>
    requires place { at ≤ length bytes.now }
    requires format { IsTrue (is_format format) }
    ensures { AddsOne (with_held wanted.now) bytes.now nodes.old nodes.new result
        (read_leaf format nodes.old (drop at bytes.now)) }
{
    let (leaf, end) = get_leaf(alloc, bytes, at, format, nodes)?;
    let leaf = held(alloc, leaf, wanted)?;
    nodes.add_leaf(Arc::new(alloc, leaf)?)?;
    Ok(end)
}

fn get_leaf(
    alloc: Global,
    bytes: &[u8],
    at: usize,
    format: u8,
    nodes: &Nodes,
) -> Result<(Leaf, usize), BytesFault>
    requires place { at ≤ length bytes.now }
    requires format { IsTrue (is_format format) }
    ensures gives { GivesBy file_leaf bytes.now result
        (read_leaf format nodes.now (drop at bytes.now)) }
    ensures new { IfOk result (λ r. IsTrue (is_new_id nodes.now r.0.id)) }
{
    let (id, behind_id) = get_new_id(bytes, at, nodes)?;
    let (count, behind_count) = get_node_len(bytes, behind_id)?;
    let (datoms, end) = get_datoms(alloc, bytes, behind_count, format, count)?;
    Ok((Leaf::of(id, datoms), end))
}

/// So many datoms, each with its t after it. The bytes that are there bound the room that is taken for them.
fn get_datoms(
    alloc: Global,
    bytes: &[u8],
    at: usize,
    format: u8,
    count: u32,
) -> Result<(Vec<Datom>, usize), BytesFault>
    requires place { at ≤ length bytes.now }
    requires format { IsTrue (is_format format) }
    ensures gives { (nodes : FileNodes) → GivesBy (λ v. v.items) bytes.now result
        (several_over (λ _ behind. read_dated format behind) (λ s _. s) nodes count
        (drop at bytes.now)) }
    ensures count { IfOk result (λ r. length r.0.items ≡ count) }
{
    let most = (bytes.len() - at) / LEAST_DATOM;
    let mut datoms = Vec::with_capacity(alloc, most.min(count as usize))?;
    let mut end = at;
    for _ in 0..count {
        let (datom, next) = get_dated(alloc, bytes, end, format)?;
        datoms.push(datom)?;
        end = next;
    }
    Ok((datoms, end))
}

fn get_dated(
    alloc: Global,
    bytes: &[u8],
    at: usize,
    format: u8,
) -> Result<(Datom, usize), BytesFault>
    requires place { at ≤ length bytes.now }
    requires format { IsTrue (is_format format) }
    ensures { Gives bytes.now result (read_dated format (drop at bytes.now)) }
{
    let (datom, behind) = get_datom(alloc, bytes, at, format, 0)?;
    let (t, end) = get_u32(bytes, behind)?;
    Ok((Datom { t, ..datom }, end))
}
