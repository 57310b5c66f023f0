//! Merge records that are read.
ghost use Rattle.std.specs.Prelude.{◌≡◌, ◌≤◌, ◌++◌, ℕ, List, length, drop, false, IsTrue, IfOk};
ghost use Rattle.fb_codec.specs.declared.faults.BytesFault.TheVariants.{At};
ghost use Rattle.log_model.specs.Fields.{at_end};
ghost use Rattle.log_model.specs.Fronts.{has_whole_field as model_has_whole_field};
ghost use Rattle.log_model.specs.Merges.{record_says, bad_from, read_roots};
ghost use Rattle.seg_codec.specs.Answers.{Matches, ReadsRecord, MatchesRoots};

use crate::directories::get_directories;
use crate::leaves::get_leaves;
use crate::nodes::Nodes;
use crate::roots::get_roots;
use crate::wanted::Wanted;
use fb_codec::{BytesFault, get_format, get_u32, has_whole_field, misfit};
use fb_memory::Memory;
use log_model::a_front_tells_a_misfit;
use seg_tree::Roots;
use std::alloc::Global;

/// The trees of a record over the nodes before it, and their c. The record's nodes are added, those leaves whole that are
/// wanted; after an error the nodes are as they were.
pub fn record_of(
    alloc: Global,
    payload: &[u8],
    wanted: &Wanted,
    nodes: &mut Nodes,
) -> Result<(Roots, u32), BytesFault>
    ensures { Matches wanted.now nodes.old nodes.new result (record_says nodes.old payload.now) }
{
    let known = nodes.counts();
    match read_record(alloc, payload, wanted, nodes) {
        Ok(found) => Ok(found),
        Err(fault) => {
            nodes.cut(known);
            Err(fault)
        }
    }
}

/// Whether the front of a payload tells that it is no record over the nodes, which stay as they are.
pub fn is_bad_front(
    alloc: Global,
    front: &[u8],
    wanted: &Wanted,
    nodes: &mut Nodes,
) -> Result<bool, Memory>
    ensures bad { IfOk result (λ bad. IsTrue bad → (rest : List ℕ)
        → (byte : ℕ) × (record_says nodes.old (front.now ++ rest) ≡ bad_from byte)) }
    ensures untold { IfOk result (λ bad. bad ≡ false → (byte : ℕ)
        → record_says nodes.old front.now ≡ bad_from byte
        → model_has_whole_field front.now byte ≡ false) }
    ensures stays { nodes.new ≡ nodes.old }
{
    a_front_tells_a_misfit();
    let known = nodes.counts();
    match read_record(alloc, front, wanted, nodes) {
        Ok(_) => {
            nodes.cut(known);
            Ok(false)
        }
        Err(fault) => {
            nodes.cut(known);
            is_told(front, fault)
        }
    }
}

/// Whether the fault is no field that the front cuts off.
fn is_told(front: &[u8], fault: BytesFault) -> Result<bool, Memory>
    ensures { IfOk result (λ told. (byte : ℕ) × (fault ≡ At byte)
        × (told ≡ model_has_whole_field front.now byte)) }
{
    match fault {
        BytesFault::At { byte } => Ok(has_whole_field(front, byte)),
        BytesFault::Memory => Err(Memory),
    }
}

fn read_record(
    alloc: Global,
    payload: &[u8],
    wanted: &Wanted,
    nodes: &mut Nodes,
) -> Result<(Roots, u32), BytesFault>
    ensures { ReadsRecord wanted.now nodes.old nodes.new result (record_says nodes.old payload.now) }
{
    let (format, behind_format) = get_format(payload, 0)?;
    let (c, behind_c) = get_u32(payload, behind_format)?;
    let behind_leaves = get_leaves(alloc, payload, behind_c, format, wanted, nodes)?;
    let behind_directories = get_directories(alloc, payload, behind_leaves, nodes)?;
    let roots = get_last_roots(alloc, payload, behind_directories, nodes)?;
    Ok((roots, c))
}

/// The trees of the roots, after which the payload ends.
fn get_last_roots(
    alloc: Global,
    payload: &[u8],
    at: usize,
    nodes: &Nodes,
) -> Result<Roots, BytesFault>
    requires { at ≤ length payload.now }
    ensures { MatchesRoots nodes.now payload.now result
        (at_end (read_roots nodes.now (drop at payload.now))) }
{
    let (ids, end) = get_roots(alloc, payload, at, nodes)?;
    if end < payload.len() {
        return Err(misfit(end));
    }
    let trees = nodes.trees(alloc, &ids)?;
    Ok(trees)
}
