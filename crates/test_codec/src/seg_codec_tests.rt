//! The documented merge record, written and read, and one after it that adds no node.
ghost use Rattle.seg_codec.specs.Trees.{AreStorable};

use crate::trees::hi_trees;
use fb_codec::BytesFault;
use fb_memory::Memory;
use seg_codec::{Ids, Nodes, Wanted, record_bytes, record_of};
use seg_tree::Roots;
use std::alloc::Global;
use std::test::Fail;

/// One leaf, with the id 1, and one directory, with the id 2, which is the EAVT tree.
const RECORD: &[u8] = &[
    2, 0, 0, 0, 1, 0, 0, 0, 1, 0, 0, 0, 0, 0, 0, 0, 1, 0, 0, 0, 1, 0, 0, 0x10, 0, 0, 0, 0, 1, 0, 0,
    0, 0, 0, 0, 0, 7, 2, 0, 0, 0, 2, 0x68, 0x69, 1, 0, 0, 0, 1, 0, 0, 0, 1, 0, 0, 0, 0, 0, 0, 0, 2,
    0, 0, 0, 1, 0, 0, 0, 0, 0, 0, 0, 1, 0, 0, 0, 1, 0, 0, 0, 0, 0, 0, 0, 2, 0, 0, 0, 0, 0, 0, 0, 0,
    0, 0, 0, 0,
];

/// The trees again, after the record that has their nodes.
const SAME_TREES: &[u8] = &[
    2, 0, 0, 0, 2, 0, 0, 0, 0, 0, 0, 0, 0, 0, 0, 0, 1, 0, 0, 0, 0, 0, 0, 0, 2, 0, 0, 0, 0, 0, 0, 0,
    0, 0, 0, 0, 0,
];

/// The records of two merges that made the same trees, and the ids of the nodes that they have.
#[derive(Drop)]
struct TwoRecords {
    first: Vec<u8>,
    second: Vec<u8>,
    ids: Ids,
}

fn two_records(alloc: Global, trees: &Roots) -> Result<TwoRecords, Memory>
    requires { AreStorable trees.now }
{
    let mut ids = Ids::new(alloc);
    let first = record_bytes(alloc, trees, 1, &ids)?;
    ids.add_trees(alloc, trees)?;
    let second = record_bytes(alloc, trees, 2, &ids)?;
    Ok(TwoRecords { first, second, ids })
}

fn records_of_hi(alloc: Global) -> Result<TwoRecords, Memory> {
    let trees = hi_trees(alloc, 1)?;
    two_records(alloc, &trees)
}

/// The payload, behind the room that a record has for its length.
fn payload_in(record: &[u8]) -> &[u8] {
    record.get(8..).unwrap_or(&[])
}

#[test]
fn records_have_the_documented_bytes(rt: HostRuntime) -> Result<(), Fail> {
    let written = records_of_hi(rt.alloc())?;
    assert_eq!(rt; payload_in(&written.first), RECORD);
    assert_eq!(rt; payload_in(&written.second), SAME_TREES);
    assert_eq!(rt; written.ids.as_slice(), [1, 2].as_slice());
    Ok(())
}

#[test]
fn records_take_no_more_room_than_their_bytes(rt: HostRuntime) -> Result<(), Fail> {
    let written = records_of_hi(rt.alloc())?;
    assert_eq!(rt; written.first.capacity(), written.first.len());
    assert_eq!(rt; written.second.capacity(), written.second.len());
    Ok(())
}

/// The c of a record and the number above the ids of its trees, or the byte at which it breaks.
fn read(alloc: Global, payload: &[u8], nodes: &mut Nodes) -> Result<Result<(u32, u64), u64>, Fail> {
    match record_of(alloc, payload, &Wanted::Every, nodes) {
        Ok((trees, c)) => Ok(Ok((c, trees.next_id()))),
        Err(BytesFault::At { byte }) => Ok(Err(byte)),
        Err(fault) => Err(fault.into()),
    }
}

/// Records that are read one after another, and what is read of each.
const READS: &[(&[u8], Result<(u32, u64), u64>)] = &[
    (SAME_TREES, Err(17)),
    (RECORD, Ok((1, 3))),
    (RECORD, Err(9)),
    (SAME_TREES, Ok((2, 3))),
];

/// The first of them that is read otherwise.
fn misread(alloc: Global, nodes: &mut Nodes) -> Result<Option<usize>, Fail> {
    for (n, (record, want)) in READS.iter().enumerate() {
        if read(alloc, record, nodes)? != *want {
            return Ok(Some(n));
        }
    }
    Ok(None)
}

#[test]
fn records_are_read_over_the_nodes_before_them(rt: HostRuntime) -> Result<(), Fail> {
    let mut nodes = Nodes::new(rt.alloc());
    let misread = misread(rt.alloc(), &mut nodes)?;
    assert_eq!(rt; misread, None);
    let ids = nodes.into_ids()?;
    assert_eq!(rt; ids.as_slice(), [1, 2].as_slice());
    Ok(())
}
