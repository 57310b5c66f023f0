//! How many leaves a tree has: the contract says how many datoms a leaf has at most, and not at least.
use fb_memory::Memory;
use fb_values::{Datom, Value};
use seg_tree::Tree;
use std::alloc::Global;
use std::test::Fail;

fn leaves(alloc: Global, size: u64) -> Result<usize, Memory> {
    let mut datoms = Vec::new(alloc);
    for e in 0..size {
        datoms.push(Datom {
            e,
            a: 7,
            v: Value::Long(0),
            t: 1,
            added: true,
        })?;
    }
    Ok(Tree::of(alloc, datoms, 1)?.leaves(alloc)?.len())
}

/// A list that is too long for one leaf is halved until it is not.
const ROWS: &[(u64, usize)] = &[(0, 0), (1, 1), (512, 1), (513, 2), (100_000, 256)];

#[test]
fn leaves_are_no_emptier_than_half(rt: HostRuntime) -> Result<(), Fail> {
    for (size, want) in ROWS {
        let leaves = leaves(rt.alloc(), *size)?;
        assert_eq!(rt; leaves, *want, "of {size} datoms");
    }
    Ok(())
}
