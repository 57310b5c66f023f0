//! The merge in one order, leaf by leaf.
ghost use Rattle.std.specs.Prelude.{◌≡◌, ◌<◌, ◌≤◌, ◌++◌, Some, true, false, length, map, take, drop, IfOk, IsTrue, Contains};
ghost use Rattle.std.specs.List.{All, slice_get};
ghost use Rattle.std.specs.Option.{option_copied};
ghost use Rattle.std.specs.Arc.{arc_value};
ghost use Rattle.fb_values.specs.declared.facts.Datom.{Datom};
ghost use Rattle.fb_values.specs.Rising.{IsRising};
ghost use Rattle.live_index.specs.Growth.{HasNoTwins};
ghost use Rattle.seg_tree.specs.Nodes.{LeafNode, leaf_datoms};
ghost use Rattle.seg_merge.specs.Merged.{AreHeld, goes_before, KeepsLeaves};
ghost use Rattle.seg_merge.specs.Plans.{IsUnion, AddsLeaf, RepeatsNone};

use crate::leaf::{are_held, union};
use crate::plan::Plan;
use fb_covers::Covers;
use fb_memory::Memory;
use fb_search::place_of_datom;
use fb_values::{Datom, Order};
use seg_tree::Leaf;
use std::alloc::Global;
use std::sync::Arc;

/// The older leaves with the added datoms: a leaf stays where no added datom falls into its range. Where the order's index
/// is known to hold all of the older datoms still, such a leaf is not read.
pub fn planned(
    alloc: Global,
    order: Order,
    covers: &Covers,
    all_stay: bool,
    leaves: &[Arc<Leaf>],
    added: &[Datom],
) -> Result<Plan, Memory>
    requires leaves_rise { IsRising order (leaf_datoms (map arc_value leaves.now)) }
    requires added_rises { IsRising order added.now }
    requires single { HasNoTwins (leaf_datoms (map arc_value leaves.now) ++ added.now) }
    requires known { IsTrue all_stay
        → AreHeld covers.now order (leaf_datoms (map arc_value leaves.now)) }
    ensures union { IfOk result (λ plan. IsUnion order covers.now
        (leaf_datoms (map arc_value leaves.now)) added.now plan.datoms) }
    ensures older { IfOk result (λ plan. All (Contains (map arc_value leaves.now)) plan.kept) }
    ensures once { IfOk result (λ plan. RepeatsNone (map arc_value leaves.now) plan.kept) }
    ensures stays { IfOk result
        (λ plan. KeepsLeaves order covers.now (map arc_value leaves.now) added.now plan.kept) }
{
    let mut plan = Plan::new(alloc);
    let mut left = added;
    for place in 0..leaves.len() {
        let (now, behind) = left.split_at(before_leaf(order, leaves, place + 1, left));
        plan = with_leaf(alloc, plan, order, covers, all_stay, &leaves[place], now)?;
        left = behind;
    }
    // Where there is a leaf, the last one took them all.
    plan.add(union(alloc, order, covers, &[], left)?)
}

/// How many of the datoms go before the leaf with this number: all of them where there is no such leaf.
fn before_leaf(order: Order, leaves: &[Arc<Leaf>], place: usize, datoms: &[Datom]) -> usize
    requires { IsRising order datoms.now }
    ensures within { result ≤ length datoms.now }
    ensures some { (leaf : LeafNode) → slice_get (map arc_value leaves.now) place ≡ Some leaf
        → 0 < length leaf.datoms }
    ensures front { (d : Datom) → Contains (take result datoms.now) d
        → goes_before order (map arc_value leaves.now) place d ≡ true }
    ensures back { (d : Datom) → Contains (drop result datoms.now) d
        → goes_before order (map arc_value leaves.now) place d ≡ false }
{
    match leaf_at(leaves, place) {
        None => datoms.len(),
        Some(leaf) => place_of_datom(order, datoms, leaf.first()),
    }
}

fn leaf_at(leaves: &[Arc<Leaf>], place: usize) -> Option<&Leaf>
    ensures { option_copied result ≡ slice_get (map arc_value leaves.now) place }
{
    if place < leaves.len() {
        Some(&leaves[place])
    } else {
        None
    }
}

/// The plan with a leaf and with the datoms that fall into its range.
fn with_leaf(
    alloc: Global,
    plan: Plan,
    order: Order,
    covers: &Covers,
    all_stay: bool,
    leaf: &Arc<Leaf>,
    added: &[Datom],
) -> Result<Plan, Memory>
    requires leaf_rises { IsRising order (arc_value leaf.now).datoms }
    requires added_rises { IsRising order added.now }
    requires single { HasNoTwins ((arc_value leaf.now).datoms ++ added.now) }
    requires known { IsTrue all_stay → AreHeld covers.now order (arc_value leaf.now).datoms }
    ensures { IfOk result
        (λ new. AddsLeaf order covers.now (arc_value leaf.now) added.now plan new) }
{
    if added.is_empty() && is_whole(order, covers, all_stay, leaf) {
        return plan.keep(leaf);
    }
    plan.add(union(alloc, order, covers, leaf.datoms(), added)?)
}

/// Whether the order's index holds all of the leaf. Where that is known the leaf is not read.
fn is_whole(order: Order, covers: &Covers, known: bool, leaf: &Leaf) -> bool
    requires rises { IsRising order leaf.now.datoms }
    requires known { IsTrue known → AreHeld covers.now order leaf.now.datoms }
    ensures held { IsTrue result → AreHeld covers.now order leaf.now.datoms }
    ensures all { AreHeld covers.now order leaf.now.datoms → IsTrue result }
{
    known || are_held(order, covers, leaf.datoms())
}
