//! The merge of the four orders.
ghost use Rattle.std.specs.Prelude.{◌≡◌, ℕ, ◌<◌, ◌≤◌, ◌^◌, List, IfOk};
ghost use Rattle.std.specs.List.{All};
ghost use Rattle.fb_values.specs.declared.facts.Entry.{Entry};
ghost use Rattle.fb_values.specs.declared.indexes.Order.{Order};
ghost use Rattle.fb_values.specs.declared.indexes.Order.TheVariants.{Eavt, Aevt, Avet, Vaet};
ghost use Rattle.fb_covers.specs.Coverage.{Coverage};
ghost use Rattle.fb_values.specs.Lists.{Lists, list_in};
ghost use Rattle.seg_tree.specs.Nodes.{tree_datoms, tree_leaves};
ghost use Rattle.seg_tree.specs.Ids.{next_above, AreDistinct, IsInRow, old_leaves};
ghost use Rattle.seg_tree.specs.Indexes.{tree_in, trees_of, root_ids};
ghost use Rattle.seg_merge.specs.Merged.{AreHeld, IsMergeable, IsMerged, KeepsLeaves, due_of};
ghost use Rattle.seg_merge.specs.Merges.{IsPlan, HasOlderLeaves, HasNewDirectories};
ghost use Rattle.seg_merge.specs.Standing.{CanMerge};
ghost use Rattle.view_model.specs.Stands.{RootStands};

use crate::due::due;
use crate::order::planned;
use crate::plan::Plan;
use fb_covers::Covers;
use fb_memory::Memory;
use fb_values::Order;
use live_index::Live;
use seg_tree::Roots;
use std::alloc::Global;
use std::thread;
use std::thread::Threads;

/// The trees of the older ones, which were made by the coverage `held`, and of the live datoms up to the transaction `c`.
/// AVET and VAET hold the attributes of `covers`. The four orders are merged side by side; new nodes are numbered from
/// `first_id` on. Where an order's index still holds all that it held, only leaves that a datom falls into are read.
pub fn merge4<R: Threads + Sync>(
    rt: &R,
    alloc: Global,
    roots: &Roots,
    live: &Live,
    c: u32,
    first_id: u64,
    held: &Covers,
    covers: &Covers,
) -> Result<Roots, Memory>
    requires fresh { next_above (root_ids roots.now) ≤ first_id }
    requires small { first_id ≤ 2 ^ 61 }
    requires mergeable { (order : Order)
        → IsMergeable order (tree_datoms (tree_in roots.now order)) (list_in live.now order) }
    requires held { (order : Order)
        → AreHeld held.now order (tree_datoms (tree_in roots.now order)) }

    ensures merged { IfOk result (λ new. (order : Order)
        → IsMerged order covers.now c (tree_datoms (tree_in roots.now order))
        (list_in live.now order) (tree_datoms (tree_in new order))) }
    ensures stays { IfOk result (λ new. (order : Order)
        → KeepsLeaves order covers.now (tree_leaves (tree_in roots.now order))
        (due_of covers.now c order (list_in live.now order)) (tree_leaves (tree_in new order))) }
    ensures older { IfOk result (λ new. (order : Order)
        → HasOlderLeaves first_id (tree_leaves (tree_in roots.now order))
        (tree_leaves (tree_in new order))) }
    ensures directories { IfOk result (λ new. (order : Order)
        → HasNewDirectories first_id (tree_in new order)) }
    ensures ids { IfOk result (λ new. IsInRow first_id (root_ids new)) }
    ensures distinct { IfOk result (λ new. AreDistinct (root_ids new)) }

    // Where the older trees and the live lists stand for a history, the new trees stand for its entries up to `c`.
    ensures stand { IfOk result (λ new. (h : List Entry) (old : ℕ)
        → CanMerge h old c covers.now (trees_of roots.now) live.now
        → RootStands (trees_of new) h c) }
{
    let plans = Plans::of(rt, alloc, roots, live, c, held, covers)?;
    let merged = plans.build(alloc, first_id)?;
    Ok(merged)
}

/// What the four trees are to be made of.
#[derive(Drop)]
struct Plans {
    eavt: Plan,
    aevt: Plan,
    avet: Plan,
    vaet: Plan,
}

impl Plans {
    ghost use Rattle.seg_merge.specs.Four.{plan_in, kept_ids};

    /// The four plans, made side by side. Where no thread can be started the caller makes them all.
    fn of<R: Threads + Sync>(
        rt: &R,
        alloc: Global,
        roots: &Roots,
        live: &Live,
        c: u32,
        held: &Covers,
        covers: &Covers,
    ) -> Result<Plans, Memory>
        requires mergeable { (order : Order)
            → IsMergeable order (tree_datoms (tree_in roots.now order)) (list_in live.now order) }
        requires held { (order : Order)
            → AreHeld held.now order (tree_datoms (tree_in roots.now order)) }
        ensures { IfOk result (λ plans. (order : Order)
            → IsPlan order covers.now c (tree_in roots.now order) (list_in live.now order)
            (plan_in plans order)) }
    {
        let (by_entity, by_value) = thread::join(
            rt,
            ||
                requires mergeable { (order : Order)
                    → IsMergeable order (tree_datoms (tree_in roots.now order))
                    (list_in live.now order) }
                requires held { (order : Order)
                    → AreHeld held.now order (tree_datoms (tree_in roots.now order)) }
                ensures { IfOk result.0 (λ plan. IsPlan Eavt covers.entry.now c
                    (tree_in roots.entry.now Eavt) (list_in live.entry.now Eavt) plan)
                    × IfOk result.1 (λ plan. IsPlan Aevt covers.entry.now c
                    (tree_in roots.entry.now Aevt) (list_in live.entry.now Aevt) plan) }
            {
                plan_two(
                    rt,
                    alloc,
                    Order::Eavt,
                    Order::Aevt,
                    roots,
                    live,
                    c,
                    held,
                    covers,
                )
            },
            ||
                requires mergeable { (order : Order)
                    → IsMergeable order (tree_datoms (tree_in roots.now order))
                    (list_in live.now order) }
                requires held { (order : Order)
                    → AreHeld held.now order (tree_datoms (tree_in roots.now order)) }
                ensures { IfOk result.0 (λ plan. IsPlan Avet covers.entry.now c
                    (tree_in roots.entry.now Avet) (list_in live.entry.now Avet) plan)
                    × IfOk result.1 (λ plan. IsPlan Vaet covers.entry.now c
                    (tree_in roots.entry.now Vaet) (list_in live.entry.now Vaet) plan) }
            {
                plan_two(
                    rt,
                    alloc,
                    Order::Avet,
                    Order::Vaet,
                    roots,
                    live,
                    c,
                    held,
                    covers,
                )
            },
        );
        Ok(Plans {
            eavt: by_entity.0?,
            aevt: by_entity.1?,
            avet: by_value.0?,
            vaet: by_value.1?,
        })
    }

    /// The trees. Their new nodes are numbered from `first` on, one order after the other.
    fn build(self, alloc: Global, first: u64) -> Result<Roots, Memory>
        requires small { first ≤ 2 ^ 61 }
        requires older { (order : Order) → All (λ leaf. leaf.id < first) (plan_in self order).kept }
        requires once { AreDistinct (kept_ids self) }
        ensures datoms { IfOk result (λ roots. (order : Order)
            → tree_datoms (tree_in roots order) ≡ (plan_in self order).datoms) }
        ensures kept { IfOk result (λ roots. (order : Order)
            → old_leaves first (tree_leaves (tree_in roots order)) ≡ (plan_in self order).kept) }
        ensures directories { IfOk result (λ roots. (order : Order)
            → HasNewDirectories first (tree_in roots order)) }
        ensures ids { IfOk result (λ roots. IsInRow first (root_ids roots)) }
    {
        let (eavt, second) = self.eavt.build(alloc, first)?;
        let (aevt, third) = self.aevt.build(alloc, second)?;
        let (avet, fourth) = self.avet.build(alloc, third)?;
        let (vaet, _) = self.vaet.build(alloc, fourth)?;
        Ok(Roots {
            eavt,
            aevt,
            avet,
            vaet,
        })
    }
}

fn plan_two<R: Threads + Sync>(
    rt: &R,
    alloc: Global,
    first: Order,
    second: Order,
    roots: &Roots,
    live: &Live,
    c: u32,
    held: &Covers,
    covers: &Covers,
) -> (Result<Plan, Memory>, Result<Plan, Memory>)
    requires mergeable { (order : Order)
        → IsMergeable order (tree_datoms (tree_in roots.now order)) (list_in live.now order) }
    requires held { (order : Order)
        → AreHeld held.now order (tree_datoms (tree_in roots.now order)) }
    ensures first { IfOk result.0 (λ plan. IsPlan first covers.now c (tree_in roots.now first)
        (list_in live.now first) plan) }
    ensures second { IfOk result.1 (λ plan. IsPlan second covers.now c (tree_in roots.now second)
        (list_in live.now second) plan) }
{
    thread::join(
        rt,
        || plan_one(alloc, first, roots, live, c, held, covers),
        || plan_one(alloc, second, roots, live, c, held, covers),
    )
}

/// What the tree of one order is to be made of.
fn plan_one(
    alloc: Global,
    order: Order,
    roots: &Roots,
    live: &Live,
    c: u32,
    held: &Covers,
    covers: &Covers,
) -> Result<Plan, Memory>
    requires mergeable { IsMergeable order (tree_datoms (tree_in roots.now order)) (list_in live.now order) }
    requires held { AreHeld held.now order (tree_datoms (tree_in roots.now order)) }
    ensures { IfOk result (λ plan. IsPlan order covers.now c (tree_in roots.now order)
        (list_in live.now order) plan) }
{
    let leaves = roots.tree(order).leaves(alloc)?;
    let due = due(alloc, live, order, c, covers)?;
    let all_stay = held.stays_in(covers, order);
    planned(alloc, order, covers, all_stay, &leaves, &due)
}

/// Trees and live lists that stand for a history may be merged.
pub fn what_stands_may_be_merged()
    ensures { (h : List Entry) (old c : ℕ) (coverage : Coverage) (roots live : Lists)
        → CanMerge h old c coverage roots live → (order : Order)
        → IsMergeable order (list_in roots order) (list_in live order) }
{}
