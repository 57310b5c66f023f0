//! The merge of a database value.
ghost use Rattle.std.specs.Prelude.{◌≡◌, ◌↔◌, ◌<◌, ◌≤◌, ◌^◌, IfOk, IsErrOf};
ghost use Rattle.fb_model.specs.History.{basis};
ghost use Rattle.view_model.specs.Stands.{RootStands};
ghost use Rattle.seg_tree.specs.Ids.{next_above, IsInRow};
ghost use Rattle.seg_tree.specs.Indexes.{root_ids, trees_of};
ghost use Rattle.fb_merge.specs.Made.{SharesLeaves, SharesNoDirectory};
ghost use Rattle.fb_merge.specs.declared.stop.MergeStop.{MergeStop};

use crate::stop::MergeStop;
use fb_memory::Memory;
use fb_view::Snapshot;
use seg_merge::{merge4, what_stands_may_be_merged};
use seg_tree::Roots;
use std::alloc::Global;
use std::thread::Threads;

/// The greatest id that a merge's first new node may have.
const GREATEST_FIRST_ID: u64 = 2_305_843_009_213_693_952;

/// The trees of all entries of the value, made of its own ones.
pub fn merged<R: Threads + Sync>(
    rt: &R,
    alloc: Global,
    begin: &Snapshot,
    first_id: u64,
) -> Result<Roots, MergeStop>
    requires fresh { next_above (root_ids begin.now.roots) ≤ first_id }
    ensures stand { IfOk result
        (λ roots. RootStands (trees_of roots) begin.now.entries (basis begin.now.entries)) }
    ensures ids { IfOk result (λ roots. IsInRow first_id (root_ids roots)) }
    ensures older { IfOk result (λ roots. SharesLeaves first_id begin.now.roots roots) }
    ensures directories { IfOk result (SharesNoDirectory first_id) }
    ensures spent { IsErrOf result MergeStop.Spent ↔ (2 ^ 61 < first_id) }
{
    let merged = merged_onto(rt, alloc, begin.roots(), begin.covered(), begin, first_id)?;
    Ok(merged)
}

/// The trees of all entries of the value, made of other trees of its history, which are of its entries up to `c`. These may be
/// newer than the value's own, or older. Where the value's own are of another `c`, it takes a pass over the value's entries.
pub fn merged_onto<R: Threads + Sync>(
    rt: &R,
    alloc: Global,
    base: &Roots,
    c: u32,
    begin: &Snapshot,
    first_id: u64,
) -> Result<Roots, MergeStop>
    requires base { RootStands (trees_of base.now) begin.now.entries c }
    requires fresh { next_above (root_ids base.now) ≤ first_id }
    ensures stand { IfOk result
        (λ roots. RootStands (trees_of roots) begin.now.entries (basis begin.now.entries)) }
    ensures ids { IfOk result (λ roots. IsInRow first_id (root_ids roots)) }
    ensures older { IfOk result (λ roots. SharesLeaves first_id base.now roots) }
    ensures directories { IfOk result (SharesNoDirectory first_id) }
    ensures spent { IsErrOf result MergeStop.Spent ↔ (2 ^ 61 < first_id) }
{
    if first_id > GREATEST_FIRST_ID {
        return Err(MergeStop::Spent);
    }
    let beside = live_beside(alloc, base, c, begin)?;
    let merged = with_live(rt, alloc, base, &beside, first_id)?;
    Ok(merged)
}

/// The value whose live lists go with trees of its entries up to `c`.
fn live_beside(alloc: Global, base: &Roots, c: u32, begin: &Snapshot) -> Result<Snapshot, Memory>
    requires { RootStands (trees_of base.now) begin.now.entries c }
    ensures entries { IfOk result (λ s. s.entries ≡ begin.now.entries) }
    ensures covered { IfOk result (λ s. s.covered ≡ c) }
{
    if begin.covered() == c {
        return begin.share();
    }
    let entries = begin.entries().share()?;
    let roots = base.share()?;
    Snapshot::opened(alloc, entries, roots, c)
}

/// The trees with the value's live lists merged in, which go with them.
fn with_live<R: Threads + Sync>(
    rt: &R,
    alloc: Global,
    base: &Roots,
    beside: &Snapshot,
    first_id: u64,
) -> Result<Roots, Memory>
    requires base { RootStands (trees_of base.now) beside.now.entries beside.now.covered }
    requires fresh { next_above (root_ids base.now) ≤ first_id }
    requires small { first_id ≤ 2 ^ 61 }
    ensures stand { IfOk result
        (λ roots. RootStands (trees_of roots) beside.now.entries (basis beside.now.entries)) }
    ensures ids { IfOk result (λ roots. IsInRow first_id (root_ids roots)) }
    ensures older { IfOk result (λ roots. SharesLeaves first_id base.now roots) }
    ensures directories { IfOk result (SharesNoDirectory first_id) }
{
    what_stands_may_be_merged();
    let merged = merge4(
        rt,
        alloc,
        base,
        beside.live(),
        beside.basis(),
        first_id,
        beside.held(),
        beside.schema().covers(),
    )?;
    Ok(merged)
}
