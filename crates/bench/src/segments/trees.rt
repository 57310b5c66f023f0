//! Live indexes and trees of numbered datoms, merges and seeks.
ghost use Rattle.std.specs.Prelude.{◌≡◌, IfOk};
ghost use Rattle.fb_values.specs.Rising.{IsRising};
ghost use Rattle.fb_covers.specs.Coverage.{Coverage};
ghost use Rattle.live_index.specs.Samples.{adds, AreSamples};
ghost use Rattle.seg_tree.specs.Nodes.{tree_datoms};
ghost use Rattle.bench.specs.Rising.{LiveRises, TreesAreHeld, TreesRise};

use crate::common::{Draws, live_of, no_samples, pushed, sample};
use fb_covers::Covers;
use fb_memory::Memory;
use fb_values::{Datom, Order, Probe, Value};
use live_index::Live;
use seg_merge::merge4;
use seg_tree::{Roots, Tree};
use std::alloc::Global;
use std::thread::Threads;

/// The transaction of the trees' datoms, and that of the live ones.
const OLDER: u32 = 1;

pub(crate) const NEWER: u32 = 2;

/// The one attribute.
const ATTRIBUTE: u64 = 7;

/// The numbers of some datoms: `count` of them from `from` on, each `step` above the one before.
#[derive(Clone, Copy)]
pub(crate) struct Numbers {
    from: u32,
    step: u32,
    count: u32,
}

impl Numbers {
    pub(crate) fn of(from: u32, step: u32, count: u32) -> Numbers {
        Numbers { from, step, count }
    }

    fn at(&self, n: u32) -> u32 {
        self.from.wrapping_add(self.step.wrapping_mul(n))
    }
}

/// AVET holds the attribute of all datoms, VAET none.
pub(crate) fn coverage(alloc: Global) -> Result<Covers, Memory> {
    Covers::of(alloc, vec![in alloc; ATTRIBUTE]?, Vec::new(alloc))
}

/// A live index of the numbered datoms, all of the transaction t.
pub(crate) fn index(
    alloc: Global,
    covers: &Covers,
    numbers: Numbers,
    t: u32,
) -> Result<Live, Memory>
    ensures { IfOk result (λ live. LiveRises live) }
{
    let samples = samples(alloc, numbers, t)?;
    live_of(alloc, covers, samples.as_slice())
}

fn samples(alloc: Global, numbers: Numbers, t: u32) -> Result<Vec<Datom>, Memory>
    ensures { IfOk result (λ v. AreSamples v.items) }
{
    let mut samples = no_samples(alloc);
    for n in 0..numbers.count {
        samples = pushed(samples, numbered(numbers.at(n), t))?;
    }
    Ok(samples)
}

fn numbered(n: u32, t: u32) -> Datom
    ensures { result.added ≡ adds result.t }
{
    sample(u64::from(n), ATTRIBUTE, Value::Long(i64::from(n)), t)
}

/// Trees of the numbered datoms.
pub(crate) fn trees_of<R: Threads + Sync>(
    alloc: Global,
    rt: &R,
    covers: &Covers,
    numbers: Numbers,
) -> Result<Roots, Memory>
    ensures rise { IfOk result (λ roots. TreesRise roots) }
    ensures held { IfOk result (λ roots. TreesAreHeld covers.now roots) }
{
    let live = index(alloc, covers, numbers, OLDER)?;
    first_trees(alloc, rt, &live, covers)
}

/// Trees of the live datoms.
fn first_trees<R: Threads + Sync>(
    alloc: Global,
    rt: &R,
    live: &Live,
    covers: &Covers,
) -> Result<Roots, Memory>
    requires live { LiveRises live.now }
    ensures rise { IfOk result (λ roots. TreesRise roots) }
    ensures held { IfOk result (λ roots. TreesAreHeld covers.now roots) }
{
    let none = no_roots(alloc)?;
    merged(alloc, rt, &none, live, OLDER, covers)
}

/// Trees without a datom.
fn no_roots(alloc: Global) -> Result<Roots, Memory>
    ensures rise { IfOk result (λ roots. TreesRise roots) }
    ensures held { IfOk result
        (λ roots. (coverage : Coverage) → TreesAreHeld coverage roots) }
{
    Roots::empty(alloc)
}

/// The trees with the live datoms up to the transaction `c`, by the coverage of both.
fn merged<R: Threads + Sync>(
    alloc: Global,
    rt: &R,
    roots: &Roots,
    live: &Live,
    c: u32,
    covers: &Covers,
) -> Result<Roots, Memory>
    requires roots { TreesRise roots.now }
    requires held { TreesAreHeld covers.now roots.now }
    requires live { LiveRises live.now }
    ensures rise { IfOk result (λ new. TreesRise new) }
    ensures held { IfOk result (λ new. TreesAreHeld covers.now new) }
{
    let first = roots.next_id();
    if first > 1 << 61 {
        return Err(Memory);
    }
    merge4(rt, alloc, roots, live, c, first, covers, covers)
}

/// Merges live datoms into trees. The id is the one that would follow those of the new trees.
pub(crate) fn next_id<R: Threads + Sync>(
    alloc: Global,
    rt: &R,
    roots: &Roots,
    live: &Live,
    covers: &Covers,
) -> Result<u64, Memory>
    requires roots { TreesRise roots.now }
    requires held { TreesAreHeld covers.now roots.now }
    requires live { LiveRises live.now }
{
    let new = merged(alloc, rt, roots, live, NEWER, covers)?;
    Ok(new.next_id())
}

/// Seeks so many numbers up to `end`, and adds up the entities found.
pub(crate) fn sought(roots: &Roots, end: u32, count: u32) -> u64
    requires { TreesRise roots.now }
{
    let mut draws = Draws::below(end.saturating_add(1));
    let mut sum: u64 = 0;
    for _ in 0..count {
        sum = sum.wrapping_add(entity_from(roots, u64::from(draws.next())));
    }
    sum
}

/// The first entity that is not below this one, or 0.
fn entity_from(roots: &Roots, e: u64) -> u64
    requires { TreesRise roots.now }
{
    let probe = Probe {
        order: Order::Eavt,
        e: Some(e),
        a: None,
        v: None,
        t: None,
    };
    first_from(roots.tree(Order::Eavt), &probe)
}

fn first_from(tree: &Tree, probe: &Probe) -> u64
    requires { IsRising probe.now.order (tree_datoms tree.now) }
{
    match tree.at(tree.place(probe)) {
        Some(datom) => datom.e,
        None => 0,
    }
}
