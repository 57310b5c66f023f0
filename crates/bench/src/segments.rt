//! Segment trees: `bench segments COUNT MERGED SOUGHT` makes trees of COUNT datoms, and then does one round for each line of standard
//! input and answers it with a line of its own, so that its rounds can be timed one by one. `seek` looks for SOUGHT datoms and prints
//! the sum of the entities found. `merge` merges MERGED datoms into the trees, from their first one to their last, and `behind` as
//! many after the last one: each prints the id that would follow those of the new trees.
ghost use Rattle.bench.specs.Rising.{LiveRises, TreesAreHeld, TreesRise};

mod trees;

use crate::common::number;
use anyhow::{Result, bail};
use fb_covers::Covers;
use fb_memory::Memory;
use live_index::Live;
use seg_tree::Roots;
use std::alloc::Global;
use std::thread::Threads;
use trees::{NEWER, Numbers, coverage, index, next_id, sought, trees_of};

/// The trees' datoms have every 32nd number.
const STEP: u32 = 32;

#[derive(Clone, Copy)]
enum Task {
    Seek,
    Merge,
    Behind,
}

fn task_of(line: &str) -> Result<Task> {
    Ok(match line {
        "seek" => Task::Seek,
        "merge" => Task::Merge,
        "behind" => Task::Behind,
        _ => bail!("no such task"),
    })
}

#[derive(Clone, Copy)]
struct Sizes {
    count: u32,
    merged: u32,
    sought: u32,
}

impl Sizes {
    fn of(words: &[String]) -> Option<Sizes> {
        let [count, merged, sought] = words else {
            return None;
        };
        match (
            number(count.as_str()),
            number(merged.as_str()),
            number(sought.as_str()),
        ) {
            (Some(count), Some(merged), Some(sought)) => Some(Sizes {
                count,
                merged,
                sought,
            }),
            _ => None,
        }
    }

    /// A number after those of the trees' datoms.
    fn end(&self) -> u32 {
        self.count.saturating_mul(STEP)
    }

    fn older(&self) -> Numbers {
        Numbers::of(0, STEP, self.count)
    }

    /// Numbers between those of the trees' datoms, from the first to the last.
    fn among(&self) -> Numbers {
        Numbers::of(1, self.end() / self.merged.max(1), self.merged)
    }

    fn behind(&self) -> Numbers {
        Numbers::of(self.end(), 1, self.merged)
    }
}

pub(crate) fn perform<R: Input + Print + Threads + Sync>(
    alloc: Global,
    rt: &R,
    words: &[String],
) -> Result<bool> {
    let Some(sizes) = Sizes::of(words) else {
        return Ok(false);
    };
    let covers = coverage(alloc)?;
    measure(alloc, rt, sizes, &covers)?;
    Ok(true)
}

/// Makes the trees, and does the rounds.
fn measure<R: Input + Print + Threads + Sync>(
    alloc: Global,
    rt: &R,
    sizes: Sizes,
    covers: &Covers,
) -> Result<()> {
    let roots = trees_of(alloc, rt, covers, sizes.older())?;
    measure_trees(alloc, rt, sizes, covers, &roots)
}

/// Makes the index of datoms among those of the trees.
fn measure_trees<R: Input + Print + Threads + Sync>(
    alloc: Global,
    rt: &R,
    sizes: Sizes,
    covers: &Covers,
    roots: &Roots,
) -> Result<()>
    requires roots { TreesRise roots.now }
    requires held { TreesAreHeld covers.now roots.now }
{
    let among = index(alloc, covers, sizes.among(), NEWER)?;
    measure_merges(alloc, rt, sizes, covers, roots, &among)
}

/// Makes the index of datoms behind those of the trees.
fn measure_merges<R: Input + Print + Threads + Sync>(
    alloc: Global,
    rt: &R,
    sizes: Sizes,
    covers: &Covers,
    roots: &Roots,
    among: &Live,
) -> Result<()>
    requires roots { TreesRise roots.now }
    requires held { TreesAreHeld covers.now roots.now }
    requires among { LiveRises among.now }
{
    let behind = index(alloc, covers, sizes.behind(), NEWER)?;
    answer_lines(alloc, rt, sizes, covers, roots, among, &behind)
}

/// Does a round for each line of standard input, and prints its answer.
fn answer_lines<R: Input + Print + Threads + Sync>(
    alloc: Global,
    rt: &R,
    sizes: Sizes,
    covers: &Covers,
    roots: &Roots,
    among: &Live,
    behind: &Live,
) -> Result<()>
    requires roots { TreesRise roots.now }
    requires held { TreesAreHeld covers.now roots.now }
    requires among { LiveRises among.now }
    requires behind { LiveRises behind.now }
{
    for line in rt.lines(alloc) {
        let task = task_of(line?.as_str())?;
        println!(rt;
            "{}",
            answer(alloc, rt, task, sizes, covers, roots, among, behind)?
        )?;
    }
    Ok(())
}

fn answer<R: Threads + Sync>(
    alloc: Global,
    rt: &R,
    task: Task,
    sizes: Sizes,
    covers: &Covers,
    roots: &Roots,
    among: &Live,
    behind: &Live,
) -> Result<u64, Memory>
    requires roots { TreesRise roots.now }
    requires held { TreesAreHeld covers.now roots.now }
    requires among { LiveRises among.now }
    requires behind { LiveRises behind.now }
{
    match task {
        Task::Seek => Ok(sought(roots, sizes.end(), sizes.sought)),
        Task::Merge => next_id(alloc, rt, roots, among, covers),
        Task::Behind => next_id(alloc, rt, roots, behind, covers),
    }
}
