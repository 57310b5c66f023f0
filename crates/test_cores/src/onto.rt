//! Trees that are made of others than the value's own.
ghost use Rattle.std.specs.Prelude.{◌≡◌, IfOk};
ghost use Rattle.fb_model.specs.History.{basis};
ghost use Rattle.view_model.specs.Stands.{RootStands};
ghost use Rattle.seg_tree.specs.Indexes.{trees_of};

use anyhow::Result;
use fb_merge::{merged, merged_onto};
use fb_view::Snapshot;
use seg_tree::Roots;
use std::alloc::Global;
use std::thread::Threads;

/// The value over trees of its whole history, made of newer ones than its own.
pub(crate) fn over_newer<R: Threads + Sync>(
    rt: &R,
    alloc: Global,
    value: &Snapshot,
) -> Result<Snapshot> {
    let newer = merged(rt, alloc, value, value.roots().next_id())?;
    let first_id = newer.next_id();
    let roots = merged_onto(rt, alloc, &newer, value.basis(), value, first_id)?;
    over(alloc, value, roots)
}

/// The value over trees of its whole history, made of its own ones, where it has newer ones meanwhile.
pub(crate) fn over_older<R: Threads + Sync>(
    rt: &R,
    alloc: Global,
    value: &Snapshot,
) -> Result<Snapshot> {
    let older = value.roots();
    let newer = merged(rt, alloc, value, older.next_id())?;
    let first_id = older.next_id().max(newer.next_id());
    let meanwhile = over(alloc, value, newer)?;
    let roots = merged_onto(rt, alloc, older, value.covered(), &meanwhile, first_id)?;
    over(alloc, value, roots)
}

/// The value's history over these trees of all of it.
fn over(alloc: Global, value: &Snapshot, roots: Roots) -> Result<Snapshot>
    requires { RootStands (trees_of roots) value.now.entries (basis value.now.entries) }
    ensures { IfOk result (λ s. s.entries ≡ value.now.entries) }
{
    let entries = value.entries().share()?;
    let over = Snapshot::opened(alloc, entries, roots, value.basis())?;
    Ok(over)
}
