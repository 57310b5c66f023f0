//! Trees that the worker makes, or starts from.
ghost use Rattle.std.specs.Prelude.{◌≡◌, ◌↔◌, IfOk, IsErrOf};
ghost use Rattle.fb_model.specs.History.{basis};
ghost use Rattle.seg_tree.specs.declared.roots.Roots.{Roots};
ghost use Rattle.fb_roots.specs.Bases.{IsBaseOf, AreMadeOf};
ghost use Rattle.fb_merge.specs.declared.stop.MergeStop.{MergeStop};
ghost use Rattle.merge_worker.specs.Work.{IsOutOfIds, start_of, first_id};

use fb_memory::Memory;
use fb_merge::{MergeStop, merged_onto};
use fb_roots::{Base, RootStore};
use fb_view::Snapshot;
use std::alloc::Global;
use std::thread::Threads;

/// The trees of a database value.
pub fn base_of(snapshot: &Snapshot) -> Result<Base, Memory>
    ensures stand { IfOk result
        (λ base. IsBaseOf base snapshot.now.entries snapshot.now.covered) }
    ensures roots { IfOk result (λ base. base.roots ≡ snapshot.now.roots) }
{
    let roots = snapshot.roots().share()?;
    Ok(Base {
        roots,
        c: snapshot.covered(),
    })
}

/// The trees of all entries of a database value, made of ones that fit the store. They fit it too.
pub(crate) fn merged_base<T: RootStore, R: Threads + Sync>(
    rt: &R,
    alloc: Global,
    store: &T,
    start: &Base,
    begin: &Snapshot,
) -> Result<Base, MergeStop>
    requires start { IsBaseOf start.now begin.now.entries start.now.c }
    requires fits { T.fits store.now start.now.roots }
    ensures stand { IfOk result
        (λ base. IsBaseOf base begin.now.entries (basis begin.now.entries)) }
    ensures fits { IfOk result (λ base. T.fits store.now base.roots) }
    ensures spent { IsErrOf result MergeStop.Spent
        ↔ IsOutOfIds (T.next store.now) start.now }
{
    let first = first_new_id(store, start);
    let roots = merged_onto(rt, alloc, &start.roots, start.c, begin, first)?;
    Ok(Base {
        roots,
        c: begin.basis(),
    })
}

/// The number of a merge's first new node, which no node of the store has and none of the trees that it starts from.
fn first_new_id<T: RootStore>(store: &T, start: &Base) -> u64
    ensures first { result ≡ first_id (T.next store.now) start.now }
    ensures fit { (trees : Roots) → T.fits store.now start.now.roots
        → AreMadeOf result start.now.roots trees → T.fits store.now trees }
{
    store.next_id().max(start.roots.next_id())
}

/// The trees from which the next merge starts: those that are not adopted, if there are any.
pub(crate) fn start<'a>(base: &'a Base, ahead: &'a Option<Base>) -> &'a Base
    ensures { result.now ≡ start_of base.now ahead.now }
{
    match ahead {
        Some(trees) => trees,
        None => base,
    }
}
