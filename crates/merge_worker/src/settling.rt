//! The merge that is left at the end.
ghost use Rattle.std.specs.Prelude.{◌≡◌, ◌↔◌, ◌<◌, OnOk, OnErr, IsErrOf, IsTrue, IsFalse};
ghost use Rattle.io_faults.specs.Faults.{Rose};
ghost use Rattle.fb_model.specs.History.{basis};
ghost use Rattle.fb_core.specs.Cores.{live_datoms};
ghost use Rattle.seg_tree.specs.declared.roots.Roots.{Roots};
ghost use Rattle.fb_roots.specs.declared.bases.Base.{Base};
ghost use Rattle.fb_roots.specs.declared.stores.KeepFault.{KeepFault};
ghost use Rattle.fb_roots.specs.Bases.{IsBaseOf};
ghost use Rattle.merge_worker.specs.declared.ends.WorkEnd.{WorkEnd};
ghost use Rattle.merge_worker.specs.Work.{IsOldOrKept, AreAhead, start_of, is_due, IsOutOfIds};

use crate::bases::{merged_base, start};
use crate::ends::WorkEnd;
use fb_core::{Core, a_beginning_stays_one};
use fb_roots::{Base, KeepFault, RootStore};
use std::alloc::Global;
use std::thread::Threads;

/// Merges a core that no session has any longer, where that is due. Only with `Shut` anything has changed. The merge starts from
/// the trees `ahead`, if there are any, which are not adopted yet, and else from the base.
pub fn settle<T: RootStore, R: Threads + Sync>(
    rt: &R,
    alloc: Global,
    core: &mut Core,
    store: &mut T,
    base: &mut Base,
    ahead: &mut Option<Base>,
    merge_at: u64,
) -> WorkEnd
    requires merge_at { 0 < merge_at }
    requires base { IsBaseOf base.old core.old.snapshot.entries core.old.snapshot.covered }
    requires ahead { AreAhead ahead.old core.old.snapshot.entries }
    requires fits { T.fits store.old (start_of base.old ahead.old).roots }
    ensures authors { core.new.authors ≡ core.old.authors }
    ensures entries { core.new.snapshot.entries ≡ core.old.snapshot.entries }
    ensures base { IsBaseOf base.new core.new.snapshot.entries core.new.snapshot.covered }
    ensures ahead { AreAhead ahead.new core.new.snapshot.entries }
    ensures fits { (result ≡ WorkEnd.StoreFault → ⊥)
        → T.fits store.new (start_of base.new ahead.new).roots }
    ensures kept { (begun : T) → T.goes begun store.old
        → IsOldOrKept (T.keeps begun) base.old store.new base.new }
    ensures stays { (begun : T) (older : Base) → T.goes begun store.old
        → T.keeps begun older store.old → T.keeps begun older store.new }
    ensures unchanged { (result ≡ WorkEnd.Shut → ⊥)
        → (core.new ≡ core.old) × (base.new ≡ base.old) × (ahead.new ≡ ahead.old) }
    ensures idle { IsFalse (is_due merge_at core.old.snapshot)
        → (core.new ≡ core.old) × (base.new ≡ base.old) × (ahead.new ≡ ahead.old)
        × (result ≡ WorkEnd.Shut) }
    ensures shut { result ≡ WorkEnd.Shut → IsFalse (is_due merge_at core.new.snapshot) }
    ensures fault { result ≡ WorkEnd.StoreFault → Rose (T.faults store.old) (T.faults store.new) }
    ensures unfailed { (result ≡ WorkEnd.StoreFault → ⊥)
        → ((begun : T) → T.goes begun store.old → T.goes begun store.new)
        × (T.faults store.new ≡ T.faults store.old) }
    ensures spent { result ≡ WorkEnd.Spent
        ↔ (IsTrue (is_due merge_at core.old.snapshot)
        × IsOutOfIds (T.next store.old) (start_of base.old ahead.old)) }
    ensures unspent { result ≡ WorkEnd.Spent → store.new ≡ store.old }
{
    if !core.due(merge_at) {
        return WorkEnd::Shut;
    }
    let next = match merged_base(rt, alloc, store, start(base, ahead), core.snapshot()) {
        Ok(next) => next,
        Err(stop) => return WorkEnd::from(stop),
    };
    match adopt(alloc, core, store, base, next) {
        Ok(()) => {
            *ahead = None;
            WorkEnd::Shut
        }
        Err(fault) => WorkEnd::from(fault),
    }
}

/// Keeps trees of all that the core has, and adopts them. Before they are kept all memory is taken.
fn adopt<T: RootStore>(
    alloc: Global,
    core: &mut Core,
    store: &mut T,
    base: &mut Base,
    next: Base,
) -> Result<(), KeepFault>
    requires next { IsBaseOf next core.old.snapshot.entries (basis core.old.snapshot.entries) }
    requires fits { T.fits store.old next.roots }
    ensures authors { core.new.authors ≡ core.old.authors }
    ensures entries { core.new.snapshot.entries ≡ core.old.snapshot.entries }
    ensures base { OnOk result
        (IsBaseOf base.new core.new.snapshot.entries core.new.snapshot.covered) }
    ensures fit { OnOk result (T.fits store.new base.new.roots) }
    ensures still_fit { IsErrOf result KeepFault.Memory
        → (trees : Roots) → T.fits store.old trees → T.fits store.new trees }
    ensures kept { OnOk result ((begun : T) → T.goes begun store.old
        → T.keeps begun base.new store.new) }
    ensures stays { (begun : T) (older : Base) → T.goes begun store.old
        → T.keeps begun older store.old → T.keeps begun older store.new }
    ensures merged { OnOk result (live_datoms core.new.snapshot.live ≡ 0) }
    ensures unchanged { OnErr result ((core.new ≡ core.old) × (base.new ≡ base.old)) }
    ensures fault { IsErrOf result KeepFault.Failed
        → Rose (T.faults store.old) (T.faults store.new) }
    ensures unfailed { (IsErrOf result KeepFault.Failed → ⊥)
        → ((begun : T) → T.goes begun store.old → T.goes begun store.new)
        × (T.faults store.new ≡ T.faults store.old) }
{
    a_beginning_stays_one();
    let roots = next.roots.share()?;
    let begin = core.snapshot();
    let rebased = core.rebase(begin, roots)?;
    store.keep(alloc, &next)?;
    core.adopt(rebased);
    *base = next;
    Ok(())
}
