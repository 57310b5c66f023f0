//! The trees that a history is opened with, and the store whose file they fit.
ghost use Rattle.std.specs.Prelude.{◌≡◌, ◌⊎◌, ◌≤◌, ◌*◌, ◌^◌, [], ◌∷◌, ℕ, List, Option, length, map, true, false, nat_eq, IfOk, MatchResult};
ghost use Rattle.std.specs.List.{IsDistinct};
ghost use Rattle.disk_model.specs.Disk.{IfKnown};
ghost use Rattle.fb_model.specs.FirstEntry.{first_entry};
ghost use Rattle.fb_model.specs.Lawful.{IsLawful};
ghost use Rattle.view_model.specs.Stands.{RootStands};
ghost use Rattle.seg_tree.specs.Ids.{next_above};
ghost use Rattle.seg_tree.specs.Indexes.{root_ids, trees_of};
ghost use Rattle.seg_store.specs.Stores.{disk_in as segments_in, next_in, node_count, StoreKeeps};
ghost use Rattle.seg_store.specs.Trees.{root_of, HaveStorableDatoms};
ghost use Rattle.seg_store.specs.Keeping.{FitsStore};
ghost use Rattle.fb_journal.specs.Journals.{StaysKnown};
ghost use Rattle.log_model.specs.Kept.{FileKeeps};
ghost use Rattle.seg_store.specs.Loads.{kept_of, IsLoaded, IsNewestRoot, CountsLoad};
ghost use Rattle.seg_agree.specs.Newest.{IsNewest};
ghost use Rattle.fb_recover.specs.Openings.{AreNumberedFromOne, HasRoot};
ghost use Rattle.fb_recover.specs.Basing.{IsBased};

use fb_disk::Disk;
use fb_history::EntryList;
use fb_memory::Memory;
use fb_view::Snapshot;
use seg_agree::newest_agreeing;
use seg_store::{
    KeepFault, KeptTrees, LoadFault, LoadStop, Loaded, Newest, NewestRoot, SegStore,
    trees_of_a_lawful_history_are_storable,
};
use seg_tree::Roots;
use std::alloc::Global;

/// Trees that a history is opened with, and the store whose file they fit.
#[derive(Drop)]
pub(crate) struct Based<D: Disk> {
    pub(crate) store: SegStore<D>,
    pub(crate) trees: KeptTrees,
}

/// The newest root of the file that the history agrees with; the file then starts anew with this root alone, where more than
/// half of its nodes are dead and there is memory for its record. Where there is none, the trees of the first entry; a file that keeps roots then starts anew.
pub(crate) fn find_base<D: Disk>(
    alloc: Global,
    entries: &EntryList,
    segments: D,
) -> Result<Based<D>, LoadStop<D>>
    requires { IsLawful entries.now }
    ensures based { IfOk result (IsBased D.bytes D.images (D.bytes segments) entries.now) }
    ensures counted { MatchResult result
        (λ b. D.faults (segments_in b.store) ≡ D.faults segments)
        (λ s. CountsLoad s.fault (D.faults segments) (D.faults s.disk)) }
{
    match SegStore::load_newest(alloc, segments) {
        Ok(Newest::Root(newest)) => based_on_newest(alloc, entries, newest),
        Ok(Newest::Whole(loaded)) => based_on(alloc, entries, loaded),
        Err(stop) => Err(stop),
    }
}

/// So with the newest root of the file. Where the history does not agree with it, all of its roots are loaded.
fn based_on_newest<D: Disk>(
    alloc: Global,
    entries: &EntryList,
    newest: NewestRoot<D>,
) -> Result<Based<D>, LoadStop<D>>
    requires lawful { IsLawful entries.now }
    requires newest { (known : Option (List ℕ)) × IsNewestRoot D.bytes D.images known newest }
    ensures based { IfOk result (λ b. (known : Option (List ℕ))
        → IsNewestRoot D.bytes D.images known newest
        → StaysKnown known (D.bytes (segments_in newest.store))
        → IsBased D.bytes D.images known entries.now b) }
    ensures counted { MatchResult result
        (λ b. D.faults (segments_in b.store) ≡ D.faults (segments_in newest.store))
        (λ s. CountsLoad s.fault (D.faults (segments_in newest.store)) (D.faults s.disk)) }
{
    let NewestRoot { store, trees } = newest;
    match agreeing(alloc, entries, trees) {
        Ok(Some(trees)) => {
            trees_of_a_lawful_history_are_storable();
            with_room(alloc, store, trees)
        }
        Ok(None) => match SegStore::load(alloc, store.give_back()) {
            Ok(loaded) => based_on(alloc, entries, loaded),
            Err(stop) => Err(stop),
        },
        Err(Memory) => Err(LoadStop {
            fault: LoadFault::Memory,
            disk: store.give_back(),
        }),
    }
}

/// These trees, if the history agrees with them.
fn agreeing(
    alloc: Global,
    entries: &EntryList,
    trees: KeptTrees,
) -> Result<Option<KeptTrees>, Memory>
    requires { IsLawful entries.now }
    ensures { IfOk result (IsNewest entries.now (trees ∷ [])) }
{
    let kept = vec![in alloc; trees]?;
    newest_agreeing(alloc, entries, kept)
}

/// So with all roots of the file.
fn based_on<D: Disk>(
    alloc: Global,
    entries: &EntryList,
    loaded: Loaded<D>,
) -> Result<Based<D>, LoadStop<D>>
    requires lawful { IsLawful entries.now }
    requires loaded { (known : Option (List ℕ)) × IsLoaded D.bytes D.images known loaded }
    ensures based { IfOk result (λ b. (known : Option (List ℕ))
        → IsLoaded D.bytes D.images known loaded
        → IfKnown known (λ file. FileKeeps file (map kept_of loaded.kept.items))
        → StaysKnown known (D.bytes (segments_in loaded.store))
        → IsBased D.bytes D.images known entries.now b) }
    ensures counted { MatchResult result
        (λ b. D.faults (segments_in b.store) ≡ D.faults (segments_in loaded.store))
        (λ s. CountsLoad s.fault (D.faults (segments_in loaded.store)) (D.faults s.disk)) }
{
    let Loaded { store, kept } = loaded;
    let keeps_some = !kept.is_empty();
    match newest_agreeing(alloc, entries, kept) {
        Ok(Some(trees)) => {
            trees_of_a_lawful_history_are_storable();
            with_room(alloc, store, trees)
        }
        Ok(None) => of_first(alloc, store, keeps_some),
        Err(Memory) => Err(LoadStop {
            fault: LoadFault::Memory,
            disk: store.give_back(),
        }),
    }
}

/// The trees of a root, and the store: where more than half of its file's nodes are dead, the file starts anew with this root
/// alone. It stays as it is where there is no memory for that.
fn with_room<D: Disk>(
    alloc: Global,
    store: SegStore<D>,
    trees: KeptTrees,
) -> Result<Based<D>, LoadStop<D>>
    requires fits { FitsStore D.bytes D.images store trees.roots }
    requires storable { HaveStorableDatoms trees.roots }
    ensures trees { IfOk result (λ b. b.trees ≡ trees) }
    ensures fits { IfOk result (λ b. FitsStore D.bytes D.images b.store trees.roots) }
    ensures root { IfOk result
        (λ b. HasRoot D.bytes D.images store (root_of trees.roots trees.c)
        → HasRoot D.bytes D.images b.store (root_of trees.roots trees.c)) }
    ensures below { IfOk result (λ b. next_above (root_ids trees.roots) ≤ next_in store
        → next_above (root_ids trees.roots) ≤ next_in b.store) }
    ensures room { IfOk result (λ b. (node_count b.store ≤ 2 * length (root_ids trees.roots))
        ⊎ (b.store ≡ store)) }
    ensures still { IfOk result
        (λ b. node_count store ≤ 2 * length (root_ids trees.roots) → b.store ≡ store) }
    ensures distinct { IsDistinct nat_eq store.ids }
    ensures known { IfOk result
        (λ b. StaysKnown (D.bytes (segments_in store)) (D.bytes (segments_in b.store))) }
    ensures counted { MatchResult result
        (λ b. D.faults (segments_in b.store) ≡ D.faults (segments_in store))
        (λ s. CountsLoad s.fault (D.faults (segments_in store)) (D.faults s.disk)) }
{
    let mut store = store;
    if !store.is_mostly_dead(&trees.roots) {
        return Ok(Based { store, trees });
    }
    match store.renew(alloc, &trees.roots, trees.c) {
        Ok(()) => Ok(Based { store, trees }),
        Err(KeepFault::Memory) => Ok(Based { store, trees }),
        Err(_) => Err(LoadStop {
            fault: LoadFault::Disk,
            disk: store.give_back(),
        }),
    }
}

/// The trees of the first entry, and the store with a file that keeps no roots. It kept some, or none.
fn of_first<D: Disk>(
    alloc: Global,
    store: SegStore<D>,
    keeps_some: bool,
) -> Result<Based<D>, LoadStop<D>>
    requires keeps { (records : List (List ℕ)) × StoreKeeps D.bytes D.images records store }
    requires none { keeps_some ≡ false → StoreKeeps D.bytes D.images [] store }
    ensures empty { IfOk result (λ b. StoreKeeps D.bytes D.images [] b.store) }
    ensures known { IfOk result
        (λ b. StaysKnown (D.bytes (segments_in store)) (D.bytes (segments_in b.store))) }
    ensures stands { IfOk result
        (λ b. RootStands (trees_of b.trees.roots) (first_entry ∷ []) 0 × (b.trees.c ≡ 0)) }
    ensures ids { IfOk result (λ b. AreNumberedFromOne b.trees.roots) }
    ensures few { IfOk result (λ b. next_above (root_ids b.trees.roots) ≤ 2 ^ 61) }
    ensures counted { MatchResult result
        (λ b. D.faults (segments_in b.store) ≡ D.faults (segments_in store))
        (λ s. CountsLoad s.fault (D.faults (segments_in store)) (D.faults s.disk)) }
{
    match first_roots(alloc) {
        Ok(roots) => {
            let store = emptied(store, keeps_some)?;
            let trees = KeptTrees { roots, c: 0 };
            Ok(Based { store, trees })
        }
        Err(Memory) => Err(LoadStop {
            fault: LoadFault::Memory,
            disk: store.give_back(),
        }),
    }
}

/// The store, with a file that starts anew where it keeps roots.
fn emptied<D: Disk>(store: SegStore<D>, keeps_some: bool) -> Result<SegStore<D>, LoadStop<D>>
    requires keeps { (records : List (List ℕ)) × StoreKeeps D.bytes D.images records store }
    requires none { keeps_some ≡ false → StoreKeeps D.bytes D.images [] store }
    ensures empty { IfOk result (StoreKeeps D.bytes D.images []) }
    ensures known { IfOk result
        (λ now. StaysKnown (D.bytes (segments_in store)) (D.bytes (segments_in now))) }
    ensures counted { MatchResult result
        (λ now. D.faults (segments_in now) ≡ D.faults (segments_in store))
        (λ s. CountsLoad s.fault (D.faults (segments_in store)) (D.faults s.disk)) }
{
    let mut store = store;
    if !keeps_some {
        return Ok(store);
    }
    match store.reset() {
        Ok(()) => Ok(store),
        Err(_) => Err(LoadStop {
            fault: LoadFault::Disk,
            disk: store.give_back(),
        }),
    }
}

/// The trees of the first entry.
fn first_roots(alloc: Global) -> Result<Roots, Memory>
    ensures stands { IfOk result (λ roots. RootStands (trees_of roots) (first_entry ∷ []) 0) }
    ensures ids { IfOk result AreNumberedFromOne }
    ensures few { IfOk result (λ roots. next_above (root_ids roots) ≤ 2 ^ 61) }
{
    let first = Snapshot::first(alloc)?;
    let roots = first.roots();
    if roots.next_id() > 1 << 61 {
        // No memory holds as many nodes.
        return Err(Memory);
    }
    roots.share()
}
