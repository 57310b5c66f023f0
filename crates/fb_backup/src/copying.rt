//! Copies of trees.
ghost use Rattle.std.specs.Prelude.{◌≡◌, ◌≤◌, ◌<◌, [], ℕ, List, length, IfOk, MatchResult};
ghost use Rattle.disk_model.specs.Disk.{IfKnown, Within};
ghost use Rattle.fb_journal.specs.Journals.{StaysKnown};
ghost use Rattle.seg_codec.specs.Trees.{roots_of};
ghost use Rattle.seg_store.specs.Stores.{disk_in, StoreKeeps};
ghost use Rattle.seg_store.specs.Trees.{root_of, HaveStorableDatoms};
ghost use Rattle.backup_model.specs.Backup.{IsCopyFile};
ghost use Rattle.fb_backup.specs.Copies.{CountsCopy};

use crate::{CopyFault, CopyStop};
use fb_disk::Disk;
use fb_view::Snapshot;
use io_faults::Failed;
use seg_store::{KeepFault, LoadStop, Loaded, SegStore, trees_of_a_lawful_history_are_storable};
use seg_tree::Roots;
use std::alloc::Global;

/// The most bytes of a file of segments without a record: its mark, and a gate.
const NEW_FILE: u64 = 16;

/// Copies the trees of a snapshot to a new file of segments, which then keeps them as its one root. So the copy leaves out
/// whatever nodes the snapshot's own file has besides. The whole record is in memory before it is written.
pub fn copy_roots<D: Disk>(
    alloc: Global,
    snapshot: &Snapshot,
    segments: D,
) -> Result<D, CopyStop<D>>
    requires { IfKnown (D.bytes segments) (λ file. length file ≤ 16) }

    // From then on each crash leaves the copy.
    ensures copy { IfOk result (λ d. IfKnown (D.bytes segments) (λ _. (image : List ℕ)
        → D.images d image
        → IsCopyFile image (root_of snapshot.now.roots snapshot.now.covered)
        (roots_of snapshot.now.roots))) }
    ensures known { IfOk result (λ d. StaysKnown (D.bytes segments) (D.bytes d)) }

    // A fault of the disk is counted.
    ensures counted { MatchResult result (λ d. D.faults d ≡ D.faults segments)
        (λ s. CountsCopy s.fault (D.faults segments) (D.faults s.segments)) }
{
    trees_of_a_lawful_history_are_storable();
    match SegStore::load(alloc, segments) {
        Ok(Loaded { store, .. }) => { keep_in(alloc, store, snapshot.roots(), snapshot.covered()) }
        Err(LoadStop { fault, disk }) => Err(CopyStop {
            fault: CopyFault::from(fault),
            segments: disk,
        }),
    }
}

/// Keeps trees in a store that has no root.
fn keep_in<D: Disk>(
    alloc: Global,
    store: SegStore<D>,
    roots: &Roots,
    c: u32,
) -> Result<D, CopyStop<D>>
    requires storable { HaveStorableDatoms roots.now }
    requires goes_on { (records : List (List ℕ)) × StoreKeeps D.bytes D.images records store }
    ensures copy { IfOk result (λ d. StoreKeeps D.bytes D.images [] store
        → IfKnown (D.bytes (disk_in store)) (λ _. (image : List ℕ) → D.images d image
        → IsCopyFile image (root_of roots.now c) (roots_of roots.now))) }
    ensures known { IfOk result (λ d. StaysKnown (D.bytes (disk_in store)) (D.bytes d)) }
    ensures counted { MatchResult result (λ d. D.faults d ≡ D.faults (disk_in store))
        (λ s. CountsCopy s.fault (D.faults (disk_in store)) (D.faults s.segments)) }
{
    let mut store = store;
    let fault = match store.keep(alloc, roots, c) {
        Ok(()) => return Ok(store.give_back()),
        Err(KeepFault::Disk) => CopyFault::Disk,
        Err(KeepFault::Memory) => CopyFault::Memory,
        // It has not failed before.
        Err(KeepFault::Stopped { .. }) => unreachable!(),
    };
    Err(CopyStop {
        fault,
        segments: store.give_back(),
    })
}

/// Copies the trees of a snapshot to a file of segments that has no record yet. Any other file is left as it is.
pub fn copy_roots_if_new<D: Disk>(
    alloc: Global,
    snapshot: &Snapshot,
    segments: D,
) -> Result<D, CopyStop<D>>
    ensures copy { IfOk result (λ d. IfKnown (D.bytes segments) (λ file. length file ≤ 16
        → (image : List ℕ) → D.images d image
        → IsCopyFile image (root_of snapshot.now.roots snapshot.now.covered)
        (roots_of snapshot.now.roots))) }
    ensures left { MatchResult result
        (λ d. IfKnown (D.bytes segments) (λ file. 16 < length file
        → (D.bytes d ≡ D.bytes segments) × Within (D.images segments) (D.images d)))
        (λ s. IfKnown (D.bytes segments) (λ file. 16 < length file
        → (D.bytes s.segments ≡ D.bytes segments)
        × Within (D.images segments) (D.images s.segments))) }
    ensures known { IfOk result (λ d. StaysKnown (D.bytes segments) (D.bytes d)) }

    // A fault of the disk is counted.
    ensures counted { MatchResult result (λ d. D.faults d ≡ D.faults segments)
        (λ s. CountsCopy s.fault (D.faults segments) (D.faults s.segments)) }
{
    let mut segments = segments;
    match segments.len() {
        Ok(len) if len <= NEW_FILE => copy_roots(alloc, snapshot, segments),
        Ok(_) => Ok(segments),
        Err(Failed) => Err(CopyStop {
            fault: CopyFault::Disk,
            segments,
        }),
    }
}
