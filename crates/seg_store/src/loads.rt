//! Loading a file of segments.
ghost use Rattle.std.specs.Prelude.{◌≡◌, ◌<◌, ◌++◌, [], ◌∷◌, ℕ, List, Option, false, map, IfOk, MatchResult, IsTrue};
ghost use Rattle.disk_model.specs.Disk.{IfKnown};
ghost use Rattle.disk_model.specs.Journal.{segments_mark};
ghost use Rattle.log_model.specs.Kept.{FileKeeps};
ghost use Rattle.fb_journal.specs.Journals.{StaysKnown};
ghost use Rattle.fb_journal.specs.Readings.{disk_from, left_in, HasRead, IsFirstFault};
ghost use Rattle.fb_journal.specs.Starts.{CountsStart};
ghost use Rattle.fb_journal.specs.declared.starts.StartFault.{StartFault};
ghost use Rattle.seg_codec.specs.declared.wanted.Wanted.{Wanted};
ghost use Rattle.seg_codec.specs.declared.wanted.Wanted.TheVariants.{Every};
ghost use Rattle.seg_store.specs.Stores.{disk_in, StoreKeeps};
ghost use Rattle.seg_store.specs.Loads.{kept_of, IsLoaded, CountsLoad};
ghost use Rattle.seg_store.specs.Finding.{HasFound, HasAllFound};

use crate::found::Found;
use crate::stores::SegStore;
use fb_disk::Disk;
use fb_journal::{Journal, Mark, Reading, StartFault, StartStop};
use fb_memory::Memory;
use seg_codec::{Ids, Wanted};
use seg_tree::Roots;
use std::alloc::Global;
use thiserror::Error;

/// How many bytes of a long payload are read first.
const FRONT: usize = 1 << 20;

/// The four trees of a kept root, and how far they go.
#[derive(Drop)]
pub struct KeptTrees {
    pub roots: Roots,
    pub c: u32,
}

/// A store, and the roots that its file kept as it was loaded, the oldest first.
#[derive(Drop)]
pub struct Loaded<D: Disk> {
    pub store: SegStore<D>,
    pub kept: Vec<KeptTrees>,
}

/// Why a file was not loaded. Bad bytes are not a reason.
#[derive(Clone, Copy, Debug, PartialEq, Eq, Error)]
pub enum LoadFault {
    /// A call of the disk failed in this call.
    #[error("a call of the disk failed")]
    Disk,
    #[error("out of memory")]
    Memory,
}

/// A load that did not succeed: why, and the disk.
#[derive(Drop)]
pub struct LoadStop<D: Disk> {
    pub fault: LoadFault,
    pub disk: D,
}

impl From<Memory> for LoadFault {
    ghost use Rattle.std.specs.Prelude.{◌≡◌};
    ghost use Rattle.seg_store.specs.declared.loads.LoadFault.{LoadFault};

    ghost from_gives = { λ _ fault. fault ≡ LoadFault.Memory };

    fn from(_: Memory) -> LoadFault {
        LoadFault::Memory
    }
}

impl<D: Disk> SegStore<D> {
    /// Loads the roots that a file keeps, which are those before its first bad record, or before the first fault of its
    /// journal. A file that has either starts anew, and so does one of at most 16 bytes.
    pub fn load(alloc: Global, disk: D) -> Result<Loaded<D>, LoadStop<D>>
        ensures kept { IfOk result (λ loaded. IfKnown (D.bytes disk)
            (λ file. FileKeeps file (map kept_of loaded.kept.items))) }
        ensures loaded { IfOk result (IsLoaded D.bytes D.images (D.bytes disk)) }
        ensures known { IfOk result
            (λ loaded. StaysKnown (D.bytes disk) (D.bytes (disk_in loaded.store))) }

        // A fault of the disk is counted.
        ensures counted { MatchResult result
            (λ loaded. D.faults (disk_in loaded.store) ≡ D.faults disk)
            (λ stop. CountsLoad stop.fault (D.faults disk) (D.faults stop.disk)) }
    {
        match Journal::open(alloc, disk, Mark::Segments) {
            Ok(file) => loaded_from(alloc, file),
            Err(stop) => loaded_before(alloc, stop),
        }
    }
}

/// What a file keeps that was opened, and of which no record was read.
pub(crate) fn loaded_from<D: Disk>(
    alloc: Global,
    file: Reading<D>,
) -> Result<Loaded<D>, LoadStop<D>>
    requires { (disk : D)
        × HasRead D.bytes D.images D.moment D.images_since segments_mark disk [] file }
    ensures loaded { IfOk result (λ loaded. (disk : D)
        → HasRead D.bytes D.images D.moment D.images_since segments_mark disk [] file
        → IsLoaded D.bytes D.images (D.bytes disk) loaded) }
    ensures known { IfOk result (λ loaded. (disk : D)
        → HasRead D.bytes D.images D.moment D.images_since segments_mark disk [] file
        → StaysKnown (D.bytes disk) (D.bytes (disk_in loaded.store))) }
    ensures counted { MatchResult result
        (λ loaded. D.faults (disk_in loaded.store) ≡ D.faults (disk_from file))
        (λ stop. CountsLoad stop.fault (D.faults (disk_from file)) (D.faults stop.disk)) }
{
    let mut file = file;
    match found_in(alloc, &mut file, Wanted::Every) {
        Ok(found) => loaded_behind(alloc, found, file),
        Err(fault) => Err(LoadStop {
            fault,
            disk: file.give_back(),
        }),
    }
}

/// What was found, and a store that goes on after the records, or with a file that starts anew where something was bad.
fn loaded_behind<D: Disk>(
    alloc: Global,
    found: Found,
    file: Reading<D>,
) -> Result<Loaded<D>, LoadStop<D>>
    requires { (disk : D) × (records : List (List ℕ))
        × HasAllFound D.bytes D.images D.moment D.images_since Every disk records file found }
    ensures loaded { IfOk result (λ loaded. (disk : D) (records : List (List ℕ))
        → HasAllFound D.bytes D.images D.moment D.images_since Every disk records file found
        → IsLoaded D.bytes D.images (D.bytes disk) loaded) }
    ensures known { IfOk result
        (λ loaded. StaysKnown (D.bytes (disk_from file)) (D.bytes (disk_in loaded.store))) }
    ensures counted { MatchResult result
        (λ loaded. D.faults (disk_in loaded.store) ≡ D.faults (disk_from file))
        (λ stop. CountsLoad stop.fault (D.faults (disk_from file)) (D.faults stop.disk)) }
{
    let Found {
        nodes,
        kept,
        good,
        ..
    } = found;
    if !good {
        return anew(alloc, file.give_back(), kept);
    }
    match nodes.into_ids() {
        Ok(ids) => {
            let journal = file.finish();
            let store = SegStore { journal, ids };
            Ok(Loaded { store, kept })
        }
        Err(Memory) => Err(LoadStop {
            fault: LoadFault::Memory,
            disk: file.give_back(),
        }),
    }
}

/// What a journal says that did not start.
pub(crate) fn loaded_before<D: Disk>(
    alloc: Global,
    stop: StartStop<D>,
) -> Result<Loaded<D>, LoadStop<D>>
    ensures loaded { IfOk result (λ loaded. (told : Option (List ℕ))
        → IsFirstFault segments_mark told [] stop.fault
        → IsLoaded D.bytes D.images told loaded) }
    ensures known { IfOk result (λ loaded. (told : Option (List ℕ))
        → ((nth at : ℕ) → stop.fault ≡ StartFault.BadLog nth at → D.bytes stop.disk ≡ told)
        → StaysKnown told (D.bytes (disk_in loaded.store))) }
    ensures counted { (old : ℕ) → CountsStart stop.fault old (D.faults stop.disk)
        → MatchResult result (λ loaded. D.faults (disk_in loaded.store) ≡ old)
        (λ stopped. CountsLoad stopped.fault old (D.faults stopped.disk)) }
{
    let StartStop { fault, disk } = stop;
    let fault = match fault {
        // It begins with another mark, and no record was read.
        StartFault::BadLog { .. } => return anew(alloc, disk, Vec::new(alloc)),
        StartFault::Disk => LoadFault::Disk,
        StartFault::Memory => LoadFault::Memory,
    };
    Err(LoadStop { fault, disk })
}

/// These trees, and a store whose file starts anew.
fn anew<D: Disk>(alloc: Global, disk: D, kept: Vec<KeptTrees>) -> Result<Loaded<D>, LoadStop<D>>
    ensures anew { IfOk result
        (λ loaded. StoreKeeps D.bytes D.images [] loaded.store × (loaded.kept ≡ kept)) }
    ensures known { IfOk result
        (λ loaded. StaysKnown (D.bytes disk) (D.bytes (disk_in loaded.store))) }
    ensures counted { MatchResult result
        (λ loaded. D.faults (disk_in loaded.store) ≡ D.faults disk)
        (λ stop. CountsLoad stop.fault (D.faults disk) (D.faults stop.disk)) }
{
    match Journal::anew(disk, Mark::Segments) {
        Ok(journal) => {
            let ids = Ids::new(alloc);
            let store = SegStore { journal, ids };
            Ok(Loaded { store, kept })
        }
        Err(StartStop { disk, .. }) => Err(LoadStop {
            fault: LoadFault::Disk,
            disk,
        }),
    }
}

/// What the records of a file keep, up to its journal's first fault where it has one, with those leaves whole that are wanted.
pub(crate) fn found_in<D: Disk>(
    alloc: Global,
    file: &mut Reading<D>,
    wanted: Wanted,
) -> Result<Found, LoadFault>
    ensures found { IfOk result (λ found. (disk : D)
        → HasRead D.bytes D.images D.moment D.images_since segments_mark disk [] file.old
        → (records : List (List ℕ))
        × HasAllFound D.bytes D.images D.moment D.images_since wanted disk records file.new found) }
    ensures counted { MatchResult result
        (λ _. D.faults (disk_from file.new) ≡ D.faults (disk_from file.old))
        (λ fault. CountsLoad fault (D.faults (disk_from file.old)) (D.faults (disk_from file.new))) }
{
    let mut found = Found::none(alloc, wanted);
    let mut payload = Vec::new(alloc);
    while find(alloc, file, &mut payload, &mut found)? {}
    Ok(found)
}

/// Finds what the next record keeps, and answers whether there was one.
fn find<D: Disk>(
    alloc: Global,
    file: &mut Reading<D>,
    payload: &mut Vec<u8>,
    found: &mut Found,
) -> Result<bool, LoadFault>
    ensures record { IfOk result (λ more. IsTrue more → (whole : List ℕ)
        × ((records : List (List ℕ))
        → ((disk : D)
        → HasRead D.bytes D.images D.moment D.images_since segments_mark disk records file.old
        → HasRead D.bytes D.images D.moment D.images_since segments_mark disk
        (records ++ whole ∷ []) file.new)
        × ((wanted : Wanted) → HasFound wanted records found.old
        → HasFound wanted (records ++ whole ∷ []) found.new))) }
    ensures end { IfOk result (λ more. more ≡ false → (wanted : Wanted) (disk : D)
        (records : List (List ℕ))
        → HasRead D.bytes D.images D.moment D.images_since segments_mark disk records file.old
        → HasFound wanted records found.old
        → HasAllFound D.bytes D.images D.moment D.images_since wanted disk records file.new
        found.new) }
    ensures less { IfOk result (λ more. IsTrue more → left_in file.new < left_in file.old) }
    ensures counted { MatchResult result
        (λ _. D.faults (disk_from file.new) ≡ D.faults (disk_from file.old))
        (λ fault. CountsLoad fault (D.faults (disk_from file.old)) (D.faults (disk_from file.new))) }
{
    if pass(alloc, file, payload, found)? {
        return Ok(true);
    }
    match file.next(payload) {
        Ok(Some(_)) => {
            found.add(alloc, payload)?;
            Ok(true)
        }
        Ok(None) => Ok(false),
        Err(StartFault::BadLog { .. }) => {
            found.good = false;
            Ok(false)
        }
        Err(StartFault::Disk) => Err(LoadFault::Disk),
        Err(StartFault::Memory) => Err(LoadFault::Memory),
    }
}

/// Goes over the next record, if it is long and counts for nothing by the front of its payload, and answers whether it does.
fn pass<D: Disk>(
    alloc: Global,
    file: &mut Reading<D>,
    front: &mut Vec<u8>,
    found: &mut Found,
) -> Result<bool, LoadFault>
    ensures record { IfOk result (λ passes. IsTrue passes → (whole : List ℕ)
        × ((records : List (List ℕ))
        → ((disk : D)
        → HasRead D.bytes D.images D.moment D.images_since segments_mark disk records file.old
        → HasRead D.bytes D.images D.moment D.images_since segments_mark disk
        (records ++ whole ∷ []) file.new)
        × ((wanted : Wanted) → HasFound wanted records found.old
        → HasFound wanted (records ++ whole ∷ []) found.new))) }
    ensures stays { IfOk result (λ passes. passes ≡ false → (records : List (List ℕ))
        → ((disk : D)
        → HasRead D.bytes D.images D.moment D.images_since segments_mark disk records file.old
        → HasRead D.bytes D.images D.moment D.images_since segments_mark disk records file.new)
        × ((wanted : Wanted) → HasFound wanted records found.old
        → HasFound wanted records found.new)) }
    ensures left { IfOk result (λ passes. passes ≡ false → left_in file.new ≡ left_in file.old) }
    ensures less { IfOk result (λ passes. IsTrue passes → left_in file.new < left_in file.old) }
    ensures counted { MatchResult result
        (λ _. D.faults (disk_from file.new) ≡ D.faults (disk_from file.old))
        (λ fault. CountsLoad fault (D.faults (disk_from file.old)) (D.faults (disk_from file.new))) }
{
    let next = match file.front(FRONT, front) {
        Ok(Some(next)) => next,
        Ok(None) | Err(StartFault::BadLog { .. }) => return Ok(false),
        Err(StartFault::Disk) => return Err(LoadFault::Disk),
        Err(StartFault::Memory) => return Err(LoadFault::Memory),
    };
    let bytes = front.as_slice();
    if !found.pass(alloc, bytes)? {
        return Ok(false);
    }
    file.pass(next, bytes);
    Ok(true)
}
