//! Loading the newest root of a file of segments, without the leaves that only older ones have.
ghost use Rattle.std.specs.Prelude.{◌≡◌, [], ℕ, List, Option, IfOk, MatchResult, MatchOption, ⊤};
ghost use Rattle.disk_model.specs.Journal.{segments_mark};
ghost use Rattle.fb_journal.specs.Journals.{StaysKnown};
ghost use Rattle.fb_journal.specs.Readings.{disk_from, HasRead, IsFirstFault};
ghost use Rattle.fb_journal.specs.Starts.{CountsStart};
ghost use Rattle.fb_journal.specs.declared.starts.StartFault.{StartFault};
ghost use Rattle.seg_store.specs.Stores.{disk_in};
ghost use Rattle.seg_store.specs.Loads.{IsNewestRoot, IsLoadedNewest, store_in, CountsLoad};
ghost use Rattle.seg_store.specs.Finding.{IsOpenedAs, HasRooted, IsFirst, disk_at};

use crate::found::Found;
use crate::loads::{KeptTrees, LoadFault, LoadStop, Loaded, found_in, loaded_before, loaded_from};
use crate::stores::SegStore;
use fb_disk::Disk;
use fb_journal::{Journal, Mark, Reading, StartFault, StartStop};
use seg_codec::{Ids, Wanted};
use std::alloc::Global;

/// A store, and the newest root that its file keeps.
#[derive(Drop)]
pub struct NewestRoot<D: Disk> {
    pub store: SegStore<D>,
    pub trees: KeptTrees,
}

/// What is loaded of a file for the sake of its newest root.
#[derive(Drop)]
pub enum Newest<D: Disk> {
    /// This root alone.
    Root(NewestRoot<D>),
    /// All roots: the file keeps none or has a fault, or other bytes were read of it the second time.
    Whole(Loaded<D>),
}

/// The trees of the newest root, and the ids of all nodes of the file.
#[derive(Drop)]
pub(crate) struct Rooted {
    trees: KeptTrees,
    ids: Ids,
}

/// What a first reading tells of a file.
#[derive(Drop)]
pub(crate) enum First<D: Disk> {
    /// It has no record, and the reading goes on.
    Empty(Reading<D>),
    /// It has two records or more.
    Several(D),
    /// It has one record, or a fault before a second one.
    Other(D),
}

impl<D: Disk> SegStore<D> {
    /// Loads the newest root that a file keeps, if it has one and no fault, and else all of them. A file of several records is
    /// read twice, first for the ids of that root's leaves. So the others take little memory, however many there are. A file
    /// without a record is opened once.
    pub fn load_newest(alloc: Global, disk: D) -> Result<Newest<D>, LoadStop<D>>
        ensures newest { IfOk result (IsLoadedNewest D.bytes D.images (D.bytes disk)) }
        ensures known { IfOk result
            (λ newest. StaysKnown (D.bytes disk) (D.bytes (disk_in (store_in newest)))) }

        // A fault of the disk is counted.
        ensures counted { MatchResult result
            (λ newest. D.faults (disk_in (store_in newest)) ≡ D.faults disk)
            (λ stop. CountsLoad stop.fault (D.faults disk) (D.faults stop.disk)) }
    {
        match first_of(alloc, disk)? {
            First::Empty(file) => whole_from(alloc, file),
            First::Several(begun) => newest_of_several(alloc, begun),
            First::Other(begun) => newest_with(alloc, begun, Wanted::Every),
        }
    }
}

// ---- what a first reading tells: but for a file without a record, no claim needs it

/// Opens a file for the first time.
fn first_of<D: Disk>(alloc: Global, disk: D) -> Result<First<D>, LoadStop<D>>
    ensures first { IfOk result
        (IsFirst D.bytes D.images D.moment D.images_since disk) }
    ensures counted { MatchResult result (λ first. D.faults (disk_at first) ≡ D.faults disk)
        (λ stop. CountsLoad stop.fault (D.faults disk) (D.faults stop.disk)) }
{
    match Journal::open(alloc, disk, Mark::Segments) {
        Ok(file) => first_in(alloc, file),
        Err(stop) => {
            let other = not_opened(stop)?;
            Ok(First::Other(other))
        }
    }
}

/// What is told of a file that was opened.
fn first_in<D: Disk>(alloc: Global, file: Reading<D>) -> Result<First<D>, LoadStop<D>>
    ensures first { IfOk result (λ first. (disk : D)
        → HasRead D.bytes D.images D.moment D.images_since segments_mark disk [] file
        → IsFirst D.bytes D.images D.moment D.images_since disk first) }
    ensures counted { MatchResult result
        (λ first. D.faults (disk_at first) ≡ D.faults (disk_from file))
        (λ stop. CountsLoad stop.fault (D.faults (disk_from file)) (D.faults stop.disk)) }
{
    let mut file = file;
    match has_none(alloc, &mut file) {
        Ok(true) => Ok(First::Empty(file)),
        Ok(false) => first_beyond(alloc, file),
        Err(fault) => Err(LoadStop {
            fault,
            disk: file.give_back(),
        }),
    }
}

/// Whether a file has no record with a byte, and no fault.
fn has_none<D: Disk>(alloc: Global, file: &mut Reading<D>) -> Result<bool, LoadFault>
    ensures stays { (disk : D) (records : List (List ℕ))
        → HasRead D.bytes D.images D.moment D.images_since segments_mark disk records file.old
        → HasRead D.bytes D.images D.moment D.images_since segments_mark disk records file.new }
    ensures counted { MatchResult result
        (λ _. D.faults (disk_from file.new) ≡ D.faults (disk_from file.old))
        (λ fault. CountsLoad fault (D.faults (disk_from file.old)) (D.faults (disk_from file.new))) }
{
    let mut front = Vec::new(alloc);
    match file.front(0, &mut front) {
        Ok(next) => Ok(next.is_none()),
        Err(StartFault::BadLog { .. }) => Ok(false),
        Err(StartFault::Disk) => Err(LoadFault::Disk),
        Err(StartFault::Memory) => Err(LoadFault::Memory),
    }
}

/// What is told of a file that has a record or a fault.
fn first_beyond<D: Disk>(alloc: Global, file: Reading<D>) -> Result<First<D>, LoadStop<D>>
    ensures first { IfOk result (λ first. (disk : D)
        → HasRead D.bytes D.images D.moment D.images_since segments_mark disk [] file
        → IsFirst D.bytes D.images D.moment D.images_since disk first) }
    ensures counted { MatchResult result
        (λ first. D.faults (disk_at first) ≡ D.faults (disk_from file))
        (λ stop. CountsLoad stop.fault (D.faults (disk_from file)) (D.faults stop.disk)) }
{
    let mut file = file;
    match goes_over_two(alloc, &mut file) {
        Ok(true) => Ok(First::Several(file.give_back())),
        Ok(false) => Ok(First::Other(file.give_back())),
        Err(fault) => Err(LoadStop {
            fault,
            disk: file.give_back(),
        }),
    }
}

/// The disk of a journal that did not start because it has another mark.
fn not_opened<D: Disk>(stop: StartStop<D>) -> Result<D, LoadStop<D>>
    ensures opened { IfOk result (λ back. (told : Option (List ℕ))
        → IsFirstFault segments_mark told [] stop.fault
        → ((nth at : ℕ) → stop.fault ≡ StartFault.BadLog nth at → D.bytes stop.disk ≡ told)
        → IsOpenedAs told (D.bytes back)) }
    ensures counted { (old : ℕ) → CountsStart stop.fault old (D.faults stop.disk)
        → MatchResult result (λ back. D.faults back ≡ old)
        (λ stopped. CountsLoad stopped.fault old (D.faults stopped.disk)) }
{
    let StartStop { fault, disk } = stop;
    let fault = match fault {
        StartFault::BadLog { .. } => return Ok(disk),
        StartFault::Disk => LoadFault::Disk,
        StartFault::Memory => LoadFault::Memory,
    };
    Err(LoadStop { fault, disk })
}

fn goes_over_two<D: Disk>(alloc: Global, file: &mut Reading<D>) -> Result<bool, LoadFault>
    ensures read { (disk : D) (records : List (List ℕ))
        → HasRead D.bytes D.images D.moment D.images_since segments_mark disk records file.old
        → (more : List (List ℕ))
        × HasRead D.bytes D.images D.moment D.images_since segments_mark disk more file.new }
    ensures counted { MatchResult result
        (λ _. D.faults (disk_from file.new) ≡ D.faults (disk_from file.old))
        (λ fault. CountsLoad fault (D.faults (disk_from file.old)) (D.faults (disk_from file.new))) }
{
    let mut front = Vec::new(alloc);
    if !goes_over(file, &mut front)? {
        return Ok(false);
    }
    goes_over(file, &mut front)
}

/// Goes over the next record, if it has a byte, and answers whether there was one.
fn goes_over<D: Disk>(file: &mut Reading<D>, front: &mut Vec<u8>) -> Result<bool, LoadFault>
    ensures read { (disk : D) (records : List (List ℕ))
        → HasRead D.bytes D.images D.moment D.images_since segments_mark disk records file.old
        → (more : List (List ℕ))
        × HasRead D.bytes D.images D.moment D.images_since segments_mark disk more file.new }
    ensures counted { MatchResult result
        (λ _. D.faults (disk_from file.new) ≡ D.faults (disk_from file.old))
        (λ fault. CountsLoad fault (D.faults (disk_from file.old)) (D.faults (disk_from file.new))) }
{
    let next = match file.front(0, front) {
        Ok(Some(next)) => next,
        Ok(None) | Err(StartFault::BadLog { .. }) => return Ok(false),
        Err(StartFault::Disk) => return Err(LoadFault::Disk),
        Err(StartFault::Memory) => return Err(LoadFault::Memory),
    };
    let bytes = front.as_slice();
    file.pass(next, bytes);
    Ok(true)
}

/// What is loaded of a file of several records.
fn newest_of_several<D: Disk>(alloc: Global, disk: D) -> Result<Newest<D>, LoadStop<D>>
    ensures newest { IfOk result (IsLoadedNewest D.bytes D.images (D.bytes disk)) }
    ensures known { IfOk result
        (λ newest. StaysKnown (D.bytes disk) (D.bytes (disk_in (store_in newest)))) }
    ensures counted { MatchResult result
        (λ newest. D.faults (disk_in (store_in newest)) ≡ D.faults disk)
        (λ stop. CountsLoad stop.fault (D.faults disk) (D.faults stop.disk)) }
{
    let (wanted, read) = wanted_in(alloc, disk)?;
    newest_with(alloc, read, wanted)
}

/// The leaves of the newest root of a file.
fn wanted_in<D: Disk>(alloc: Global, disk: D) -> Result<(Wanted, D), LoadStop<D>>
    ensures opened { IfOk result (λ r. IsOpenedAs (D.bytes disk) (D.bytes r.1)) }
    ensures counted { MatchResult result (λ r. D.faults r.1 ≡ D.faults disk)
        (λ stop. CountsLoad stop.fault (D.faults disk) (D.faults stop.disk)) }
{
    let mut file = match Journal::open(alloc, disk, Mark::Segments) {
        Ok(file) => file,
        Err(stop) => {
            let other = not_opened(stop)?;
            return Ok((Wanted::Every, other));
        }
    };
    match newest_leaves(alloc, &mut file) {
        Ok(ids) => Ok((Wanted::Only(ids), file.give_back())),
        Err(fault) => Err(LoadStop {
            fault,
            disk: file.give_back(),
        }),
    }
}

/// The ids of the leaves of the newest root of a file, with no leaf whole meanwhile.
fn newest_leaves<D: Disk>(alloc: Global, file: &mut Reading<D>) -> Result<Ids, LoadFault>
    ensures opened { IfOk result (λ _. (disk : D)
        → HasRead D.bytes D.images D.moment D.images_since segments_mark disk [] file.old
        → IsOpenedAs (D.bytes disk) (D.bytes (disk_from file.new))) }
    ensures counted { MatchResult result
        (λ _. D.faults (disk_from file.new) ≡ D.faults (disk_from file.old))
        (λ fault. CountsLoad fault (D.faults (disk_from file.old)) (D.faults (disk_from file.new))) }
{
    let found = found_in(alloc, file, Wanted::Only(Ids::new(alloc)))?;
    match found.kept.last() {
        None => Ok(Ids::new(alloc)),
        Some(newest) => {
            let ids = Ids::of_leaves(alloc, &newest.roots)?;
            Ok(ids)
        }
    }
}

// ---- the reading that counts

/// All that a file keeps that was opened, and of which no record was read.
fn whole_from<D: Disk>(alloc: Global, file: Reading<D>) -> Result<Newest<D>, LoadStop<D>>
    requires { (disk : D)
        × HasRead D.bytes D.images D.moment D.images_since segments_mark disk [] file }
    ensures newest { IfOk result (λ newest. (disk : D)
        → HasRead D.bytes D.images D.moment D.images_since segments_mark disk [] file
        → IsLoadedNewest D.bytes D.images (D.bytes disk) newest) }
    ensures known { IfOk result (λ newest. (disk : D)
        → HasRead D.bytes D.images D.moment D.images_since segments_mark disk [] file
        → StaysKnown (D.bytes disk) (D.bytes (disk_in (store_in newest)))) }
    ensures counted { MatchResult result
        (λ newest. D.faults (disk_in (store_in newest)) ≡ D.faults (disk_from file))
        (λ stop. CountsLoad stop.fault (D.faults (disk_from file)) (D.faults stop.disk)) }
{
    let loaded = loaded_from(alloc, file)?;
    Ok(Newest::Whole(loaded))
}

/// What is loaded of a file with those leaves whole that are wanted.
fn newest_with<D: Disk>(alloc: Global, disk: D, wanted: Wanted) -> Result<Newest<D>, LoadStop<D>>
    ensures newest { IfOk result (IsLoadedNewest D.bytes D.images (D.bytes disk)) }
    ensures known { IfOk result
        (λ newest. StaysKnown (D.bytes disk) (D.bytes (disk_in (store_in newest)))) }
    ensures counted { MatchResult result
        (λ newest. D.faults (disk_in (store_in newest)) ≡ D.faults disk)
        (λ stop. CountsLoad stop.fault (D.faults disk) (D.faults stop.disk)) }
{
    let mut file = match Journal::open(alloc, disk, Mark::Segments) {
        Ok(file) => file,
        Err(stop) => {
            let loaded = loaded_before(alloc, stop)?;
            return Ok(Newest::Whole(loaded));
        }
    };
    match rooted_in(alloc, &mut file, wanted) {
        Ok(Some(rooted)) => Ok(Newest::Root(behind(file, rooted))),
        Ok(None) => {
            let loaded = SegStore::load(alloc, file.give_back())?;
            Ok(Newest::Whole(loaded))
        }
        Err(fault) => Err(LoadStop {
            fault,
            disk: file.give_back(),
        }),
    }
}

/// The newest root of a file, if it keeps one and has no fault, and all leaves of that root are wanted.
fn rooted_in<D: Disk>(
    alloc: Global,
    file: &mut Reading<D>,
    wanted: Wanted,
) -> Result<Option<Rooted>, LoadFault>
    ensures opened { IfOk result (λ _. (disk : D)
        → HasRead D.bytes D.images D.moment D.images_since segments_mark disk [] file.old
        → IsOpenedAs (D.bytes disk) (D.bytes (disk_from file.new))) }
    ensures rooted { IfOk result (λ found. MatchOption found ⊤ (λ rooted. (disk : D)
        → HasRead D.bytes D.images D.moment D.images_since segments_mark disk [] file.old
        → (records : List (List ℕ))
        × HasRooted D.bytes D.images D.moment D.images_since disk records file.new rooted)) }
    ensures counted { MatchResult result
        (λ _. D.faults (disk_from file.new) ≡ D.faults (disk_from file.old))
        (λ fault. CountsLoad fault (D.faults (disk_from file.old)) (D.faults (disk_from file.new))) }
{
    let Found {
        wanted,
        nodes,
        kept,
        good,
    } = found_in(alloc, file, wanted)?;
    let mut kept = kept;
    if !good {
        return Ok(None);
    }
    let Some(trees) = kept.pop() else {
        return Ok(None);
    };
    if !wanted.has_all(alloc, &trees.roots)? {
        return Ok(None);
    }
    let ids = nodes.into_ids()?;
    Ok(Some(Rooted { trees, ids }))
}

/// The newest root, and the store that goes on after the records that were read.
fn behind<D: Disk>(file: Reading<D>, rooted: Rooted) -> NewestRoot<D>
    requires { (disk : D) × (records : List (List ℕ))
        × HasRooted D.bytes D.images D.moment D.images_since disk records file rooted }
    ensures newest { (disk : D) (records : List (List ℕ))
        → HasRooted D.bytes D.images D.moment D.images_since disk records file rooted
        → IsOpenedAs (D.bytes disk) (D.bytes (disk_from file))
        → IsNewestRoot D.bytes D.images (D.bytes disk) result }
    ensures disk { disk_in result.store ≡ disk_from file }
{
    let Rooted { trees, ids } = rooted;
    let journal = file.finish();
    let store = SegStore { journal, ids };
    NewestRoot { store, trees }
}
