//! Reading the records of a log. Of one that holds no entry no more is read than tells so.
ghost use Rattle.std.specs.Prelude.{◌≡◌, ◌<◌, ◌+◌, ◌^◌, ◌++◌, [], ◌∷◌, ℕ, List, length, ⊤, IfOk, IfErr, MatchOption, MatchResult};
ghost use Rattle.disk_model.specs.Journal.{log_mark};
ghost use Rattle.fb_journal.specs.Readings.{disk_from, left_in, HasRead, HasReadAll, IsFirstFault};
ghost use Rattle.fb_journal.specs.Starts.{CountsStart};
ghost use Rattle.disk_log.specs.Records.{IsBehind, EndsWithin};

use fb_codec::misfit_in_front;
use fb_disk::Disk;
use fb_journal::{Place, Reading, StartFault};
use fb_memory::Memory;
use std::alloc::Global;

/// How many bytes of a long payload are read first.
const FRONT: usize = 1 << 20;

/// A record of a log.
#[derive(Clone, Copy, Debug, PartialEq, Eq)]
pub enum LogRecord {
    /// One whose payload was read.
    Whole { place: Place },
    /// One that holds no entry: its number, and the byte of the file at which its first misfit begins.
    Misfit { nth: u64, at: u64 },
}

/// Reads the next record of a log, or answers that there is none. The payload takes the place of what the vector holds.
/// Where the front of a long one tells that it holds no entry, the rest is not read, and takes no memory.
pub fn next_record<D: Disk>(
    alloc: Global,
    log: &mut Reading<D>,
    payload: &mut Vec<u8>,
) -> Result<Option<LogRecord>, StartFault>
    ensures record { IfOk result (λ next. MatchOption next ⊤ (λ found. (whole : List ℕ)
        × ((disk : D) (records : List (List ℕ))
        → HasRead D.bytes D.images D.moment D.images_since log_mark disk records log.old
        → HasRead D.bytes D.images D.moment D.images_since log_mark disk
        (records ++ whole ∷ []) log.new
        × IsBehind records whole payload.new.items found))) }
    ensures end { IfOk result (λ next. MatchOption next ((disk : D) (records : List (List ℕ))
        → HasRead D.bytes D.images D.moment D.images_since log_mark disk records log.old
        → HasReadAll D.bytes D.images D.moment D.images_since log_mark disk records log.new)
        (λ _. ⊤)) }

    ensures within { IfOk result (λ next. MatchOption next ⊤ (EndsWithin payload.new.items)) }

    // A fault of the file is its first, and the disk's is counted.
    ensures why_not { IfErr result (λ fault. (disk : D) (records : List (List ℕ))
        → HasRead D.bytes D.images D.moment D.images_since log_mark disk records log.old
        → IsFirstFault log_mark (D.bytes disk) records fault
        × HasRead D.bytes D.images D.moment D.images_since log_mark disk records log.new) }
    ensures counted { MatchResult result
        (λ _. D.faults (disk_from log.new) ≡ D.faults (disk_from log.old))
        (λ fault. CountsStart fault (D.faults (disk_from log.old)) (D.faults (disk_from log.new))) }

    // There is less to read.
    ensures less { IfOk result (λ next. MatchOption next ⊤ (λ _. left_in log.new < left_in log.old)) }
{
    if let Some(misfit) = misfit_ahead(alloc, log, payload)? {
        return Ok(Some(misfit));
    }
    match log.next(payload)? {
        Some(place) => Ok(Some(LogRecord::Whole { place })),
        None => Ok(None),
    }
}

/// Goes over the next record, if it is long and the front of its payload tells that it holds no entry.
fn misfit_ahead<D: Disk>(
    alloc: Global,
    log: &mut Reading<D>,
    front: &mut Vec<u8>,
) -> Result<Option<LogRecord>, StartFault>
    ensures record { IfOk result (λ found. MatchOption found ⊤ (λ misfit. (whole : List ℕ)
        × ((disk : D) (records : List (List ℕ))
        → HasRead D.bytes D.images D.moment D.images_since log_mark disk records log.old
        → HasRead D.bytes D.images D.moment D.images_since log_mark disk
        (records ++ whole ∷ []) log.new
        × IsBehind records whole front.new.items misfit))) }
    ensures within { IfOk result (λ found. MatchOption found ⊤ (EndsWithin front.new.items)) }
    ensures stays { IfOk result (λ found. MatchOption found ((disk : D) (records : List (List ℕ))
        → HasRead D.bytes D.images D.moment D.images_since log_mark disk records log.old
        → HasRead D.bytes D.images D.moment D.images_since log_mark disk records log.new)
        (λ _. ⊤)) }
    ensures why_not { IfErr result (λ fault. (disk : D) (records : List (List ℕ))
        → HasRead D.bytes D.images D.moment D.images_since log_mark disk records log.old
        → IsFirstFault log_mark (D.bytes disk) records fault
        × HasRead D.bytes D.images D.moment D.images_since log_mark disk records log.new) }
    ensures counted { MatchResult result
        (λ _. D.faults (disk_from log.new) ≡ D.faults (disk_from log.old))
        (λ fault. CountsStart fault (D.faults (disk_from log.old)) (D.faults (disk_from log.new))) }
    ensures left { IfOk result (λ found. MatchOption found (left_in log.new ≡ left_in log.old)
        (λ _. left_in log.new < left_in log.old)) }
{
    let Some(next) = log.front(FRONT, front)? else {
        return Ok(None);
    };
    let bytes = front.as_slice();
    match misfit_in_front(alloc, bytes) {
        Ok(Some(byte)) => {
            log.pass(next, bytes);
            Ok(Some(LogRecord::Misfit {
                nth: next.place.nth,
                at: next.place.at + byte,
            }))
        }
        Ok(None) => Ok(None),
        Err(Memory) => Err(StartFault::Memory),
    }
}
