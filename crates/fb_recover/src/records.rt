//! Reading the records of a log as a history.
ghost use Rattle.std.specs.Prelude.{◌≡◌, ◌<◌, ◌+◌, ◌^◌, ◌++◌, [], ◌∷◌, ℕ, List, length, IfOk, IfErr, MatchResult};
ghost use Rattle.disk_model.specs.Disk.{IfKnown};
ghost use Rattle.disk_model.specs.Journal.{log_mark};
ghost use Rattle.log_model.specs.Log.{LogStands, byte_in_log, log_says};
ghost use Rattle.fb_journal.specs.Readings.{disk_from, HasRead, HasReadAll, LeavesBegun};
ghost use Rattle.disk_log.specs.Records.{IsBehind, EndsWithin};
ghost use Rattle.disk_log.specs.declared.records.LogRecord.TheVariants.{Misfit};
ghost use Rattle.fb_recover.specs.Faults.{MatchesFault, IsCause, CountsLog};
ghost use Rattle.fb_recover.specs.Finding.{IsFound, HaveFound};

use crate::OpenFault;
use crate::judging::lawful_history;
use disk_log::{LogRecord, next_record};
use fb_codec::{BytesFault, entry_of};
use fb_disk::Disk;
use fb_history::EntryList;
use fb_journal::{Place, Reading};
use fb_memory::Memory;
use fb_values::Entry;
use log_model::{a_fault_lies_in_its_payload, a_payload_is_its_entrys_bytes};
use std::alloc::Global;

/// What the records so far are.
#[derive(Drop)]
pub(crate) enum Found {
    /// Each holds an entry.
    Entries { entries: Vec<Entry> },
    /// The first that holds none, and the byte of the file at which its first misfit begins. What the records after it hold
    /// is not read.
    Misfit { nth: u64, at: u64 },
}

/// The history that the records of a log hold, or what is wrong with the log first. A record that holds no entry is reported
/// once all records were found, since a fault of the journal after it comes before it, and the laws are asked after that.
pub(crate) fn history_of<D: Disk>(
    alloc: Global,
    log: &mut Reading<D>,
) -> Result<EntryList, OpenFault>
    requires { (disk : D)
        × HasRead D.bytes D.images D.moment D.images_since log_mark disk [] log.old }
    ensures read { IfOk result (λ h. (disk : D)
        → HasRead D.bytes D.images D.moment D.images_since log_mark disk [] log.old
        → (records : List (List ℕ))
        × HasReadAll D.bytes D.images D.moment D.images_since log_mark disk records log.new
        × LogStands records h) }
    ensures why_not { IfErr result (λ fault. (disk : D)
        → HasRead D.bytes D.images D.moment D.images_since log_mark disk [] log.old
        → IfKnown (D.bytes disk) (IsCause fault)) }
    ensures counted { MatchResult result
        (λ _. D.faults (disk_from log.new) ≡ D.faults (disk_from log.old))
        (λ fault. CountsLog fault (D.faults (disk_from log.old)) (D.faults (disk_from log.new))) }
    ensures any_moment { (disk : D)
        → HasRead D.bytes D.images D.moment D.images_since log_mark disk [] log.old
        → LeavesBegun D.bytes D.images D.moment D.images_since disk (disk_from log.new) }
{
    let mut found = Found::none(alloc);
    let mut payload = Vec::new(alloc);
    while let Some(next) = next_record(alloc, log, &mut payload)? {
        found = found.with(alloc, next, &payload)?;
    }
    found.into_history(alloc)
}

impl Found {
    /// No record yet.
    fn none(alloc: Global) -> Found
        ensures { HaveFound [] result }
    {
        let entries = Vec::new(alloc);
        Found::Entries { entries }
    }

    /// With the record that comes next, of whose payload this was read.
    fn with(self, alloc: Global, next: LogRecord, payload: &[u8]) -> Result<Found, Memory>
        requires { EndsWithin payload.now next }
        ensures { IfOk result (λ found. (records : List (List ℕ)) (whole : List ℕ)
            → HaveFound records self → IsBehind records whole payload.now next
            → HaveFound (records ++ whole ∷ []) found) }
    {
        match next {
            LogRecord::Whole { place } => self.with_payload(alloc, place, payload),
            LogRecord::Misfit { nth, at } => Ok(self.with_misfit(nth, at)),
        }
    }

    /// With a record whose payload lies at this place.
    fn with_payload(self, alloc: Global, place: Place, payload: &[u8]) -> Result<Found, Memory>
        requires { place.at + length payload.now < 2 ^ 64 }
        ensures { IfOk result (λ found. (records : List (List ℕ)) → HaveFound records self
            → place.nth ≡ length records → place.at ≡ byte_in_log records 0
            → HaveFound (records ++ payload.now ∷ []) found) }
    {
        match self {
            Found::Entries { entries } => found_in(alloc, entries, place, payload),
            Found::Misfit { nth, at } => Ok(Found::Misfit { nth, at }),
        }
    }

    /// With a record that holds no entry.
    fn with_misfit(self, nth: u64, at: u64) -> Found
        ensures { (records : List (List ℕ)) (whole read : List ℕ) → HaveFound records self
            → IsBehind records whole read (Misfit nth at)
            → HaveFound (records ++ whole ∷ []) result }
    {
        match self {
            Found::Entries { entries: _entries } => Found::Misfit { nth, at },
            Found::Misfit {
                nth: first,
                at: there,
            } => Found::Misfit {
                nth: first,
                at: there,
            },
        }
    }

    /// The history, or what is wrong with the records first.
    fn into_history(self, alloc: Global) -> Result<EntryList, OpenFault>
        ensures stands { IfOk result (λ h. (records : List (List ℕ)) → HaveFound records self
            → LogStands records h) }
        ensures fault { IfErr result (λ fault. (records : List (List ℕ)) → HaveFound records self
            → MatchesFault fault (log_says records)) }
    {
        match self {
            Found::Entries { entries } => lawful_history(alloc, entries),
            Found::Misfit { nth, at } => Err(OpenFault::BadLog { nth, at }),
        }
    }
}

/// The entries with that of a payload, or the payload's first misfit.
fn found_in(
    alloc: Global,
    mut entries: Vec<Entry>,
    place: Place,
    payload: &[u8],
) -> Result<Found, Memory>
    requires { place.at + length payload.now < 2 ^ 64 }
    ensures { IfOk result (IsFound entries.items place payload.now) }
{
    a_payload_is_its_entrys_bytes();
    a_fault_lies_in_its_payload();
    match entry_of(alloc, payload) {
        Ok(entry) => {
            entries.push(entry)?;
            Ok(Found::Entries { entries })
        }
        Err(BytesFault::At { byte }) => Ok(Found::Misfit {
            nth: place.nth,
            at: place.at + byte,
        }),
        Err(BytesFault::Memory) => Err(Memory),
    }
}
