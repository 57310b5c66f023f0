//! The records of a target's log beside a history.
ghost use Rattle.std.specs.Prelude.{◌≡◌, ◌≤◌, ◌<◌, ◌+◌, ◌^◌, ◌++◌, [], ◌∷◌, ℕ, List, length, IfOk, IfErr};
ghost use Rattle.fb_values.specs.declared.facts.Entry.{Entry};
ghost use Rattle.fb_model.specs.History.{basis, upto};
ghost use Rattle.fb_model.specs.Lawful.{IsLawful};
ghost use Rattle.log_model.specs.Storable.{IsPayloadOf};
ghost use Rattle.log_model.specs.Log.{LogStands, byte_in_log};
ghost use Rattle.disk_log.specs.Records.{IsBehind, EndsWithin};
ghost use Rattle.disk_log.specs.declared.records.LogRecord.TheVariants.{Misfit};
ghost use Rattle.fb_backup.specs.Comparing.{AreBeside, AreCompared, SaysFault};

use crate::BackupFault;
use crate::same::has_at;
use disk_log::LogRecord;
use fb_codec::{BytesFault, entry_of};
use fb_history::EntryList;
use fb_journal::Place;
use fb_memory::Memory;
use fb_model::lawful_histories_are_counted_by_t;
use fb_values::Entry;
use log_model::{a_fault_lies_in_its_payload, a_payload_is_its_entrys_bytes};
use std::alloc::Global;

/// What the records so far are.
#[derive(Clone, Copy)]
pub(crate) enum Compared {
    /// Each holds an entry.
    Entries { beside: Beside },
    /// The first that holds no entry, and the byte of the file at which its first misfit begins. What the records after it hold
    /// is not read.
    Misfit { nth: u64, at: u64 },
}

/// Entries beside those of the history from t = 1 on.
#[derive(Clone, Copy)]
pub(crate) enum Beside {
    /// They are those up to this t.
    Same { t: u32 },
    /// This t is that of the first that is not the history's.
    Other { t: u32 },
}

impl Compared {
    /// No record yet.
    pub(crate) fn none() -> Compared
        ensures { (h : List Entry) → IsLawful h → AreCompared h [] result }
    {
        Compared::Entries {
            beside: Beside::Same { t: 0 },
        }
    }

    /// With the record that comes next, of whose payload this was read.
    pub(crate) fn with(
        self,
        alloc: Global,
        entries: &EntryList,
        next: LogRecord,
        payload: &[u8],
    ) -> Result<Compared, Memory>
        requires lawful { IsLawful entries.now }
        requires within { EndsWithin payload.now next }
        requires compared { (records : List (List ℕ)) × AreCompared entries.now records self }
        ensures { IfOk result (λ compared. (records : List (List ℕ)) (whole : List ℕ)
            → AreCompared entries.now records self → IsBehind records whole payload.now next
            → AreCompared entries.now (records ++ whole ∷ []) compared) }
    {
        match next {
            LogRecord::Whole { place } => self.with_payload(alloc, entries, place, payload),
            LogRecord::Misfit { nth, at } => Ok(self.with_misfit(nth, at)),
        }
    }

    /// With a record whose payload lies at this place.
    fn with_payload(
        self,
        alloc: Global,
        entries: &EntryList,
        place: Place,
        payload: &[u8],
    ) -> Result<Compared, Memory>
        requires lawful { IsLawful entries.now }
        requires within { place.at + length payload.now < 2 ^ 64 }
        requires compared { (records : List (List ℕ)) × AreCompared entries.now records self }
        ensures { IfOk result (λ compared. (records : List (List ℕ))
            → AreCompared entries.now records self
            → place.nth ≡ length records → place.at ≡ byte_in_log records 0
            → AreCompared entries.now (records ++ payload.now ∷ []) compared) }
    {
        match self {
            Compared::Entries { beside } => compared_in(alloc, entries, beside, place, payload),
            Compared::Misfit { nth, at } => Ok(Compared::Misfit { nth, at }),
        }
    }

    /// With a record that holds no entry.
    fn with_misfit(self, nth: u64, at: u64) -> Compared
        ensures { (h : List Entry) (records : List (List ℕ)) (whole read : List ℕ)
            → AreCompared h records self → IsBehind records whole read (Misfit nth at)
            → AreCompared h (records ++ whole ∷ []) result }
    {
        match self {
            Compared::Entries { .. } => Compared::Misfit { nth, at },
            Compared::Misfit {
                nth: first,
                at: there,
            } => Compared::Misfit {
                nth: first,
                at: there,
            },
        }
    }

    /// The t of the last entry, where all are the history's.
    pub(crate) fn into_basis(self) -> Result<u32, BackupFault>
        ensures stands { IfOk result (λ t. (h : List Entry) (records : List (List ℕ))
            → AreCompared h records self → (t ≤ basis h) × LogStands records (upto h t)) }
        ensures fault { IfErr result (λ fault. (h : List Entry) (records : List (List ℕ))
            → AreCompared h records self → SaysFault h records fault) }
    {
        match self {
            Compared::Entries {
                beside: Beside::Same { t },
            } => Ok(t),
            Compared::Entries {
                beside: Beside::Other { t },
            } => Err(BackupFault::Other { t }),
            Compared::Misfit { nth, at } => Err(BackupFault::BadLog { nth, at }),
        }
    }
}

/// The entries with that of a payload, or the payload's first misfit.
fn compared_in(
    alloc: Global,
    entries: &EntryList,
    beside: Beside,
    place: Place,
    payload: &[u8],
) -> Result<Compared, Memory>
    requires lawful { IsLawful entries.now }
    requires within { place.at + length payload.now < 2 ^ 64 }
    requires beside { (records : List (List ℕ)) × AreBeside entries.now records beside }
    ensures { IfOk result (λ compared. (records : List (List ℕ))
        → AreBeside entries.now records beside
        → place.nth ≡ length records → place.at ≡ byte_in_log records 0
        → AreCompared entries.now (records ++ payload.now ∷ []) compared) }
{
    a_payload_is_its_entrys_bytes();
    a_fault_lies_in_its_payload();
    match entry_of(alloc, payload) {
        Ok(entry) => Ok(Compared::Entries {
            beside: beside.with(entries, &entry),
        }),
        Err(BytesFault::At { byte }) => Ok(Compared::Misfit {
            nth: place.nth,
            at: place.at + byte,
        }),
        Err(BytesFault::Memory) => Err(Memory),
    }
}

impl Beside {
    /// With the entry that comes next.
    fn with(self, entries: &EntryList, entry: &Entry) -> Beside
        requires lawful { IsLawful entries.now }
        requires beside { (records : List (List ℕ)) × AreBeside entries.now records self }
        ensures { (records : List (List ℕ)) (payload : List ℕ)
            → AreBeside entries.now records self → IsPayloadOf entry.now payload
            → AreBeside entries.now (records ++ payload ∷ []) result }
    {
        lawful_histories_are_counted_by_t();
        match self {
            Beside::Same { t } => next_to(entries, t, entry),
            Beside::Other { t } => Beside::Other { t },
        }
    }
}

/// The entries up to t of the history, and then this one.
fn next_to(entries: &EntryList, t: u32, entry: &Entry) -> Beside
    requires lawful { IsLawful entries.now }
    requires within { t < length entries.now }
    ensures { (records : List (List ℕ)) (payload : List ℕ)
        → LogStands records (upto entries.now t) → IsPayloadOf entry.now payload
        → AreBeside entries.now (records ++ payload ∷ []) result }
{
    // So t + 1 is a t.
    let _len = entries.len();
    let next = t + 1;
    if has_at(entries, next, entry) {
        Beside::Same { t: next }
    } else {
        Beside::Other { t: next }
    }
}
