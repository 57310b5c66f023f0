//! Reading a journal record by record. Of the file no more is in memory than a window and one payload, or the front of one.
ghost use Rattle.std.specs.Prelude.{◌≡◌, ◌⊎◌, ◌≤◌, ◌<◌, ◌+◌, ◌-◌, ◌^◌, ◌++◌, [], ◌∷◌, ℕ, List, length, take, drop, IfOk, IfErr, OnOk, OnErr, MatchOption, MatchResult, ⊤};
ghost use Rattle.disk_model.specs.Disk.{IfKnown, LeavesOnly};
ghost use Rattle.disk_model.specs.Journal.{opened};
ghost use Rattle.fb_journal.specs.Marks.{mark_bytes};
ghost use Rattle.fb_journal.specs.Journals.{disk_of, mark_of, Keeps};
ghost use Rattle.fb_journal.specs.Starts.{CountsStart, IsNotBad};

use crate::gates::{Ahead, look_ahead};
use crate::marks::MARK;
use crate::openings::begin;
use crate::windows::Window;
use crate::zeros::end_of;
use crate::{Journal, Mark, StartFault, StartStop};
use fb_disk::Disk;
use std::alloc::Global;

/// What precedes a payload: an open gate, and the payload's length.
const BEFORE_PAYLOAD: u64 = 9;

/// The place of a record: its number, counted from 0, and the byte of the file at which its payload begins.
#[derive(Clone, Copy, Debug, PartialEq, Eq)]
pub struct Place {
    pub nth: u64,
    pub at: u64,
}

/// The record that comes next: its place, and the length of its payload.
#[derive(Clone, Copy, Debug, PartialEq, Eq)]
pub struct Next {
    pub place: Place,
    pub len: u64,
}

/// A journal whose records are being read, one after another.
#[derive(Drop)]
pub struct Reading<D: Disk> {
    disk: D,
    mark: Mark,
    window: Window,
    records: u64,
    gate: u64,
    ghost room: { gate < window.len },
    ghost fits: { window.len < 2 ^ 64 },
    ghost few: { records ≤ gate },
}

impl<D: Disk> Journal<D> {
    ghost use Rattle.fb_journal.specs.Readings.{disk_from, HasRead, LeavesBegun, IsFirstFault};
    ghost use Rattle.fb_journal.specs.declared.starts.StartFault.{StartFault};

    /// Begins to read the journal of a disk, with a sync first. Of at most 16 bytes it makes a new journal.
    pub fn open(alloc: Global, disk: D, mark: Mark) -> Result<Reading<D>, StartStop<D>>
        ensures begins { IfOk result (λ r. HasRead D.bytes D.images D.moment D.images_since
            (mark_bytes mark) disk [] r) }

        // A fault of the file is its first, and the disk's is counted.
        ensures why_not { IfErr result
            (λ s. IsFirstFault (mark_bytes mark) (D.bytes disk) [] s.fault) }
        ensures bytes { IfErr result (λ s. (nth at : ℕ) → s.fault ≡ StartFault.BadLog nth at
            → D.bytes s.disk ≡ D.bytes disk) }
        ensures counted { MatchResult result (λ r. D.faults (disk_from r) ≡ D.faults disk)
            (λ s. CountsStart s.fault (D.faults disk) (D.faults s.disk)) }

        // A crash meanwhile leaves an image from before, or at most 16 bytes where there were no more: a new journal.
        ensures any_moment { IfErr result
            (λ s. LeavesBegun D.bytes D.images D.moment D.images_since disk s.disk) }
    {
        let mut disk = disk;
        match begin(alloc, &mut disk, mark) {
            Ok(window) => Ok(Reading {
                disk,
                mark,
                window,
                records: 0,
                gate: MARK as u64,
            }),
            Err(fault) => Err(StartStop { fault, disk }),
        }
    }
}

impl<D: Disk> Reading<D> {
    ghost use Rattle.fb_journal.specs.Windows.{Shows, OnlyReads};
    ghost use Rattle.fb_journal.specs.Readings.{disk_from, left_in, HasRead, HasReadAll, IsFirstFault, HasPlace, IsFront, HasNoLonger};
    ghost use Rattle.fb_journal.specs.declared.starts.StartFault.{StartFault};

    /// Reads the next record's payload, in place of what the vector holds, and answers the place of the record; or answers
    /// that there is none. After an error the reading is where it was.
    pub fn next(&mut self, payload: &mut Vec<u8>) -> Result<Option<Place>, StartFault>
        ensures record { IfOk result (λ next. MatchOption next ⊤ (λ place. (mark : List ℕ) (disk : D)
            (records : List (List ℕ))
            → HasRead D.bytes D.images D.moment D.images_since mark disk records self.old
            → HasRead D.bytes D.images D.moment D.images_since mark disk
            (records ++ payload.new.items ∷ []) self.new
            × (place.nth ≡ length records)
            × (place.at ≡ length mark + length (opened records) + 9))) }
        ensures end { IfOk result (λ next. MatchOption next ((mark : List ℕ) (disk : D)
            (records : List (List ℕ))
            → HasRead D.bytes D.images D.moment D.images_since mark disk records self.old
            → HasReadAll D.bytes D.images D.moment D.images_since mark disk records self.new)
            (λ _. ⊤)) }

        // A fault of the file is its first, and the disk's is counted.
        ensures why_not { IfErr result (λ fault. (mark : List ℕ) (disk : D)
            (records : List (List ℕ))
            → HasRead D.bytes D.images D.moment D.images_since mark disk records self.old
            → IsFirstFault mark (D.bytes disk) records fault
            × HasRead D.bytes D.images D.moment D.images_since mark disk records self.new) }
        ensures counted { MatchResult result
            (λ _. D.faults (disk_from self.new) ≡ D.faults (disk_from self.old))
            (λ fault. CountsStart fault (D.faults (disk_from self.old)) (D.faults (disk_from self.new))) }

        // The payload ends within 64 bits, and there is less to read.
        ensures within { IfOk result (λ next. MatchOption next ⊤
            (λ place. place.at + length payload.new.items < 2 ^ 64)) }
        ensures less { IfOk result (λ next. MatchOption next ⊤
            (λ _. left_in self.new < left_in self.old)) }
    {
        match look_ahead(&mut self.disk, &mut self.window, self.gate)? {
            Ahead::Closed => Ok(None),
            Ahead::CutShort => Err(self.broken()),
            Ahead::Record { len } => Ok(Some(self.take(len, payload)?)),
        }
    }

    /// Reads the first n bytes of the next record's payload, if there are more, in place of what the vector holds, and answers
    /// the record. The reading stays where it was, and a fault of the file is not told.
    pub fn front(&mut self, n: usize, front: &mut Vec<u8>) -> Result<Option<Next>, StartFault>
        ensures has_place { IfOk result (λ next. MatchOption next ⊤
            (λ next. HasPlace self.new next front.new.items)) }
        ensures front { IfOk result (λ next. MatchOption next ⊤ (λ next. (mark : List ℕ) (disk : D)
            (records : List (List ℕ))
            → HasRead D.bytes D.images D.moment D.images_since mark disk records self.old
            → IsFront D.bytes self.new next front.new.items
            × (next.place.nth ≡ length records)
            × (next.place.at ≡ length mark + length (opened records) + 9))) }
        ensures len { IfOk result (λ next. MatchOption next ⊤
            (λ next. (length front.new.items ≡ n) × (n < next.len))) }
        ensures within { IfOk result (λ next. MatchOption next ⊤
            (λ next. next.place.at + next.len < 2 ^ 64)) }
        ensures none { IfOk result (λ next. MatchOption next ((mark : List ℕ) (disk : D)
            (records : List (List ℕ))
            → HasRead D.bytes D.images D.moment D.images_since mark disk records self.old
            → HasNoLonger D.bytes self.old n)
            (λ _. ⊤)) }
        ensures stays { (mark : List ℕ) (disk : D) (records : List (List ℕ))
            → HasRead D.bytes D.images D.moment D.images_since mark disk records self.old
            → HasRead D.bytes D.images D.moment D.images_since mark disk records self.new }
        ensures left { left_in self.new ≡ left_in self.old }
        ensures why_not { IfErr result (λ fault. (mark : List ℕ) (disk : D)
            (records : List (List ℕ))
            → HasRead D.bytes D.images D.moment D.images_since mark disk records self.old
            → IsFirstFault mark (D.bytes disk) records fault) }
        ensures counted { MatchResult result
            (λ _. D.faults (disk_from self.new) ≡ D.faults (disk_from self.old))
            (λ fault. CountsStart fault (D.faults (disk_from self.old)) (D.faults (disk_from self.new))) }
    {
        let ahead = look_ahead(&mut self.disk, &mut self.window, self.gate)?;
        let Ahead::Record { len } = ahead else {
            return Ok(None);
        };
        if len <= n {
            return Ok(None);
        }
        let place = self.read_ahead(n, front)?;
        let len = len as u64;
        Ok(Some(Next { place, len }))
    }

    /// Goes on behind the record that comes next, of whose payload this is the front, and reads no more of it.
    pub fn pass(&mut self, next: Next, front: &[u8])
        requires { HasPlace self.old next front.now }
        ensures passed { (rest : List ℕ) × ((mark : List ℕ) (disk : D) (records : List (List ℕ))
            → HasRead D.bytes D.images D.moment D.images_since mark disk records self.old
            → IsFront D.bytes self.old next front.now
            → HasRead D.bytes D.images D.moment D.images_since mark disk
            (records ++ (front.now ++ rest) ∷ []) self.new) }
        ensures less { left_in self.new < left_in self.old }
        ensures counted { D.faults (disk_from self.new) ≡ D.faults (disk_from self.old) }
    {
        let _len = front.len();
        self.gate = next.place.at + next.len;
        self.records += 1;
    }

    /// Reads the payload of this length after the gate.
    fn take(&mut self, len: usize, payload: &mut Vec<u8>) -> Result<Place, StartFault>
        requires { self.old.gate + 9 + len < self.old.window.len }
        ensures place { IfOk result (λ place. (place.nth ≡ self.old.records)
            × (place.at ≡ self.old.gate + 9)) }
        ensures len { OnOk result (length payload.new.items ≡ len) }
        ensures gone_on { OnOk result ((self.new.records ≡ self.old.records + 1)
            × (self.new.gate ≡ self.old.gate + 9 + len)) }
        ensures read { OnOk result (IfKnown (D.bytes (disk_from self.old)) (λ file.
            Shows file self.old.window
            → payload.new.items ≡ take len (drop (self.old.gate + 9) file))) }
        ensures stays { OnErr result ((self.new.records ≡ self.old.records)
            × (self.new.gate ≡ self.old.gate)) }
        ensures mark { self.new.mark ≡ self.old.mark }
        ensures leaves { OnlyReads D.bytes D.images D.moment D.images_since (disk_from self.old)
            (disk_from self.new) self.old.window self.new.window }
        ensures why_not { IfErr result (λ fault. IfKnown (D.bytes (disk_from self.old)) (λ file.
            Shows file self.old.window → IsNotBad fault)) }
        ensures counted { MatchResult result
            (λ _. D.faults (disk_from self.new) ≡ D.faults (disk_from self.old))
            (λ fault. CountsStart fault (D.faults (disk_from self.old)) (D.faults (disk_from self.new))) }
    {
        let place = self.read_ahead(len, payload)?;
        self.gate = place.at + len as u64;
        self.records += 1;
        Ok(place)
    }

    /// Reads the first n bytes of the payload after the gate.
    fn read_ahead(&mut self, n: usize, payload: &mut Vec<u8>) -> Result<Place, StartFault>
        requires { self.old.gate + 9 + n < self.old.window.len }
        ensures place { IfOk result (λ place. (place.nth ≡ self.old.records)
            × (place.at ≡ self.old.gate + 9)) }
        ensures len { OnOk result (length payload.new.items ≡ n) }
        ensures read { OnOk result (IfKnown (D.bytes (disk_from self.old)) (λ file.
            Shows file self.old.window
            → payload.new.items ≡ take n (drop (self.old.gate + 9) file))) }
        ensures stays { (self.new.records ≡ self.old.records) × (self.new.gate ≡ self.old.gate)
            × (self.new.mark ≡ self.old.mark) }
        ensures leaves { OnlyReads D.bytes D.images D.moment D.images_since (disk_from self.old)
            (disk_from self.new) self.old.window self.new.window }
        ensures why_not { IfErr result (λ fault. IfKnown (D.bytes (disk_from self.old)) (λ file.
            Shows file self.old.window → IsNotBad fault)) }
        ensures counted { MatchResult result
            (λ _. D.faults (disk_from self.new) ≡ D.faults (disk_from self.old))
            (λ fault. CountsStart fault (D.faults (disk_from self.old)) (D.faults (disk_from self.new))) }
    {
        payload.clear();
        payload.resize(n, 0)?;
        let place = Place {
            nth: self.records,
            at: self.gate + BEFORE_PAYLOAD,
        };
        if !self.window.read(&mut self.disk, place.at, payload)? {
            return Err(self.broken());
        }
        Ok(place)
    }

    /// The fault of the record after the gate.
    fn broken(&self) -> StartFault
        ensures { result ≡ StartFault.BadLog self.now.records (self.now.gate + 1) }
    {
        StartFault::BadLog {
            nth: self.records,
            at: self.gate + 1,
        }
    }

    /// The journal that goes on after the records, once all are read.
    pub fn finish(self) -> Journal<D>
        requires { (mark : List ℕ) × (disk : D) × (records : List (List ℕ))
            × HasReadAll D.bytes D.images D.moment D.images_since mark disk records self }
        ensures disk { disk_of result ≡ disk_from self }
        ensures keeps { (mark : List ℕ) (disk : D) (records : List (List ℕ))
            → HasReadAll D.bytes D.images D.moment D.images_since mark disk records self
            → Keeps D.bytes D.images records result × (mark_of result ≡ mark) }
    {
        Journal {
            disk: self.disk,
            mark: self.mark,
            records: self.records,
            gate: self.gate,
            stopped: None,
            laid: None,
            end: end_of(self.mark, self.window.len),
        }
    }

    /// The disk, with all that was done to it.
    pub fn give_back(self) -> D
        ensures { result ≡ disk_from self }
    {
        self.disk
    }
}
