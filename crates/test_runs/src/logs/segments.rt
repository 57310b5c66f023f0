//! Logs beside segments that are older or newer, of another history, changed, or left by a crash: what is answered is in the log alone.
use crate::logs::failing::Failing;
use crate::logs::kept::{FIRST, FOURTH, Kept, SECOND};
use anyhow::{Result, bail};
use std::alloc::Global;
use std::sync::Wait;
use std::thread::Threads;

/// How far the trees go with which a log is opened, a row for each history, beside segments, a column for each: as far as the two
/// histories are the same.
const COVERED: [[u32; 4]; 4] = [[0, 0, 0, 0], [0, 1, 1, 1], [0, 1, 2, 1], [0, 1, 1, 2]];

/// With each of these each byte is combined by exclusive or.
const MASKS: &[u8] = &[0x01, 0x80, 0xff];

/// What histories leave: one without a transaction, one with the first, two that go on from it, and two that go on from the second.
/// With the third most nodes of the segments are dead, so an opening makes room in them.
#[derive(Clone, Copy)]
pub(crate) struct Histories<'a> {
    none: &'a Kept,
    one: &'a Kept,
    two: &'a Kept,
    other: &'a Kept,
    three: &'a Kept,
    four: &'a Kept,
}

pub(crate) fn histories_in(kept: &[Kept]) -> Result<Histories<'_>> {
    let [none, one, two, other, three, four] = kept else {
        bail!("histories are missing");
    };
    Ok(Histories {
        none,
        one,
        two,
        other,
        three,
        four,
    })
}

impl<'a> Histories<'a> {
    fn all(&self) -> [&'a Kept; 4] {
        [self.none, self.one, self.two, self.other]
    }

    /// Opens each log beside the segments of each history. It says how many pairs there are.
    pub(crate) fn pair<R: Threads + Wait + Sync>(&self, rt: &R, alloc: Global) -> Result<usize> {
        let mut pairs: usize = 0;
        for (log, row) in self.all().iter().zip(COVERED.iter()) {
            pairs = pairs.saturating_add(self.pair_log(rt, alloc, log, row)?);
        }
        Ok(pairs)
    }

    fn pair_log<R: Threads + Wait + Sync>(
        &self,
        rt: &R,
        alloc: Global,
        log: &Kept,
        row: &[u32; 4],
    ) -> Result<usize> {
        for (segments, covered) in self.all().iter().zip(row.iter()) {
            if log.covered_by(rt, alloc, segments.segments())? != *covered {
                bail!("trees go as far as another t than {covered}");
            }
        }
        Ok(row.len())
    }

    /// Changes each byte of a file with two roots to three others. It says how many files that makes.
    pub(crate) fn change_bytes<R: Threads + Wait + Sync>(
        &self,
        rt: &R,
        alloc: Global,
    ) -> Result<usize> {
        let len = self.two.segments().len();
        for place in 0..len {
            self.change_byte(rt, alloc, place)?;
        }
        Ok(len.saturating_mul(MASKS.len()))
    }

    fn change_byte<R: Threads + Wait + Sync>(
        &self,
        rt: &R,
        alloc: Global,
        place: usize,
    ) -> Result<()> {
        for mask in MASKS {
            self.open_changed(rt, alloc, place, *mask)?;
        }
        Ok(())
    }

    fn open_changed<R: Threads + Wait + Sync>(
        &self,
        rt: &R,
        alloc: Global,
        place: usize,
        mask: u8,
    ) -> Result<()> {
        let segments = changed(alloc, self.two.segments(), place, mask)?;
        let covered = self.two.covered_by(rt, alloc, &segments)?;
        if !self.may_be_covered(place, covered) {
            bail!("with byte {place} changed the trees go as far as {covered}");
        }
        Ok(())
    }

    /// From the gate of the second record on, a change leaves the first root alone. The last byte is after both.
    fn may_be_covered(&self, place: usize, covered: u32) -> bool {
        let behind = place.saturating_add(1);
        if behind == self.two.segments().len() {
            covered == 2
        } else {
            behind < self.one.segments().len() || covered == 1
        }
    }

    /// Fails each call of the segments' disk in turn: of a file that has no root, of one that has, of one that starts anew, and of one
    /// in which an opening makes room.
    pub(crate) fn fail_calls<R: Threads + Wait + Sync>(&self, rt: &R, alloc: Global) -> Result<()> {
        let without_root = Failing {
            log: self.none,
            segments: self.none,
            script: FIRST,
            after: self.one,
            least: 0,
        };
        let with_root = Failing {
            log: self.one,
            segments: self.one,
            script: SECOND,
            after: self.two,
            least: 1,
        };
        let anew = Failing {
            log: self.none,
            segments: self.two,
            script: FIRST,
            after: self.one,
            least: 0,
        };
        let with_room = Failing {
            log: self.three,
            segments: self.three,
            script: FOURTH,
            after: self.four,
            least: 0,
        };
        for run in &[without_root, with_root, anew, with_room] {
            run.fail_each_call(rt, alloc)?;
        }
        Ok(())
    }
}

/// The bytes with one of them combined with a mask.
fn changed(alloc: Global, bytes: &[u8], place: usize, mask: u8) -> Result<Vec<u8>> {
    let mut changed = bytes.to_vec(alloc)?;
    if let Some(byte) = changed.get_mut(place) {
        *byte ^= mask;
    }
    Ok(changed)
}
