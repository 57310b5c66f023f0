//! Files that claim a record of three gibibytes, of which few bytes are there and the others a hole. No record begins so, and an opening
//! asks for no more than a window of them at once.
use fb_disk::{Disk, Failed};
use fb_recover::{OpenFault, reopen};
use io_faults::raise;
use std::alloc::Global;
use std::test::Fail;

/// The mark, an open gate, the length, and the format of an entry or of a merge record.
const LOG_WITH_HOLE: &[u8] = b"FACTBASE LOG 1\n\x01\0\0\0\0\xc0\0\0\0\x02";

const SEGMENTS_WITH_HOLE: &[u8] = b"FACTBASE SEG 1\n\x01\0\0\0\0\xc0\0\0\0\x02";

/// Files without a record. What is behind a closed gate is not read as one.
const NEW_LOG: &[u8] = b"FACTBASE LOG 1\n\0";

const NEW_SEGMENTS: &[u8] = b"FACTBASE SEG 1\n\0";

/// The mark, a gate and a length, three gibibytes, and a closed gate.
const LEN: u64 = 24 + (3 << 30) + 1;

/// A file of zeros but for its first bytes. It tells no bytes to a contract, and what is written to it is lost.
#[derive(Drop)]
struct HoleDisk {
    first: &'static [u8],
    faults: u64,
    /// The most bytes that a call asked for.
    most_asked: usize,
}

impl HoleDisk {
    fn new(first: &'static [u8]) -> HoleDisk {
        HoleDisk {
            first,
            faults: 0,
            most_asked: 0,
        }
    }
}

impl Disk for HoleDisk {
    ghost use Rattle.std.specs.Prelude.{None, ⊤};

    ghost faults = { λ d. d.faults };

    ghost bytes = { λ _. None };

    ghost images = { λ _ _. ⊤ };

    ghost moment = { λ _. 0 };

    ghost images_since = { λ _ _ _. ⊤ };

    ghost reads_an_image = { λ _ _ _. tt };

    ghost counts_now = { λ _ _ _ _ _. tt };

    ghost only_now = { λ _ _ _. tt };

    fn faults(&self) -> u64 {
        self.faults
    }

    fn len(&mut self) -> Result<u64, Failed> {
        Ok(LEN)
    }

    fn read_at(&mut self, at: u64, buf: &mut [u8]) -> Result<usize, Failed> {
        self.most_asked = self.most_asked.max(buf.len());
        buf.fill(0);
        for (byte, first) in buf.iter_mut().zip(self.first.iter().skip(at as usize)) {
            *byte = *first;
        }
        Ok(buf.len().min(LEN.saturating_sub(at) as usize))
    }

    fn write_at(&mut self, at: u64, piece: &[u8]) -> Result<(), Failed> {
        if at.checked_add(piece.len() as u64).is_some() {
            return Ok(());
        }
        raise(&mut self.faults);
        Err(Failed)
    }

    fn cut(&mut self, _len: u64) -> Result<(), Failed> {
        Ok(())
    }

    fn sync(&mut self) -> Result<(), Failed> {
        Ok(())
    }
}

/// What an opening answers: the t of the last entry, or the fault. And the most bytes that it asked for at once, of the segments where
/// it succeeds, and else of the log.
fn opened(alloc: Global, log: HoleDisk, segments: HoleDisk) -> (Result<u32, OpenFault>, usize) {
    match reopen(alloc, log, segments) {
        Ok(opened) => {
            let segments = opened.store.give_back();
            (Ok(opened.recovered), segments.most_asked)
        }
        Err(stop) => (Err(stop.fault), stop.log.most_asked),
    }
}

#[test]
fn a_hole_is_not_read(rt: HostRuntime) -> Result<(), Fail> {
    let rows = [
        (
            LOG_WITH_HOLE,
            NEW_SEGMENTS,
            Err(OpenFault::BadLog { nth: 0, at: 41 }),
        ),
        (NEW_LOG, SEGMENTS_WITH_HOLE, Ok(0)),
    ];
    for (n, (log, segments, expected)) in rows.iter().enumerate() {
        let (answer, most_asked) = opened(rt.alloc(), HoleDisk::new(log), HoleDisk::new(segments));
        assert_eq!(rt; answer, *expected, "row {n}");
        assert!(rt; most_asked <= 1 << 20, "row {n}");
    }
    Ok(())
}
