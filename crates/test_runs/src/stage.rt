//! The stage of a play: a gate that holds the worker at a point while the sessions go on, and sinks that take the lines in the play's
//! order. What is waited for comes soon or never, so a wait gives up after many looks, and then nothing is waited for any longer.
ghost use Rattle.std.specs.Prelude.{Some};

use crate::play::Play;
use fb_ports::{Failed, Host, OpenFail, Part, Sink};
use mem_ports::{MemDisk, MemHost, MemSink, MemSource};
use merge_worker::{Gate, Point};
use std::alloc::Global;
use std::collections::BTreeMap;
use std::sync::atomic::{AtomicBool, AtomicU64, Ordering};
use std::thread;

/// These take several seconds.
const MOST_LOOKS: u64 = 10_000_000;

/// Where the worker and the sessions are.
#[derive(Drop)]
pub(crate) struct Stage {
    /// The point at which the worker is held in its first round.
    point: Point,
    /// The lines from which on the worker has come to the point, and has gone on.
    stands: u64,
    goes_on: u64,
    /// How often it came to the point.
    rounds: AtomicU64,
    /// How many lines were taken.
    lines: AtomicU64,
    gave_up: AtomicBool,
}

impl Stage {
    pub(crate) fn new(point: Point, play: &Play<'_>) -> Stage {
        Stage {
            point,
            stands: play.stands as u64,
            goes_on: play.goes_on as u64,
            rounds: AtomicU64::new(0),
            lines: AtomicU64::new(0),
            gave_up: AtomicBool::new(false),
        }
    }

    /// Whether all that was waited for came.
    pub(crate) fn went_well(&self) -> bool {
        !self.gave_up.load(Ordering::SeqCst)
    }

    /// Waits until the line may be taken. Where the worker is at its point for the second time, it has adopted the trees of its first
    /// round.
    fn await_line(&self, line: u64) {
        self.look_for(&self.lines, line);
        if line >= self.goes_on {
            self.look_for(&self.rounds, 2);
        } else if line >= self.stands {
            self.look_for(&self.rounds, 1);
        }
    }

    /// The lines that end in these bytes were taken. They are the last ones of `turns`.
    fn pass_lines(&self, turns: &mut Vec<u64>, bytes: &[u8]) {
        for byte in bytes.iter() {
            if *byte == b'\n' {
                let _line = turns.pop();
                self.lines.fetch_add(1, Ordering::SeqCst);
            }
        }
    }

    /// Waits until the word is so great.
    fn look_for(&self, word: &AtomicU64, least: u64) {
        for _ in 0..MOST_LOOKS {
            if word.load(Ordering::SeqCst) >= least || !self.went_well() {
                return;
            }
            thread::yield_now();
        }
        self.gave_up.store(true, Ordering::SeqCst);
    }
}

impl Gate for Stage {
    fn pass(&self, point: Point) {
        if point == self.point && self.rounds.fetch_add(1, Ordering::SeqCst) == 0 {
            self.look_for(&self.lines, self.goes_on);
        }
    }
}

/// A sink that takes each line in its turn. Lines that come together are one speaker's, and follow one another in the play.
#[derive(Drop)]
pub(crate) struct TurnSink<'a> {
    pub(crate) sink: MemSink,
    stage: &'a Stage,
    /// The numbers of its lines, the last one first.
    turns: Vec<u64>,
}

impl Sink for TurnSink<'_> {
    ghost faults = { λ s. s.sink.calls.faults };

    ghost contents = { λ s. Some s.sink.bytes };

    fn faults(&self) -> u64 {
        self.sink.faults()
    }

    fn write(&mut self, piece: &[u8]) -> Result<usize, Failed> {
        if let Some(line) = self.turns.last() {
            self.stage.await_line(*line);
        }
        let taken = self.sink.write(piece)?;
        self.stage.pass_lines(&mut self.turns, &piece[..taken]);
        Ok(taken)
    }
}

/// A host in memory whose sinks are on a stage.
#[derive(Drop)]
pub(crate) struct StageHost<'a> {
    pub(crate) host: MemHost,
    /// The turns of each sink by its name.
    pub(crate) turns: BTreeMap<String, Vec<u64>>,
    pub(crate) stage: &'a Stage,
}

impl<'a> Host for StageHost<'a> {
    ghost use Rattle.mem_ports.specs.MemHosts.{spec_of};

    type In = MemSource;

    type Out = TurnSink<'a>;

    type Disk = MemDisk;

    ghost spec = { λ h. spec_of h.host };

    fn faults(&self) -> u64 {
        self.host.faults()
    }

    fn source(&mut self, alloc: Global, name: &str) -> Result<MemSource, OpenFail> {
        self.host.source(alloc, name)
    }

    fn sink(&mut self, alloc: Global, name: &str) -> Result<TurnSink<'a>, OpenFail> {
        let turns = self.turns.remove(name).unwrap_or(Vec::new(alloc));
        let sink = self.host.sink(alloc, name)?;
        Ok(TurnSink {
            sink,
            stage: self.stage,
            turns,
        })
    }

    fn disk(&mut self, alloc: Global, dir: &str, part: Part) -> Result<MemDisk, OpenFail> {
        self.host.disk(alloc, dir, part)
    }
}
