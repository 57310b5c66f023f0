//! Backups over four disks, each call of each of which fails in turn. The run has to say so, the source stays as it was, and what a crash
//! leaves of the target is a beginning of the source, with all that the target had, from which the next backup goes on.
use crate::directories::{Contents, DIRECTORY, Parts, disk};
use crate::logs::failing::{MOST_CALLS, SEGMENTS_CUTS};
use crate::logs::kept::{Kept, read_over};
use crate::runs::{self, CLOCK, both, run_words};
use anyhow::{Result, bail};
use fb_ports::Part;
use fb_run::Outcome;
use mem_ports::{MemDisk, MemHost, MemSink, MemSource};
use merge_worker::OpenGate;
use std::alloc::Global;
use std::sync::Wait;
use std::thread::Threads;

/// The name of the target in a host.
const TARGET: &str = "copy";

/// A disk, and how its fault is told.
#[derive(Clone, Copy)]
struct Port {
    directory: &'static str,
    part: Part,
    line: &'static str,
}

/// The two disks of the source, and those of the target.
const PORTS: [Port; 4] = [
    Port {
        directory: DIRECTORY,
        part: Part::Log,
        line: "factbase: disk fault on log",
    },
    Port {
        directory: DIRECTORY,
        part: Part::Segments,
        line: "factbase: disk fault on segments",
    },
    Port {
        directory: TARGET,
        part: Part::Log,
        line: "factbase: disk fault on target log",
    },
    Port {
        directory: TARGET,
        part: Part::Segments,
        line: "factbase: disk fault on target segments",
    },
];

/// The disk at a place of the table, and the number of its call that fails.
#[derive(Clone, Copy)]
struct Fault {
    place: usize,
    call: u64,
}

/// What a target has before a backup, with the history up to so many transactions.
#[derive(Clone, Copy)]
struct Target<'a> {
    contents: Contents<'a>,
    t: u32,
}

/// Fails each call of backups to an empty directory, to one that has a beginning of the log, and to one that has segments besides. It
/// says how many calls failed.
pub(crate) fn fail_backups<R: Threads + Wait + Sync>(
    rt: &R,
    alloc: Global,
    kept: &[Kept],
) -> Result<u64> {
    let [none, one, two, ..] = kept else {
        bail!("histories are missing");
    };
    let backups = Backups {
        source: two,
        beginnings: [none, one, two],
    };
    let empty = target_of(&[], &[], 0);
    let begun = target_of(one.log(), &[], 1);
    let merged = target_of(one.log(), one.segments(), 1);
    let mut calls = 0_u64;
    for target in &[empty, begun, merged] {
        calls = calls.saturating_add(backups.fail_calls(rt, alloc, *target)?);
    }
    Ok(calls)
}

fn target_of<'a>(log: &'a [u8], segments: &'a [u8], t: u32) -> Target<'a> {
    Target {
        contents: Contents { log, segments },
        t,
    }
}

/// The words of the command.
fn words(alloc: Global) -> Result<Vec<String>> {
    let mut words = Vec::new(alloc);
    for word in &["backup", DIRECTORY, TARGET] {
        words.push(String::from_str(alloc, word)?)?;
    }
    Ok(words)
}

/// What a backup hands back.
#[derive(Drop)]
struct Ended {
    status: u8,
    line: String,
    console: Option<MemSink>,
    source: Option<Parts>,
    target: Option<Parts>,
}

fn ended_of(outcome: Outcome<MemSource, MemSink, MemDisk>) -> Ended {
    let Outcome {
        status,
        line,
        console,
        log,
        segments,
        target_log,
        target_segments,
        ..
    } = outcome;
    Ended {
        status,
        line,
        console,
        source: both(log, segments),
        target: both(target_log, target_segments),
    }
}

impl Ended {
    /// What was printed.
    fn printed(&self) -> &[u8] {
        match &self.console {
            Some(console) => console.bytes(),
            None => &[],
        }
    }

    fn target(&self) -> Result<&Parts> {
        match &self.target {
            Some(target) => Ok(target),
            None => bail!("a backup hands back no target"),
        }
    }
}

/// Backups of a history, and what each of its beginnings leaves.
#[derive(Clone, Copy)]
struct Backups<'a> {
    source: &'a Kept,
    beginnings: [&'a Kept; 3],
}

impl<'a> Backups<'a> {
    fn fail_calls<R: Threads + Wait + Sync>(
        &self,
        rt: &R,
        alloc: Global,
        target: Target<'_>,
    ) -> Result<u64> {
        let mut calls = 0_u64;
        for (place, port) in PORTS.iter().enumerate() {
            calls = calls.saturating_add(self.fail_port(rt, alloc, target, place, port)?);
        }
        Ok(calls)
    }

    /// Backs up again and again, until no call of the disk fails any longer.
    fn fail_port<R: Threads + Wait + Sync>(
        &self,
        rt: &R,
        alloc: Global,
        target: Target<'_>,
        place: usize,
        port: &Port,
    ) -> Result<u64> {
        for call in 1..MOST_CALLS {
            let fault = Fault { place, call };
            let ended = self.back_up(rt, alloc, target.contents, Some(fault))?;
            if ended.status == 0 {
                self.judge_end(rt, alloc, target, &ended)?;
                return Ok(call.saturating_sub(1));
            }
            self.judge_fault(rt, alloc, target, port, &ended)?;
        }
        bail!("the calls do not end")
    }

    fn back_up<R: Threads + Wait + Sync>(
        &self,
        rt: &R,
        alloc: Global,
        target: Contents<'_>,
        fault: Option<Fault>,
    ) -> Result<Ended> {
        let mut host = self.host(alloc, target, fault)?;
        let words = words(alloc)?;
        let outcome = run_words(rt, alloc, &words, CLOCK, &mut host, &OpenGate)?;
        Ok(ended_of(outcome))
    }

    fn host(&self, alloc: Global, target: Contents<'_>, fault: Option<Fault>) -> Result<MemHost> {
        let mut host = MemHost::new(alloc);
        let files = [
            self.source.log(),
            self.source.segments(),
            target.log,
            target.segments,
        ];
        for (place, (port, bytes)) in PORTS.iter().zip(files.iter()).enumerate() {
            let failing = match fault {
                Some(fault) if fault.place == place => Some(fault.call),
                _ => None,
            };
            host.add_disk(port.directory, port.part, disk(alloc, bytes, failing)?)?;
        }
        Ok(host)
    }

    // ---- what is left

    fn judge_fault<R: Threads + Wait + Sync>(
        &self,
        rt: &R,
        alloc: Global,
        target: Target<'_>,
        port: &Port,
        ended: &Ended,
    ) -> Result<()> {
        if ended.status != 3 || ended.line.as_str() != port.line {
            bail!(
                "a backup ends with status {} and {}",
                ended.status,
                ended.line.as_str()
            );
        }
        self.compare_source(ended)?;
        if port.directory == TARGET {
            self.open_left(rt, alloc, target.t, ended.target()?)?;
        }
        Ok(())
    }

    fn compare_source(&self, ended: &Ended) -> Result<()> {
        if let Some(source) = &ended.source {
            if source.log.bytes() != self.source.log()
                || source.segments.bytes() != self.source.segments()
            {
                bail!("a backup changes its source");
            }
        }
        Ok(())
    }

    /// All is copied, and told.
    fn judge_end<R: Threads + Wait + Sync>(
        &self,
        rt: &R,
        alloc: Global,
        target: Target<'_>,
        ended: &Ended,
    ) -> Result<()> {
        let t = self.source.t();
        let copied = t.saturating_sub(target.t);
        let line = format!(in alloc; "{{:basis {t} :copied {copied} :covered {t}}}\n")?;
        if !ended.line.is_empty() || ended.printed() != line.as_bytes() {
            bail!("a backup tells something else");
        }
        self.compare_source(ended)?;
        self.open_left(rt, alloc, t, ended.target()?)
    }

    /// Opens what a crash may leave of the target, with the last write of each disk cut at the same byte.
    fn open_left<R: Threads + Wait + Sync>(
        &self,
        rt: &R,
        alloc: Global,
        least: u32,
        left: &Parts,
    ) -> Result<()> {
        for cut in SEGMENTS_CUTS {
            let log = left.log.image(alloc, &[*cut])?;
            self.open_beside(rt, alloc, least, log.bytes(), &left.segments, *cut)?;
        }
        Ok(())
    }

    fn open_beside<R: Threads + Wait + Sync>(
        &self,
        rt: &R,
        alloc: Global,
        least: u32,
        log: &[u8],
        segments: &MemDisk,
        cut: u64,
    ) -> Result<()> {
        let image = segments.image(alloc, &[cut])?;
        let contents = Contents {
            log,
            segments: image.bytes(),
        };
        self.open(rt, alloc, least, contents)
    }

    /// It is a beginning with so many transactions at least, and the next backup goes on from there.
    fn open<R: Threads + Wait + Sync>(
        &self,
        rt: &R,
        alloc: Global,
        least: u32,
        contents: Contents<'_>,
    ) -> Result<()> {
        self.compare_beginning(&read_over(rt, alloc, contents)?, least)?;
        let next = self.back_up(rt, alloc, contents, None)?;
        if next.status != 0 || next.target()?.log.bytes() != self.source.log() {
            bail!("the next backup does not go on");
        }
        Ok(())
    }

    fn compare_beginning(&self, read: &runs::Ended, least: u32) -> Result<()> {
        match self.beginnings.get(read.recovered as usize) {
            Some(beginning) if least <= read.recovered => {
                beginning.covered_in(read)?;
                Ok(())
            }
            _ => bail!("a backup leaves no beginning"),
        }
    }
}
