//! The lines of standard error, and those of a look at a directory and of a backup.
ghost use Rattle.std.specs.Prelude.{◌≡◌, ◌++◌, IfOk, string_bytes, codes, decimal};
ghost use Rattle.edn_core.specs.Answers.{fault_of};
ghost use Rattle.fb_run.specs.StatusLines.{usage_line, cannot_open, out_of_memory, disk_fault, record_line, law_line, target_fault, target_line, differs_line, stopped_line, segment_fault, console_fault, history_line, copied_line, script_line, fault_line, status_of_end, line_of_end, status_of, line_of, why_not, why_not_copied};

use crate::copying::NotCopied;
use edn_core::EdnFault;
use fb_backup::{BackupFault, CopyFault};
use fb_memory::Memory;
use fb_ports::Part;
use fb_recover::OpenFault;
use fb_session::SessionEnd;
use std::alloc::Global;

const USAGE: &str =
    "factbase: usage: factbase run [--merge-at N] [--strict] DIR SCRIPT.. | check DIR | load N | backup DIR DIR2";

const OUT_OF_MEMORY: &str = "factbase: out of memory";

const LOG_DISK_FAULT: &str = "factbase: disk fault on log";

const SEGMENTS_DISK_FAULT: &str = "factbase: disk fault on segments";

const TARGET_LOG_FAULT: &str = "factbase: disk fault on target log";

const TARGET_SEGMENTS_FAULT: &str = "factbase: disk fault on target segments";

const SEGMENT_FAULT: &str = "factbase: segment fault";

const CONSOLE_FAULT: &str = "factbase: console: write fault";

/// How far a history goes, and how far its trees do.
#[derive(Clone, Copy)]
pub(crate) struct Reach {
    pub(crate) basis: u32,
    pub(crate) covered: u32,
}

pub(crate) fn usage(alloc: Global) -> Result<String, Memory>
    ensures { IfOk result (λ line. string_bytes line ≡ usage_line) }
{
    Ok(String::from_str(alloc, USAGE)?)
}

pub(crate) fn cannot_open(alloc: Global, name: &str) -> Result<String, Memory>
    ensures { IfOk result (λ line. string_bytes line ≡ cannot_open name.now) }
{
    Ok(format!(in alloc; "factbase: cannot open {name}")?)
}

/// The exit status for why a database was not opened.
pub(crate) fn status_of_fault(fault: OpenFault) -> u8
    ensures { result ≡ status_of (why_not fault) }
{
    match fault {
        OpenFault::Disk { .. } => 3,
        OpenFault::BadLog { .. } | OpenFault::Unlawful { .. } => 4,
        OpenFault::Memory => 9,
    }
}

/// The line for why a database was not opened.
pub(crate) fn line_of_fault(alloc: Global, fault: OpenFault) -> Result<String, Memory>
    ensures { IfOk result (λ line. string_bytes line ≡ line_of (why_not fault)) }
{
    match fault {
        OpenFault::Disk { which } => disk_fault(alloc, which),
        OpenFault::BadLog { nth, at } => bad_record(alloc, nth, at),
        OpenFault::Unlawful { t, law } => unlawful(alloc, t, law),
        OpenFault::Memory => out_of_memory(alloc),
    }
}

fn disk_fault(alloc: Global, which: Part) -> Result<String, Memory>
    ensures { IfOk result (λ line. string_bytes line ≡ disk_fault which) }
{
    let line = match which {
        Part::Log => LOG_DISK_FAULT,
        Part::Segments => SEGMENTS_DISK_FAULT,
    };
    Ok(String::from_str(alloc, line)?)
}

fn bad_record(alloc: Global, nth: u64, at: u64) -> Result<String, Memory>
    ensures { IfOk result (λ line. string_bytes line ≡ record_line nth at) }
{
    Ok(format!(in alloc; "factbase: bad log: record {nth} at byte {at}")?)
}

fn unlawful(alloc: Global, t: u32, law: u8) -> Result<String, Memory>
    ensures { IfOk result (λ line. string_bytes line ≡ law_line t law) }
{
    Ok(format!(in alloc; "factbase: bad log: t {t} breaks law {law}")?)
}

/// What a look at a directory says of its history.
pub(crate) fn history_line(alloc: Global, reach: Reach) -> Result<String, Memory>
    ensures { IfOk result (λ line. string_bytes line ≡ history_line reach.basis reach.covered) }
{
    let Reach { basis, covered } = reach;
    Ok(format!(in alloc; "{{:basis {basis} :covered {covered}}}\n")?)
}

/// What a backup says of a copy of so many entries.
pub(crate) fn copied_line(alloc: Global, reach: Reach, copied: u32) -> Result<String, Memory>
    ensures { IfOk result
        (λ line. string_bytes line ≡ copied_line reach.basis copied reach.covered) }
{
    let Reach { basis, covered } = reach;
    Ok(format!(in alloc; "{{:basis {basis} :copied {copied} :covered {covered}}}\n")?)
}

/// The exit status for why not all was copied.
pub(crate) fn status_of_copy(why: NotCopied) -> u8
    ensures { result ≡ status_of (why_not_copied why) }
{
    match why {
        NotCopied::Log(BackupFault::Disk) | NotCopied::Segments(CopyFault::Disk) => 3,
        NotCopied::Log(BackupFault::BadLog { .. } | BackupFault::Other { .. }) => 4,
        NotCopied::Log(BackupFault::Memory) | NotCopied::Segments(CopyFault::Memory) => 9,
    }
}

/// The line for why not all was copied.
pub(crate) fn line_of_copy(alloc: Global, why: NotCopied) -> Result<String, Memory>
    ensures { IfOk result (λ line. string_bytes line ≡ line_of (why_not_copied why)) }
{
    match why {
        NotCopied::Log(BackupFault::Disk) => target_fault(alloc, Part::Log),
        NotCopied::Segments(CopyFault::Disk) => target_fault(alloc, Part::Segments),
        NotCopied::Log(BackupFault::BadLog { nth, at }) => bad_target(alloc, nth, at),
        NotCopied::Log(BackupFault::Other { t }) => target_differs(alloc, t),
        NotCopied::Log(BackupFault::Memory) | NotCopied::Segments(CopyFault::Memory) => {
            out_of_memory(alloc)
        }
    }
}

fn target_fault(alloc: Global, which: Part) -> Result<String, Memory>
    ensures { IfOk result (λ line. string_bytes line ≡ target_fault which) }
{
    let line = match which {
        Part::Log => TARGET_LOG_FAULT,
        Part::Segments => TARGET_SEGMENTS_FAULT,
    };
    Ok(String::from_str(alloc, line)?)
}

fn bad_target(alloc: Global, nth: u64, at: u64) -> Result<String, Memory>
    ensures { IfOk result (λ line. string_bytes line ≡ target_line nth at) }
{
    Ok(format!(in alloc; "factbase: bad target: record {nth} at byte {at}")?)
}

fn target_differs(alloc: Global, t: u32) -> Result<String, Memory>
    ensures { IfOk result (λ line. string_bytes line ≡ differs_line t) }
{
    Ok(format!(in alloc; "factbase: target differs at t {t}")?)
}

pub(crate) fn console_fault(alloc: Global) -> Result<String, Memory>
    ensures { IfOk result (λ line. string_bytes line ≡ console_fault) }
{
    Ok(String::from_str(alloc, CONSOLE_FAULT)?)
}

/// The line for the t that the log did not take.
pub(crate) fn log_stopped(alloc: Global, t: u32) -> Result<String, Memory>
    ensures { IfOk result (λ line. string_bytes line ≡ stopped_line t) }
{
    Ok(format!(in alloc; "factbase: log stopped at t {t}")?)
}

/// The line for trees that the file of segments did not take.
pub(crate) fn segment_fault(alloc: Global) -> Result<String, Memory>
    ensures { IfOk result (λ line. string_bytes line ≡ segment_fault) }
{
    Ok(String::from_str(alloc, SEGMENT_FAULT)?)
}

/// The exit status for how a session ended.
pub(crate) fn status_of_end(end: &SessionEnd) -> u8
    ensures { result ≡ status_of_end end.now }
{
    match end {
        SessionEnd::Done => 0,
        SessionEnd::Script(_) | SessionEnd::TooLong | SessionEnd::TooMany => 5,
        SessionEnd::ReadFault | SessionEnd::WriteFault => 6,
        SessionEnd::Memory => 9,
    }
}

/// The line for how the session of a script ended.
pub(crate) fn line_of_end(alloc: Global, name: &str, end: &SessionEnd) -> Result<String, Memory>
    ensures { IfOk result (λ line. string_bytes line ≡ line_of_end name.now end.now) }
{
    match end {
        SessionEnd::Done => Ok(String::new(alloc)),
        SessionEnd::Script(fault) => fault_line(alloc, name, *fault),
        SessionEnd::TooLong => about(alloc, name, "too long"),
        SessionEnd::TooMany => about(alloc, name, "too many commands"),
        SessionEnd::ReadFault => about(alloc, name, "read fault"),
        SessionEnd::WriteFault => about(alloc, name, "write fault"),
        SessionEnd::Memory => out_of_memory(alloc),
    }
}

/// A fault of a script.
fn about(alloc: Global, name: &str, what: &str) -> Result<String, Memory>
    ensures { IfOk result (λ line. string_bytes line ≡ script_line name.now what.now) }
{
    Ok(format!(in alloc; "factbase: script {name}: {what}")?)
}

/// What is at fault in a script, and at which byte.
fn fault_line(alloc: Global, name: &str, fault: EdnFault) -> Result<String, Memory>
    ensures { IfOk result (λ line. string_bytes line ≡ fault_line name.now (fault_of fault)) }
{
    match fault {
        EdnFault::Bad { at } => at_byte(alloc, name, "bad", at),
        EdnFault::Unsupported { at, .. } => at_byte(alloc, name, "unsupported", at),
        EdnFault::Deep { at } => at_byte(alloc, name, "deep", at),
        EdnFault::Cut { at } => at_byte(alloc, name, "cut", at),
        EdnFault::Memory => out_of_memory(alloc),
    }
}

fn at_byte(alloc: Global, name: &str, what: &str, at: usize) -> Result<String, Memory>
    ensures { IfOk result (λ line. string_bytes line
        ≡ script_line name.now (what.now ++ (codes " at byte " ++ decimal at))) }
{
    Ok(format!(in alloc; "factbase: script {name}: {what} at byte {at}")?)
}

pub(crate) fn out_of_memory(alloc: Global) -> Result<String, Memory>
    ensures { IfOk result (λ line. string_bytes line ≡ out_of_memory) }
{
    Ok(String::from_str(alloc, OUT_OF_MEMORY)?)
}
