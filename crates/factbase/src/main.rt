//! Factbase: a database of immutable facts.
#![tactic(auto)]

use fb_memory::Memory;
use fb_run::run;
use merge_worker::OpenGate;
use real_ports::{RealHost, SystemClock};
use std::env;
use std::io::ErrorKind;
use std::process::ExitCode;

/// The status where memory was refused before there was anything to say.
const OUT_OF_MEMORY: u8 = 9;

fn main(rt: HostRuntime) -> ExitCode {
    let (Ok(words), Ok(preds), Ok(checks)) = (
        words_of(&rt),
        fb_preds::shipped(rt.alloc()),
        fb_checks::shipped(rt.alloc()),
    ) else {
        return ExitCode::from(OUT_OF_MEMORY);
    };
    let mut host = RealHost::new(rt);
    let clock = SystemClock::new(rt);
    let outcome = run(
        &rt,
        rt.alloc(),
        &words,
        &mut host,
        &clock,
        &preds,
        &checks,
        &OpenGate,
    );
    if !outcome.line.is_empty() {
        // Where standard error takes nothing, the status says it alone.
        let _ = rt.eprintln(outcome.line.as_str());
    }
    ExitCode::from(outcome.status)
}

/// The words after the program's name. Arguments that are not UTF-8 count as an empty command line.
fn words_of(rt: &HostRuntime) -> Result<Vec<String>, Memory> {
    match env::args(rt) {
        Ok(args) => Ok(args.skip(1).collect(rt.alloc())?),
        Err(e) if e.kind() == ErrorKind::OutOfMemory => Err(Memory),
        Err(_) => Ok(Vec::new(rt.alloc())),
    }
}
