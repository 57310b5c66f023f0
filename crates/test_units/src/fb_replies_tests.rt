//! The lines of a log that fails: the program has no log yet.
use fb_memory::Memory;
use fb_replies::{LogFault, write_fault};
use std::alloc::Global;
use std::test::Fail;

fn line(alloc: Global, fault: LogFault) -> Result<Vec<u8>, Memory> {
    let mut line = Vec::new(alloc);
    write_fault(&mut line, fault, 2, 1)?;
    Ok(line)
}

const ROWS: &[(LogFault, &str)] = &[
    (LogFault::Failed, "{:fault :log :at 2 :basis 1}\n"),
    (LogFault::Stopped, "{:fault :log-stopped :at 2 :basis 1}\n"),
];

#[test]
fn a_log_that_fails_is_told_in_a_line(rt: HostRuntime) -> Result<(), Fail> {
    for (fault, want) in ROWS {
        let line = line(rt.alloc(), *fault)?;
        assert_eq!(rt; line.as_slice(), want.as_bytes());
    }
    Ok(())
}
