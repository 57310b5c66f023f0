//! Making a call of the system again: at once where a signal interrupted it, and after a pause where the stream is one that does not block
//! and has nothing to give or no room.
use std::io::ErrorKind;
use std::time::Duration;
use std::{io, thread};

/// The first pause and the longest, in milliseconds. Each is twice as long as the one before.
const FIRST: u64 = 1;

const LONGEST: u64 = 32;

/// The calls that are made for one answer.
#[derive(Drop)]
pub(crate) struct Tries {
    rt: HostRuntime,
    pause: u64,
}

impl Tries {
    pub(crate) fn new(rt: HostRuntime) -> Tries {
        Tries { rt, pause: FIRST }
    }

    /// Answers once it is time to make a call again that failed with this error, or hands the error on where that is of no use.
    pub(crate) fn again(&mut self, error: io::Error) -> io::Result<()> {
        match error.kind() {
            ErrorKind::Interrupted => Ok(()),
            ErrorKind::WouldBlock => {
                self.wait();
                Ok(())
            }
            _ => Err(error),
        }
    }

    fn wait(&mut self) {
        thread::sleep(&self.rt, Duration::from_millis(self.pause));
        self.pause = self.pause.saturating_mul(2).min(LONGEST);
    }
}
