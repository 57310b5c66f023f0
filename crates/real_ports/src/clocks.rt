//! The clock of the system.
ghost use Rattle.std.specs.Prelude.{⊤};

use fb_ports::Clock;
use std::time;

/// The system's clock. It reads 0 where the system's cannot be read.
#[derive(Drop)]
pub struct SystemClock {
    rt: HostRuntime,
}

impl SystemClock {
    pub fn new(rt: HostRuntime) -> SystemClock {
        SystemClock { rt }
    }
}

impl Clock for SystemClock {
    ghost may_answer = { λ _ _. ⊤ };

    fn now(&self) -> i64 {
        match time::Clock::since_1970(&self.rt) {
            Ok(time) => i64::try_from(time.as_millis()).unwrap_or(0),
            Err(_) => 0,
        }
    }
}
