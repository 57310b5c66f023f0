//! Clocks for tests.
ghost use Rattle.std.specs.Prelude.{◌≡◌};
ghost use Rattle.mem_ports.specs.Clocks.{reading_at};

use fb_ports::Clock;
use std::marker::Model;
use std::sync::atomic::{AtomicU64, Ordering};

/// A clock that always reads the same.
#[derive(Clone, Copy, Debug, PartialEq, Eq)]
pub struct FixedClock {
    pub at: i64,
}

impl FixedClock {
    pub fn new(at: i64) -> FixedClock
        ensures { result.at ≡ at }
    {
        FixedClock { at }
    }
}

impl Clock for FixedClock {
    ghost may_answer = { λ clock reading. reading ≡ clock.at };

    fn now(&self) -> i64 {
        self.at
    }
}

/// A clock that goes on by one step with each reading, whichever thread reads it, and stays at the ends of `i64`.
#[derive(Drop)]
pub struct StepClock {
    first: i64,
    step: i64,
    calls: AtomicU64,
}

impl Model for StepClock {
    ghost use Rattle.mem_ports.specs.Clocks.{Steps};

    ghost Value = { Steps };

    ghost view = { λ clock. record { first = clock.first; step = clock.step } };
}

impl StepClock {
    /// The first reading is `first`, the second `first + step`, and so on.
    pub fn new(first: i64, step: i64) -> StepClock
        ensures { result ≡ record { first = first; step = step } }
    {
        StepClock {
            first,
            step,
            calls: AtomicU64::new(0),
        }
    }

    /// What the call with this number, from 0, reads.
    fn reading_at(&self, call: u64) -> i64
        ensures { result ≡ reading_at self.now call }
    {
        let way = call as i128 * self.step as i128;
        let reading = (self.first as i128).saturating_add(way);
        reading.clamp(i64::MIN as i128, i64::MAX as i128) as i64
    }
}

impl Clock for StepClock {
    ghost use Rattle.mem_ports.specs.Clocks.{IsReading};

    ghost may_answer = { IsReading };

    fn now(&self) -> i64 {
        self.reading_at(self.calls.fetch_add(1, Ordering::SeqCst))
    }
}
