//! Which calls of an object in memory fail: those that its maker numbered.
ghost use Rattle.std.specs.Prelude.{◌≡◌, is_err, OnErr, OnOk};
ghost use Rattle.mem_ports.specs.Calls.{no_calls, fails_next, after_call, after_fault};
ghost use Rattle.io_faults.specs.Faults.{Rose, raised};

use io_faults::{Failed, raise};
use std::marker::Model;

/// Counts the calls of an object in memory and their faults, and says which calls fail.
#[derive(Drop)]
pub struct CallPlan {
    fails: Vec<u64>,
    made: u64,
    faults: u64,
}

impl Model for CallPlan {
    ghost use Rattle.mem_ports.specs.Calls.{Calls};

    ghost Value = { Calls };

    ghost view = { λ p. record { fails = p.fails.items; made = p.made; faults = p.faults } };
}

impl CallPlan {
    /// The calls that are numbered in `fails`, from 1, fail.
    pub fn new(fails: Vec<u64>) -> CallPlan
        ensures { result ≡ no_calls fails.items }
    {
        CallPlan {
            fails,
            made: 0,
            faults: 0,
        }
    }

    pub fn faults(&self) -> u64
        ensures { result ≡ self.now.faults }
    {
        self.faults
    }

    /// Counts a call, which fails at once if its number is listed.
    pub fn begin(&mut self) -> Result<(), Failed>
        ensures fails { is_err result ≡ fails_next self.old }
        ensures ok { OnOk result (self.new ≡ after_call self.old) }
        ensures fault { OnErr result (self.new ≡ after_fault self.old) }
        ensures rose { OnErr result (Rose self.old.faults self.new.faults) }
    {
        self.made = self.made.saturating_add(1);
        if self.fails.contains(&self.made) {
            return Err(self.fault());
        }
        Ok(())
    }

    /// Counts that the call which began has failed.
    pub fn fault(&mut self) -> Failed
        ensures count { self.new ≡ record self.old { faults = raised self.old.faults } }
        ensures rose { Rose self.old.faults self.new.faults }
    {
        raise(&mut self.faults);
        Failed
    }
}
