//! The bell by which sessions ask the worker for a merge. Its use is no step of the board.
use std::sync::atomic::Ordering::SeqCst;
use std::sync::atomic::{AtomicBool, AtomicU64};
use std::sync::{Condvar, Mutex, Wait};

/// Why the worker woke.
#[derive(Clone, Copy)]
pub enum Bell {
    /// A merge is asked for.
    Rung,
    /// No session is left.
    Shut,
}

/// It is rung once until it is heard, and shut for good.
#[derive(Drop)]
pub(crate) struct Doorbell {
    /// Rung and not yet heard. It changes under the lock alone, so that no ring falls between the worker's look and its sleep.
    rung: AtomicBool,
    shut: Mutex<bool>,
    changed: Condvar,
    /// From so many live datoms on the worker wants to hear it.
    from: AtomicU64,
}

impl Doorbell {
    pub(crate) fn new() -> Doorbell {
        Doorbell {
            rung: AtomicBool::new(false),
            shut: Mutex::new(false),
            changed: Condvar::new(),
            from: AtomicU64::new(0),
        }
    }

    /// A bell that has been rung is left alone: whoever hears it begins after this look, and so finds what it is rung for.
    pub(crate) fn ring<R: Wait>(&self, rt: &R) {
        if self.rung.load(SeqCst) {
            return;
        }
        let shut = self.shut.lock(rt);
        self.rung.store(true, SeqCst);
        drop(shut);
        self.changed.notify_one();
    }

    /// Whether it is to be rung where so many datoms are live. Whoever looks while the worker changes its mind may ring in vain, or leave
    /// it to the next one.
    pub(crate) fn is_wanted(&self, live: u64) -> bool {
        live >= self.from.load(SeqCst)
    }

    pub(crate) fn ring_from(&self, live: u64) {
        self.from.store(live, SeqCst);
    }

    pub(crate) fn shut<R: Wait>(&self, rt: &R) {
        let mut shut = self.shut.lock(rt);
        *shut = true;
        drop(shut);
        self.changed.notify_one();
    }

    /// Sleeps until it is rung or shut.
    pub(crate) fn wait<R: Wait>(&self, rt: &R) -> Bell {
        let mut shut = self.shut.lock(rt);
        for _ in rt.forever() {
            if *shut {
                return Bell::Shut;
            }
            if self.rung.swap(false, SeqCst) {
                return Bell::Rung;
            }
            shut = self.changed.wait(rt, shut);
        }
        unreachable!()
    }
}
