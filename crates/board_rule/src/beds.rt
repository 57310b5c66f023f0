//! Where seats sleep until their turn comes. A bed is not a word of the table, so no step concerns it, and no clause says who wakes.
use std::array;
use std::sync::Wait;
use std::sync::atomic::AtomicU64;
use std::sync::atomic::Ordering::SeqCst;

/// As many as tickets that are waited for at once where there are 16 sessions, and as many again.
const BEDS: usize = 32;

/// In a bed that nobody has taken since it was emptied.
const EMPTY: u64 = 0;

/// What stands in a bed that the ticket took last. It is never `EMPTY`, and no two tickets that are waited for at once have the same
/// number, since there are fewer seats than numbers.
fn number_of(ticket: u64) -> u32 {
    (ticket % u32::MAX as u64) as u32 + 1
}

/// A bed for each remainder of tickets. Who sleeps in one takes it first, and then looks once more at the ticket served; who serves
/// a ticket looks at its bed afterwards. So one sees the other. Where several tickets share a bed, it has the number of the last that
/// took it. Who finds another number there looks once more, and all that sleep there are woken at once.
#[derive(Drop)]
pub(crate) struct Beds {
    beds: [AtomicU64; BEDS],
}

impl Beds {
    pub(crate) fn new() -> Beds {
        Beds {
            beds: array::from_fn(|_| AtomicU64::new(EMPTY)),
        }
    }

    fn of(&self, ticket: u64) -> &AtomicU64 {
        &self.beds[(ticket % BEDS as u64) as usize]
    }

    pub(crate) fn take(&self, ticket: u64) {
        self.of(ticket).store(number_of(ticket) as u64, SeqCst);
    }

    /// Sleeps while the bed has the ticket's number. It may also return for no reason.
    pub(crate) fn sleep<R: Wait>(&self, rt: &R, ticket: u64) {
        self.of(ticket).park(rt, number_of(ticket));
    }

    /// Empties the ticket's bed, and wakes all that sleep in it.
    pub(crate) fn wake(&self, ticket: u64) {
        let bed = self.of(ticket);
        if bed.load(SeqCst) != EMPTY {
            bed.store(EMPTY, SeqCst);
            bed.wake_all();
        }
    }
}
