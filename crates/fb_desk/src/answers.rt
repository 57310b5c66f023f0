//! What a desk answers. Each answer has the value of the database on which it rests.
ghost use Rattle.std.specs.Prelude.{◌≡◌};

use fb_memory::Memory;
use fb_text::Text;
use fb_view::Snapshot;
use tx_refusals::Refusal;

/// A transaction was accepted.
#[derive(Drop)]
pub struct Receipt {
    /// The t of its entry.
    pub t: u32,
    /// In milliseconds since 1970 began.
    pub instant: i64,
    /// The entities of the tempids that have a name, by the bytes of the names.
    pub tempids: Vec<(Text, u64)>,
    /// The database with the entry.
    pub snapshot: Snapshot,
}

/// Why a transaction was not accepted.
#[derive(Drop)]
pub enum TxFault {
    /// It breaks a rule at this value of the database.
    Refused {
        refusal: Refusal,
        snapshot: Snapshot,
    },
    /// It breaks none, and the log did not take its entry, which was to have this t. No transaction is accepted from now on.
    LogFault {
        at: u32,
        snapshot: Snapshot,
    },
    /// The log did not take an earlier entry, which was to have this t.
    Stopped {
        at: u32,
        snapshot: Snapshot,
    },
    /// Out of memory. Nothing was accepted.
    Memory,
}

impl From<Memory> for TxFault {
    ghost use Rattle.fb_desk.specs.declared.answers.TxFault.TheVariants.{Memory};

    ghost from_gives = { λ _ fault. fault ≡ Memory };

    fn from(_: Memory) -> TxFault {
        TxFault::Memory
    }
}

/// What there was to see without waiting.
#[derive(Drop)]
pub enum Glance {
    /// At least what was mailed last, and what had been seen.
    Fresh(Snapshot),
    /// What had been seen, since the mail was being changed just then.
    Held(Snapshot),
}
