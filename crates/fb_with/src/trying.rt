//! One transaction.
ghost use Rattle.std.specs.Prelude.{◌≡◌, [], ◌∷◌, ◌++◌, length, true, IfOk, IfErr};
ghost use Rattle.edn_form.specs.View.{form_of};
ghost use Rattle.fb_model.specs.Lawful.{IsLawfulAfter};
ghost use Rattle.with_model.specs.Chain.{is_unfiltered};
ghost use Rattle.tx_model.specs.Step as model;
ghost use Rattle.fb_view.specs.SnapshotModel.{Stands};
ghost use Rattle.fb_db.specs.Seen.{window_of};
ghost use Rattle.fb_with.specs.Outcomes.{IsWithFault};

use crate::steps::decided;
use edn_form::Edn;
use fb_db::Db;
use fb_memory::Memory;
use fb_numbers::GREATEST_T;
use fb_preds::{FilterTable, Picks};
use fb_text::Text;
use fb_values::Entry;
use fb_view::Snapshot;
use std::alloc::Global;
use tx_refusals::Refusal;
use tx_step::{Accepted, Guard, TxStop};

/// What a transaction would record, and the database with it.
#[derive(Drop)]
pub struct WithReport {
    pub entry: Entry,
    /// The entities of the tempids that have a name, by the bytes of the names.
    pub tempids: Vec<(Text, u64)>,
    pub after: Snapshot,
}

/// Why a transaction has no report.
#[derive(Drop)]
pub enum WithFault {
    /// The value is not the whole database.
    Filtered,
    Refused(Refusal),
    Memory,
}

impl From<Memory> for WithFault {
    ghost use Rattle.std.specs.Prelude.{◌≡◌};
    ghost use Rattle.fb_with.specs.declared.trying.WithFault.TheVariants.{Memory};

    ghost from_gives = { λ _ fault. fault ≡ Memory };

    fn from(_: Memory) -> WithFault {
        WithFault::Memory
    }
}

impl From<TxStop> for WithFault {
    ghost use Rattle.std.specs.Prelude.{◌≡◌};
    ghost use Rattle.fb_with.specs.Outcomes.{fault_of};

    ghost from_gives = { λ stop fault. fault ≡ fault_of stop };

    fn from(stop: TxStop) -> WithFault {
        match stop {
            TxStop::Refused(refusal) => WithFault::Refused(refusal),
            TxStop::Memory => WithFault::Memory,
        }
    }
}

/// Whether reads see the whole database: under the window with which it is handed out, and through no filter.
pub fn is_whole<T: FilterTable>(db: &Db<Picks<'_, T>>) -> bool
    ensures { result ≡ is_unfiltered (window_of db.now) (length db.now.filter.places.items) }
{
    db.from == 0 && db.to == GREATEST_T + 1 && !db.history && db.filter.places.is_empty()
}

/// What the transaction would do to the database, where the clock reads this. The database stays as it is.
pub fn with<T: FilterTable, G: Guard<Snapshot>>(
    alloc: Global,
    db: &Db<Picks<'_, T>>,
    asked: &Edn,
    now: i64,
    guard: &G,
) -> Result<WithReport, WithFault>
    ensures accepted { IfOk result (λ report. model.step db.now.snapshot.entries
        (form_of asked.now) now (G.bars guard.now)
        ≡ model.accepted report.entry report.tempids.items) }
    ensures after { IfOk result
        (λ report. report.after.entries ≡ db.now.snapshot.entries ++ report.entry ∷ []) }
    ensures stands { IfOk result (λ report. Stands report.after) }
    ensures whole { IfOk result (λ _. is_unfiltered (window_of db.now)
        (length db.now.filter.places.items)
        ≡ true) }
    ensures fault { IfErr result (IsWithFault
        (is_unfiltered (window_of db.now) (length db.now.filter.places.items))
        (model.step db.now.snapshot.entries (form_of asked.now) now (G.bars guard.now))) }
{
    if !is_whole(db) {
        return Err(WithFault::Filtered);
    }
    let done = decided(alloc, &db.snapshot, asked, now, guard)?;
    Ok(reported(&db.snapshot, done)?)
}

/// The report of what a transaction would record.
fn reported(snapshot: &Snapshot, done: Accepted) -> Result<WithReport, Memory>
    requires { IsLawfulAfter snapshot.now.entries done.entry }
    ensures entry { IfOk result (λ report. report.entry ≡ done.entry) }
    ensures tempids { IfOk result (λ report. report.tempids ≡ done.tempids) }
    ensures after { IfOk result
        (λ report. report.after.entries ≡ snapshot.now.entries ++ done.entry ∷ []) }
    ensures stands { IfOk result (λ report. Stands report.after) }
{
    let entry = done.entry.copy()?;
    let after = snapshot.with_entry(done.entry)?;
    Ok(WithReport {
        entry,
        tempids: done.tempids,
        after,
    })
}
