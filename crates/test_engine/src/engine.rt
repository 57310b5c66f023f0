//! The engine over a snapshot.
ghost use Rattle.fb_model.specs.Lawful.{IsLawfulAfter};

use crate::CLOCK;
use crate::guard::NoEmptyText;
use anyhow::{Result, bail};
use edn_form::Edn;
use fb_values::{Datom, Entry};
use fb_view::Snapshot;
use std::alloc::Global;
use tx_forms::TxStop;
use tx_model::an_accepted_entry_is_lawful;
use tx_refusals::Refusal;
use tx_step::{Accepted, decide};

/// What the engine replies. The snapshot gains the entry, where there is one.
pub(crate) fn transact(
    alloc: Global,
    snapshot: &mut Snapshot,
    data: &Edn,
    guard: &NoEmptyText,
) -> Result<Edn> {
    an_accepted_entry_is_lawful();
    match decide(alloc, data, snapshot, snapshot.schema(), CLOCK, guard) {
        Ok(accepted) => record(alloc, snapshot, accepted),
        Err(TxStop::Refused(refusal)) => refused(alloc, refusal, snapshot.basis()),
        Err(TxStop::Memory) => bail!("out of memory"),
    }
}

/// The reply to an accepted transaction, whose entry the snapshot gains.
fn record(alloc: Global, snapshot: &mut Snapshot, accepted: Accepted) -> Result<Edn>
    requires { IsLawfulAfter snapshot.old.entries accepted.entry }
{
    let t = accepted.entry.t;
    *snapshot = snapshot.with_entry(accepted.entry)?;
    Ok(plain_session::receipt(alloc, t, accepted.tempids)?)
}

fn refused(alloc: Global, refusal: Refusal, basis: u32) -> Result<Edn> {
    let keyword = refusal.reason.keyword();
    Ok(plain_session::refusal(alloc, keyword, refusal.at, basis)?)
}

/// Whether the snapshot's last entry is that of the list.
pub(crate) fn is_same(snapshot: &Snapshot, entries: &[Entry]) -> bool {
    let Some(last) = entries.last() else {
        return false;
    };
    let kept = snapshot.entries();
    if kept.len() == 0 {
        return false;
    }
    let own = kept.at(kept.len() - 1);
    own.t == last.t
        && own.instant == last.instant
        && are_same(own.datoms.as_slice(), last.datoms.as_slice())
}

fn are_same(own: &[Datom], other: &[Datom]) -> bool {
    if own.len() != other.len() {
        return false;
    }
    for (x, y) in own.iter().zip(other) {
        if x.e != y.e || x.a != y.a || x.v != y.v || x.t != y.t || x.added != y.added {
            return false;
        }
    }
    true
}
