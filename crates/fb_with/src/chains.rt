//! Transactions one after another.
ghost use Rattle.std.specs.Prelude.{◌≡◌, [], ◌∷◌, ◌++◌, List, map, IfOk, IfErr};
ghost use Rattle.edn_model.specs.Form.{Form};
ghost use Rattle.edn_form.specs.View.{form_of, forms_of};
ghost use Rattle.fb_model.specs.Lawful.{IsLawfulAfter};
ghost use Rattle.with_model.specs.Chain as model;
ghost use Rattle.fb_with.specs.Outcomes.{report_of, IsChainStop};

use crate::steps::decided;
use edn_form::Edn;
use fb_memory::Memory;
use fb_numbers::LEAST_INSTANT;
use fb_text::Text;
use fb_view::Snapshot;
use std::alloc::Global;
use tx_refusals::Refusal;
use tx_step::{Accepted, Guard, TxStop};

/// The report of one of the transactions.
#[derive(Drop)]
pub struct Tried {
    pub t: u32,
    /// The entities of the tempids that have a name, by the bytes of the names.
    pub tempids: Vec<(Text, u64)>,
}

/// The reports of all, and the database with what they would record.
#[derive(Drop)]
pub struct Chained {
    pub reports: Vec<Tried>,
    pub after: Snapshot,
}

/// Why a chain has no end.
#[derive(Drop)]
pub enum ChainStop {
    /// The first transaction that is refused, and the basis at which it was judged.
    Refused { refusal: Refusal, at: u32 },
    Memory,
}

impl From<Memory> for ChainStop {
    ghost use Rattle.std.specs.Prelude.{◌≡◌};
    ghost use Rattle.fb_with.specs.declared.chains.ChainStop.TheVariants.{Memory};

    ghost from_gives = { λ _ stop. stop ≡ Memory };

    fn from(_: Memory) -> ChainStop {
        ChainStop::Memory
    }
}

/// What the transactions would do to the database, one after another, each at the least instant that a clock may read: so its own
/// is the last one and a millisecond. The database stays as it is.
pub fn chain<G: Guard<Snapshot>>(
    alloc: Global,
    snapshot: &Snapshot,
    datas: &[Edn],
    guard: &G,
) -> Result<Chained, ChainStop>
    ensures reached { IfOk result (λ done. model.chain (G.bars guard.now) snapshot.now.entries
        (forms_of datas.now)
        ≡ model.reaches done.after.entries (map report_of done.reports.items)) }
    ensures stop { IfErr result (IsChainStop
        (model.chain (G.bars guard.now) snapshot.now.entries (forms_of datas.now))) }
{
    let mut after = snapshot.share()?;
    let mut reports = Vec::new(alloc);
    for asked in datas {
        after = grown(alloc, &after, asked, guard, &mut reports)?;
    }
    Ok(Chained { reports, after })
}

/// The database with what one transaction more would record, whose report goes behind the others.
fn grown<G: Guard<Snapshot>>(
    alloc: Global,
    snapshot: &Snapshot,
    asked: &Edn,
    guard: &G,
    reports: &mut Vec<Tried>,
) -> Result<Snapshot, ChainStop>
    ensures reached { IfOk result (λ after. model.continued (G.bars guard.now)
        (model.reaches snapshot.now.entries (map report_of reports.old.items))
        (form_of asked.now ∷ [])
        ≡ model.reaches after.entries (map report_of reports.new.items)) }
    ensures stop { IfErr result (λ stop. (more : List Form) → IsChainStop
        (model.chain (G.bars guard.now) snapshot.now.entries (form_of asked.now ∷ more)) stop) }
{
    match decided(alloc, snapshot, asked, LEAST_INSTANT, guard) {
        Ok(done) => Ok(recorded(snapshot, done, reports)?),
        Err(TxStop::Refused(refusal)) => Err(ChainStop::Refused {
            refusal,
            at: snapshot.basis(),
        }),
        Err(TxStop::Memory) => Err(ChainStop::Memory),
    }
}

/// The database with the entry, whose report goes behind the others.
fn recorded(
    snapshot: &Snapshot,
    done: Accepted,
    reports: &mut Vec<Tried>,
) -> Result<Snapshot, Memory>
    requires { IsLawfulAfter snapshot.now.entries done.entry }
    ensures after { IfOk result
        (λ after. after.entries ≡ snapshot.now.entries ++ done.entry ∷ []) }
    ensures report { IfOk result (λ _. map report_of reports.new.items
        ≡ map report_of reports.old.items
        ++ record { t = done.entry.t; tempids = done.tempids.items } ∷ []) }
{
    let t = done.entry.t;
    let after = snapshot.with_entry(done.entry)?;
    reports.push(Tried {
        t,
        tempids: done.tempids,
    })?;
    Ok(after)
}
