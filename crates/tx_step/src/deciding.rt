//! Deciding a transaction.
ghost use Rattle.std.specs.Prelude.{◌≡◌, ◌<ℤ◌, IfOk, IfErr, IsTrue, None};
ghost use Rattle.edn_form.specs.View.{form_of};
ghost use Rattle.fb_values.specs.declared.indexes.Order.TheVariants.{Eavt};
ghost use Rattle.fb_values.specs.Rising.{rises};
ghost use Rattle.fb_numbers.specs.Numbers.{greatest_instant};
ghost use Rattle.fb_model.specs.History as history;
ghost use Rattle.fb_model.specs.Lawful.{IsLawful};
ghost use Rattle.fb_schema.specs.Described.{SchemaStands};
ghost use Rattle.tx_model.specs.Step as model;
ghost use Rattle.tx_model.specs.Tempids.{db_of, named_tempids};
ghost use Rattle.tx_model.specs.Transaction as transactions;
ghost use Rattle.tx_refusals.specs.declared.reasons.Reason.TheVariants.{Barred};
ghost use Rattle.tx_forms.specs.declared.read.TxStop.TheVariants.{Refused};
ghost use Rattle.tx_after.specs.After.{AreChanges};
ghost use Rattle.tx_resolve.specs.Rules.{StopsBy};
ghost use Rattle.tx_rules.specs.Cas.{acts_of};
ghost use Rattle.tx_rules.specs.Rules.{change_rules};
ghost use Rattle.tx_step.specs.Outcomes.{Matches, IsSomeTransaction, OfTransactions, judged_step};

use crate::guard::Guard;
use edn_form::Edn;
use fb_facts::Facts;
use fb_memory::Memory;
use fb_schema::Schema;
use fb_text::Text;
use fb_values::{Datom, Entry};
use std::alloc::Global;
use tx_asks::{Act, Resolved};
use tx_expand::expand;
use tx_forms::{TxStop, read_forms};
use tx_model::lawful_histories_are_small;
use tx_refusals::{Bar, Reason, Refusal};
use tx_resolve::resolve;
use tx_rules::{changes_are_of_one_entry, entry, least_refusal, next_instant};

/// What an accepted transaction records.
#[derive(Drop)]
pub struct Accepted {
    pub entry: Entry,
    /// The entities of the tempids that have a name, by the bytes of the names.
    pub tempids: Vec<(Text, u64)>,
}

/// What the transaction does at the history, where the clock reads this: the entry that is to be recorded, or why it is
/// refused. Nothing is changed, and no number is used up.
pub fn decide<F: Facts, G: Guard<F>>(
    alloc: Global,
    asked: &Edn,
    facts: &F,
    schema: &Schema,
    reading: i64,
    guard: &G,
) -> Result<Accepted, TxStop>
    requires stands { SchemaStands schema.now (F.history facts.now) }
    requires lawful { IsLawful (F.history facts.now) }
    ensures accepted { IfOk result (λ done. model.step (F.history facts.now) (form_of asked.now)
        reading (G.bars guard.now)
        ≡ model.accepted done.entry done.tempids.items) }
    ensures refused { IfErr result (λ stop. Matches stop
        (model.step (F.history facts.now) (form_of asked.now) reading (G.bars guard.now))) }
{
    let forms = read_forms(alloc, asked)?;
    let flat = expand(alloc, forms, schema)?;
    let Resolved {
        forms: acts,
        tempids,
    } = resolve(alloc, flat, facts, schema)?;
    judged(alloc, &acts, tempids, facts, schema, reading, guard)
}

/// What acts come to that break no rule on names.
fn judged<F: Facts, G: Guard<F>>(
    alloc: Global,
    forms: &[Vec<Act<'_>>],
    tempids: Vec<(Text, u64)>,
    facts: &F,
    schema: &Schema,
    reading: i64,
    guard: &G,
) -> Result<Accepted, TxStop>
    requires stands { SchemaStands schema.now (F.history facts.now) }
    requires lawful { IsLawful (F.history facts.now) }
    requires acts { IsSomeTransaction (F.history facts.now) (acts_of forms.now) }
    ensures accepted { IfOk result (λ done. OfTransactions (F.history facts.now) (acts_of forms.now)
        (λ tx. tempids.items ≡ named_tempids tx.names
        → judged_step (F.history facts.now) tx reading (G.bars guard.now)
        ≡ model.accepted done.entry done.tempids.items)) }
    ensures refused { IfErr result (λ stop. OfTransactions (F.history facts.now) (acts_of forms.now)
        (λ tx. tempids.items ≡ named_tempids tx.names
        → Matches stop (judged_step (F.history facts.now) tx reading (G.bars guard.now)))) }
{
    let changes = judged_changes(alloc, forms, facts, schema)?;
    recorded(changes, tempids, facts, reading, guard)
}

/// The changes of acts that break no rule.
fn judged_changes<F: Facts>(
    alloc: Global,
    forms: &[Vec<Act<'_>>],
    facts: &F,
    schema: &Schema,
) -> Result<Vec<Datom>, TxStop>
    requires stands { SchemaStands schema.now (F.history facts.now) }
    requires lawful { IsLawful (F.history facts.now) }
    requires acts { IsSomeTransaction (F.history facts.now) (acts_of forms.now) }
    ensures changes { IfOk result (λ changes. OfTransactions (F.history facts.now)
        (acts_of forms.now) (λ tx. changes.items ≡ tx.changes)) }
    ensures unbroken { IfOk result (λ _. OfTransactions (F.history facts.now) (acts_of forms.now)
        (λ tx. model.first_refusal (change_rules tx) ≡ None)) }
    ensures refused { IfErr result (λ stop. OfTransactions (F.history facts.now) (acts_of forms.now)
        (λ tx. StopsBy (model.first_refusal (change_rules tx)) stop)) }
    ensures changes_are { IfOk result (λ changes. AreChanges changes.items) }
    ensures room { IfOk result
        (λ _. history.last_instant (F.history facts.now) <ℤ greatest_instant) }
{
    changes_are_of_one_entry();
    lawful_histories_are_small();
    let triples = tx_changes::triples(alloc, forms, facts, schema)?;
    let changes = tx_changes::changes(alloc, &triples, facts.basis() + 1)?;
    match least_refusal(alloc, forms, &triples, changes.as_slice(), facts, schema)? {
        Some(refusal) => Err(TxStop::Refused(refusal)),
        None => Ok(changes),
    }
}

/// What the changes are recorded as, unless the guard bars them.
fn recorded<F: Facts, G: Guard<F>>(
    changes: Vec<Datom>,
    tempids: Vec<(Text, u64)>,
    facts: &F,
    reading: i64,
    guard: &G,
) -> Result<Accepted, TxStop>
    requires lawful { IsLawful (F.history facts.now) }
    requires changes { AreChanges changes.items }
    requires room { history.last_instant (F.history facts.now) <ℤ greatest_instant }
    ensures accepted { IfOk result (λ done. (tx : transactions.Transaction)
        → tx.db ≡ db_of (F.history facts.now) → changes.items ≡ tx.changes
        → tempids.items ≡ named_tempids tx.names
        → model.under_guard (F.history facts.now) tx reading
        (G.bars guard.now (F.history facts.now) tx.changes)
        ≡ model.accepted done.entry done.tempids.items) }
    ensures refused { IfErr result (λ stop. (tx : transactions.Transaction)
        → tx.db ≡ db_of (F.history facts.now) → changes.items ≡ tx.changes
        → tempids.items ≡ named_tempids tx.names
        → Matches stop (model.under_guard (F.history facts.now) tx reading
        (G.bars guard.now (F.history facts.now) tx.changes))) }
{
    match guard.judge(facts, changes.as_slice())? {
        Some(bar) => Err(barred(bar)),
        None => Ok(with_entry(changes, tempids, facts, reading)?),
    }
}

fn with_entry<F: Facts>(
    changes: Vec<Datom>,
    tempids: Vec<(Text, u64)>,
    facts: &F,
    reading: i64,
) -> Result<Accepted, Memory>
    requires lawful { IsLawful (F.history facts.now) }
    requires rising { IsTrue (rises Eavt changes.items) }
    requires room { history.last_instant (F.history facts.now) <ℤ greatest_instant }
    ensures { IfOk result (λ done. (tx : transactions.Transaction)
        → tx.db ≡ db_of (F.history facts.now) → changes.items ≡ tx.changes
        → tempids.items ≡ named_tempids tx.names
        → model.accepted done.entry done.tempids.items
        ≡ model.under_guard (F.history facts.now) tx reading None) }
{
    lawful_histories_are_small();
    let instant = next_instant(facts, reading);
    let entry = entry(changes, facts.basis() + 1, instant)?;
    Ok(Accepted { entry, tempids })
}

/// A guard judges a transaction as a whole, and so its answer is reported at the first form.
fn barred(bar: Bar) -> TxStop
    ensures { result ≡ Refused (record { reason = Barred bar; at = 0 }) }
{
    TxStop::Refused(Refusal {
        reason: Reason::Barred(bar),
        at: 0,
    })
}
