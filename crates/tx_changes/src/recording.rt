//! The changes that a transaction records.
ghost use Rattle.std.specs.Prelude.{◌≡◌, ◌+◌, filter, map, IfOk};
ghost use Rattle.fb_model.specs.History.{basis};
ghost use Rattle.tx_model.specs.Transaction.{Transaction, with_names};
ghost use Rattle.tx_asks.specs.Triples.{AreTriples};
ghost use Rattle.tx_changes.specs.Recorded.{datom_of, is_change as model_is_change};

use fb_memory::Memory;
use fb_values::Datom;
use std::alloc::Global;
use tx_asks::Triple;

/// The changes of a transaction of this t: what is added and does not hold, and what is retracted in some way and holds.
/// There is room for the datom of the transaction's instant, which joins them in its entry.
pub fn changes(alloc: Global, triples: &[Triple], t: u32) -> Result<Vec<Datom>, Memory>
    ensures { IfOk result (λ changes. (tx : Transaction) → tx ≡ with_names tx.db tx.asks tx.names
        → AreTriples tx triples.now → t ≡ basis tx.db.history + 1 → changes.items ≡ tx.changes) }
{
    changes_of(alloc, triples, t)
}

fn changes_of(alloc: Global, triples: &[Triple], t: u32) -> Result<Vec<Datom>, Memory>
    ensures { IfOk result
        (λ changes. changes.items ≡ map (datom_of t) (filter model_is_change triples.now)) }
{
    let mut changes = Vec::with_capacity(alloc, triples.len() + 1)?;
    for triple in triples {
        if is_change(triple) {
            changes.push(change_of(triple, t)?)?;
        }
    }
    Ok(changes)
}

/// Whether recording the triple changes what holds.
fn is_change(triple: &Triple) -> bool
    ensures { result ≡ model_is_change triple.now }
{
    if triple.holds {
        triple.retracted.is_some() || triple.swept.is_some() || triple.replaced.is_some()
    } else {
        triple.added.is_some()
    }
}

fn change_of(triple: &Triple, t: u32) -> Result<Datom, Memory>
    ensures { IfOk result (λ d. d ≡ datom_of t triple.now) }
{
    Ok(Datom {
        e: triple.e,
        a: triple.a,
        v: triple.v.copy()?,
        t,
        added: !triple.holds,
    })
}
