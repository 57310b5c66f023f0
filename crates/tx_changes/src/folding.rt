//! Askings in order become triples: neighbours that ask the same triple are one.
ghost use Rattle.std.specs.Prelude.{◌≡◌, ◌++◌, ◌∷◌, [], IfOk, OnOk, Some, if◌then◌else◌};
ghost use Rattle.std.specs.List.{All};
ghost use Rattle.std.specs.List.Sorted.{IsSorted};
ghost use Rattle.fb_model.specs.Facts.{least as model_least};
ghost use Rattle.fb_model.specs.History.{users_issued};
ghost use Rattle.tx_changes.specs.Asked.{asking_holds, KnowsValues};
ghost use Rattle.tx_changes.specs.Noted.{asked_too, asks_same, is_found as model_is_found, noted_cmp};
ghost use Rattle.tx_changes.specs.Noted.{triple_from, with_noted, AreJoined, IsFoundHeld};

use crate::learnt::{Learnt, holds};
use crate::noted::{AskedAs, Noted};
use fb_facts::Facts;
use fb_memory::Memory;
use std::alloc::Global;
use std::mem;
use tx_asks::{Asking, Triple};

/// The triples that are asked, each with the first form in each way.
pub fn folded<F: Facts>(
    alloc: Global,
    noted: Vec<Noted>,
    learnt: &Learnt,
    issued: u64,
    facts: &F,
) -> Result<Vec<Triple>, Memory>
    requires issued { issued ≡ users_issued (F.history facts.now) }
    requires known { KnowsValues (F.history facts.now) learnt.now }
    requires found { All (IsFoundHeld (F.history facts.now)) noted.items }
    requires sorted { IsSorted noted_cmp noted.items }
    ensures { IfOk result
        (λ triples. AreJoined (F.history facts.now) noted.items triples.items) }
{
    let mut triples = Vec::with_capacity(alloc, noted.len())?;
    let mut noted = noted.into_iter();
    let Some(first) = noted.next() else {
        return Ok(triples);
    };
    let mut last = triple_of(first, learnt, issued, facts);
    for one in noted {
        take(&mut triples, &mut last, one, learnt, issued, facts)?;
    }
    triples.push(last)?;
    Ok(triples)
}

/// Takes one asking more, which is of the last triple or of one behind it.
fn take<F: Facts>(
    triples: &mut Vec<Triple>,
    last: &mut Triple,
    one: Noted,
    learnt: &Learnt,
    issued: u64,
    facts: &F,
) -> Result<(), Memory>
    requires issued { issued ≡ users_issued (F.history facts.now) }
    requires known { KnowsValues (F.history facts.now) learnt.now }
    requires found { IsFoundHeld (F.history facts.now) one }
    ensures triples { OnOk result (triples.new.items ≡ (if asks_same last.old one
        then triples.old.items else triples.old.items ++ last.old ∷ [])) }
    ensures last { OnOk result (last.new ≡ (if asks_same last.old one
        then with_noted last.old one else triple_from (F.history facts.now) one)) }
{
    if is_same(last, &one) {
        note(last, one.way, one.asking.place);
        return Ok(());
    }
    let next = triple_of(one, learnt, issued, facts);
    triples.push(mem::replace(last, next))?;
    Ok(())
}

/// Whether the asking is of the triple.
fn is_same(triple: &Triple, noted: &Noted) -> bool
    ensures { result ≡ asks_same triple.now noted.now }
{
    let asking = &noted.asking;
    triple.e == asking.e && triple.a == asking.a && triple.v == asking.v
}

/// The triple with this asking alone.
fn triple_of<F: Facts>(noted: Noted, learnt: &Learnt, issued: u64, facts: &F) -> Triple
    requires issued { issued ≡ users_issued (F.history facts.now) }
    requires known { KnowsValues (F.history facts.now) learnt.now }
    requires found { IsFoundHeld (F.history facts.now) noted }
    ensures { result ≡ triple_from (F.history facts.now) noted }
{
    let holds = is_held(&noted, learnt, issued, facts);
    let Noted { asking, way } = noted;
    let Asking { e, a, v, place } = asking;
    let mut triple = Triple {
        e,
        a,
        v,
        added: None,
        retracted: None,
        swept: None,
        replaced: None,
        holds,
    };
    note(&mut triple, way, place);
    triple
}

/// Whether the triple holds, with no question where it was found in the database.
fn is_held<F: Facts>(noted: &Noted, learnt: &Learnt, issued: u64, facts: &F) -> bool
    requires issued { issued ≡ users_issued (F.history facts.now) }
    requires known { KnowsValues (F.history facts.now) learnt.now }
    requires found { IsFoundHeld (F.history facts.now) noted.now }
    ensures { result ≡ asking_holds (F.history facts.now) noted.now.asking }
{
    if is_found(noted.way) {
        return true;
    }
    holds(learnt, facts, issued, &noted.asking)
}

/// Whether what is asked in this way was found in the database.
fn is_found(way: AskedAs) -> bool
    ensures { result ≡ model_is_found way }
{
    matches!(way, AskedAs::Swept | AskedAs::Replaced)
}

/// The form at the place asks the triple too.
fn note(triple: &mut Triple, way: AskedAs, place: usize)
    ensures { triple.new ≡ asked_too way place triple.old }
{
    match way {
        AskedAs::Added => triple.added = Some(least(place, triple.added)),
        AskedAs::Retracted => triple.retracted = Some(least(place, triple.retracted)),
        AskedAs::Swept => triple.swept = Some(least(place, triple.swept)),
        AskedAs::Replaced => triple.replaced = Some(least(place, triple.replaced)),
    }
}

fn least(place: usize, other: Option<usize>) -> usize
    ensures { Some result ≡ model_least place other }
{
    match other {
        Some(other) => place.min(other),
        None => place,
    }
}
