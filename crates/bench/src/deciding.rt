//! Deciding: `bench deciding FILE ROUNDS` reads transactions from FILE, records all but the last one, decides the last one ROUNDS times, and
//! prints what it comes to.

use crate::common::number;
use anyhow::{Result, bail};
use edn_core::read_form;
use edn_form::Edn;
use fb_view::Snapshot;
use std::alloc::Global;
use std::{fmt, fs};
use tx_model::an_accepted_entry_is_lawful;
use tx_refusals::Refusal;
use tx_step::{NoGuard, TxStop, decide};

/// The first of January 2024.
const CLOCK: i64 = 1_704_067_200_000;

pub(crate) fn perform(rt: &HostRuntime, words: &[String]) -> Result<bool> {
    let [file, rounds] = words else {
        return Ok(false);
    };
    let Some(rounds) = number(rounds.as_str()) else {
        return Ok(false);
    };
    let outcome = outcome_of(rt, file.as_str(), rounds)?;
    println!(rt; "{outcome}")?;
    Ok(true)
}

fn outcome_of(rt: &HostRuntime, file: &str, rounds: u32) -> Result<Outcome> {
    let bytes = fs::read(rt, file)?;
    let forms = forms_in(rt.alloc(), &bytes)?;
    outcome_of_last(rt.alloc(), &forms, rounds)
}

/// The forms of the text.
fn forms_in(alloc: Global, bytes: &[u8]) -> Result<Vec<Edn>> {
    let mut forms = Vec::new(alloc);
    let mut at = Some(0);
    for _ in 0..bytes.len() {
        let Some(place) = at else {
            break;
        };
        at = add_form(alloc, bytes, place, &mut forms)?;
    }
    Ok(forms)
}

/// Adds the form at the place, if there is one, and gives the place after it.
fn add_form(alloc: Global, bytes: &[u8], at: usize, forms: &mut Vec<Edn>) -> Result<Option<usize>> {
    match read_form(alloc, bytes, at) {
        Ok(Some((form, after))) => {
            forms.push(form)?;
            Ok(Some(after))
        }
        Ok(None) => Ok(None),
        Err(_) => bail!("the text is no EDN"),
    }
}

/// What the last transaction comes to, after the others.
fn outcome_of_last(alloc: Global, forms: &[Edn], rounds: u32) -> Result<Outcome> {
    let Some((last, before)) = forms.split_last() else {
        bail!("there is no transaction");
    };
    let snapshot = recorded(alloc, before)?;
    decided_each(alloc, &snapshot, last, rounds)
}

/// The database after the transactions, each of which has to be accepted.
fn recorded(alloc: Global, forms: &[Edn]) -> Result<Snapshot> {
    let mut snapshot = Snapshot::first(alloc)?;
    for form in forms {
        snapshot = with_form(alloc, &snapshot, form)?;
    }
    Ok(snapshot)
}

fn with_form(alloc: Global, snapshot: &Snapshot, form: &Edn) -> Result<Snapshot> {
    an_accepted_entry_is_lawful();
    match decide(alloc, form, snapshot, snapshot.schema(), CLOCK, &NoGuard) {
        Ok(accepted) => Ok(snapshot.with_entry(accepted.entry)?),
        Err(_) => bail!("a transaction of the database is refused"),
    }
}

/// What a transaction comes to: how many datoms it records, or why it is refused.
#[derive(Clone, Copy)]
enum Outcome {
    Datoms(usize),
    Refused(Refusal),
}

impl fmt::Display for Outcome {
    fn fmt<W: fmt::Write>(&self, f: &mut fmt::Formatter<W>) -> fmt::Result {
        match self {
            Outcome::Datoms(count) => write!(f, "{count} datoms"),
            Outcome::Refused(refusal) => {
                write!(f, "rule {} at {}", refusal.reason.number(), refusal.at)
            }
        }
    }
}

/// What it comes to, decided so many times over, and once before.
fn decided_each(alloc: Global, snapshot: &Snapshot, form: &Edn, rounds: u32) -> Result<Outcome> {
    let mut outcome = decided(alloc, snapshot, form)?;
    for _ in 0..rounds {
        outcome = decided(alloc, snapshot, form)?;
    }
    Ok(outcome)
}

fn decided(alloc: Global, snapshot: &Snapshot, form: &Edn) -> Result<Outcome> {
    match decide(alloc, form, snapshot, snapshot.schema(), CLOCK, &NoGuard) {
        Ok(accepted) => Ok(Outcome::Datoms(accepted.entry.datoms.len())),
        Err(TxStop::Refused(refusal)) => Ok(Outcome::Refused(refusal)),
        Err(TxStop::Memory) => bail!("out of memory"),
    }
}
