//! Law 3: each number is that of an entity. New user entities are counted on from the last one without a gap.
ghost use Rattle.std.specs.Prelude.{◌≡◌, List, IfOk};
ghost use Rattle.std.specs.List.{list_all};
ghost use Rattle.fb_values.specs.declared.facts.Entry.{Entry};
ghost use Rattle.fb_model.specs.Laws as model;
ghost use Rattle.tx_laws.specs.Own.{IsLatestOf};
ghost use Rattle.tx_laws.specs.Users.{added_users, counted_on, is_known as model_is_known, is_known_value as model_is_known_value, is_known_datom as model_is_known_datom};

use crate::latest::Latest;
use fb_memory::Memory;
use fb_numbers::{TRANSACTIONS, is_builtin, transaction_entity, user_number};
use fb_values::{Datom, Entry, Value};
use std::alloc::Global;

/// The numbers that an entry may speak of: besides the built-in ones those of the transactions up to the basis, of its own
/// transaction, and of the user entities up to the last one.
#[derive(Drop)]
struct KnownNumbers {
    basis: u32,
    t: u32,
    users: u64,
}

/// Whether each entity, and each value that is one, is known.
pub fn has_known_numbers(alloc: Global, entry: &Entry, latest: &Latest) -> Result<bool, Memory>
    ensures { IfOk result (λ are. (h : List Entry) → IsLatestOf latest.now h
        → are ≡ model.has_known_numbers h entry.now) }
{
    let datoms = entry.datoms.as_slice();
    let users = users_after(alloc, datoms, latest.issued)?;
    let known = KnownNumbers {
        basis: latest.basis,
        t: entry.t,
        users,
    };
    Ok(are_known(&known, datoms))
}

/// The greatest user number in use after the datoms.
fn users_after(alloc: Global, datoms: &[Datom], issued: u64) -> Result<u64, Memory>
    ensures { IfOk result (λ users. users ≡ model.users_behind datoms.now datoms.now issued) }
{
    let mut numbers = added_users(alloc, datoms)?;
    numbers.sort_unstable();
    Ok(counted_on(&numbers, issued))
}

fn added_users(alloc: Global, datoms: &[Datom]) -> Result<Vec<u64>, Memory>
    ensures { IfOk result (λ numbers. numbers.items ≡ added_users datoms.now) }
{
    let mut numbers = Vec::new(alloc);
    for d in datoms {
        if d.added {
            numbers.push(user_number(d.e))?;
        }
    }
    Ok(numbers)
}

/// How far the numbers go on after the last one.
fn counted_on(numbers: &[u64], issued: u64) -> u64
    ensures { result ≡ counted_on numbers.now issued }
{
    let mut last = issued;
    for n in numbers {
        if last < *n && *n - last == 1 {
            last = *n;
        }
    }
    last
}

fn are_known(known: &KnownNumbers, datoms: &[Datom]) -> bool
    ensures { result ≡ list_all (model_is_known_datom known.now) datoms.now }
{
    for d in datoms {
        if !is_known_datom(known, d) {
            return false;
        }
    }
    true
}

fn is_known_datom(known: &KnownNumbers, d: &Datom) -> bool
    ensures { result ≡ model_is_known_datom known.now d.now }
{
    is_known(known, d.e) && is_known_value(known, &d.v)
}

fn is_known_value(known: &KnownNumbers, v: &Value) -> bool
    ensures { result ≡ model_is_known_value known.now v.now }
{
    match v {
        Value::Ref(n) => is_known(known, *n),
        _ => true,
    }
}

fn is_known(known: &KnownNumbers, n: u64) -> bool
    ensures { result ≡ model_is_known known.now n }
{
    let user = user_number(n);
    is_builtin(n)
        || (TRANSACTIONS <= n && n <= transaction_entity(known.basis))
        || n == transaction_entity(known.t)
        || (1 <= user && user <= known.users)
}
