//! The live index: `bench live COUNT ROUNDS [install]` fills an index with COUNT datoms, all orders together, and then adds 250
//! entries to it that many times, each time to the same filled index: entries of three datoms, or, with `install`, entries of
//! five datoms that install a unique attribute each.
ghost use Rattle.std.specs.Prelude.{◌≡◌, ◌+◌, ◌<◌, ◌^◌, ℕ, IfOk};
ghost use Rattle.bench.specs.Entries.{IsOf, IsEntry, IsEntryUpto, IsFrom, LiveIsBefore};
ghost use Rattle.bench.specs.Entries.{transaction_entity, user_entity};

use crate::common::number;
use anyhow::Result;
use fb_covers::Covers;
use fb_memory::Memory;
use fb_text::Text;
use fb_values::{Datom, Datoms, Entry, Value};
use live_index::Live;
use std::alloc::Global;

/// How many entries a round adds.
const ENTRIES: u32 = 250;

/// An entry's datoms of facts in all orders together.
const DATOMS: u32 = 8;

/// The entities of the built-in schema that the entries name.
const IDENT: u64 = 1;

const VALUE_TYPE: u64 = 2;

const CARDINALITY: u64 = 3;

const UNIQUE: u64 = 4;

const TX_INSTANT: u64 = 8;

const STRING: u64 = 11;

const ONE: u64 = 20;

const IDENTITY: u64 = 30;

/// The two attributes of the entries' facts, and one whose values are entities.
const KEY: u64 = 65;

const NUMBER: u64 = 66;

const FRIEND: u64 = 67;

#[derive(Clone, Copy)]
struct Task {
    count: u32,
    rounds: u32,
    installs: bool,
}

fn task_of(words: &[String]) -> Option<Task> {
    let (count, rounds, installs) = match words {
        [count, rounds] => (count, rounds, false),
        [count, rounds, kind] if kind.as_str() == "install" => (count, rounds, true),
        _ => return None,
    };
    Some(Task {
        count: number(count.as_str())?,
        rounds: number(rounds.as_str())?,
        installs,
    })
}

pub(crate) fn perform(alloc: Global, words: &[String]) -> Result<bool> {
    let Some(task) = task_of(words) else {
        return Ok(false);
    };
    let covers = coverage(alloc, 0, 0)?;
    measure(alloc, &covers, task)?;
    Ok(true)
}

fn measure(alloc: Global, covers: &Covers, task: Task) -> Result<(), Memory> {
    let entries = task.count / DATOMS;
    let live = filled(alloc, covers, entries)?;
    do_rounds(alloc, &live, covers, entries, task)
}

/// Adds a round's entries to the filled index so many times, of which the first is the n-th.
fn do_rounds(
    alloc: Global,
    filled: &Live,
    covers: &Covers,
    n: u32,
    task: Task,
) -> Result<(), Memory>
    requires few { n + ENTRIES < 2 ^ 32 }
    requires live { LiveIsBefore covers.now n filled.now }
{
    for _ in 0..task.rounds {
        if task.installs {
            install(alloc, filled, covers, n)?;
        } else {
            grow(alloc, filled, covers, n)?;
        }
    }
    Ok(())
}

fn grow(alloc: Global, filled: &Live, covers: &Covers, n: u32) -> Result<(), Memory>
    requires few { n + ENTRIES < 2 ^ 32 }
    requires live { LiveIsBefore covers.now n filled.now }
{
    let begin = filled.share()?;
    drop(grown(alloc, begin, covers, n, ENTRIES)?);
    Ok(())
}

/// Each entry installs a unique attribute, so that the coverage grows with each.
fn install(alloc: Global, filled: &Live, covers: &Covers, n: u32) -> Result<(), Memory>
    requires few { n + ENTRIES < 2 ^ 32 }
    requires live { LiveIsBefore covers.now n filled.now }
{
    let mut index = Index::of(filled, covers)?;
    install_each(alloc, &mut index, n)
}

fn install_each(alloc: Global, index: &mut Index, n: u32) -> Result<(), Memory>
    requires few { n + ENTRIES < 2 ^ 32 }
    requires live { LiveIsBefore index.old.covers n index.old.live }
{
    for i in 0..ENTRIES {
        *index = index.with_entry(alloc, n, i)?;
    }
    Ok(())
}

/// An index of that many entries of facts.
fn filled(alloc: Global, covers: &Covers, count: u32) -> Result<Live, Memory>
    ensures { IfOk result (λ live. LiveIsBefore covers.now count live) }
{
    grown(alloc, Live::empty(alloc), covers, 0, count)
}

/// The index with `count` entries of facts more, of which the first is the n-th.
fn grown(alloc: Global, mut live: Live, covers: &Covers, n: u32, count: u32) -> Result<Live, Memory>
    requires few { n + count < 2 ^ 32 }
    requires live { LiveIsBefore covers.now n live }
    ensures { IfOk result (λ new. LiveIsBefore covers.now (n + count) new) }
{
    for i in 0..count {
        live = with_facts(alloc, &live, covers, n + i)?;
    }
    Ok(live)
}

/// An index and its coverage, which grow together.
#[derive(Drop)]
struct Index {
    live: Live,
    covers: Covers,
}

impl Index {
    fn of(live: &Live, covers: &Covers) -> Result<Index, Memory>
        ensures { IfOk result (λ new. (new.live ≡ live.now) × (new.covers ≡ covers.now)) }
    {
        let live = live.share()?;
        Ok(Index {
            live,
            covers: covers.share()?,
        })
    }

    /// The n-th entry was the first that installed an attribute, and `i` did.
    fn with_entry(&self, alloc: Global, n: u32, i: u32) -> Result<Index, Memory>
        requires few { n + i + 1 < 2 ^ 32 }
        requires live { LiveIsBefore self.now.covers (n + i) self.now.live }
        ensures { IfOk result (λ new. LiveIsBefore new.covers (n + i + 1) new.live) }
    {
        let covers = coverage(alloc, n, i + 1)?;
        let live = with_attribute(alloc, &self.live, &self.covers, &covers, n + i)?;
        Ok(Index { live, covers })
    }
}

fn with_facts(alloc: Global, live: &Live, covers: &Covers, n: u32) -> Result<Live, Memory>
    requires { LiveIsBefore covers.now n live.now }
    ensures { IfOk result (λ new. LiveIsBefore covers.now (n + 1) new) }
{
    let entry = entry_of(n, facts(alloc, n)?);
    live.with_entry(&entry, covers)
}

fn with_attribute(
    alloc: Global,
    live: &Live,
    before: &Covers,
    after: &Covers,
    n: u32,
) -> Result<Live, Memory>
    requires { LiveIsBefore before.now n live.now }
    ensures { IfOk result (λ new. LiveIsBefore after.now (n + 1) new) }
{
    let entry = entry_of(n, attribute(alloc, n)?);
    live.with_schema_entry(&entry, before, after, &[])
}

fn entry_of(t: u32, datoms: Vec<Datom>) -> Entry
    ensures { result.datoms ≡ datoms.items }
{
    Entry {
        t,
        instant: i64::from(t),
        datoms: Datoms::of(datoms),
    }
}

/// What the indexes hold by value once `count` unique attributes were installed, the n-th user entity and those after it.
fn coverage(alloc: Global, n: u32, count: u32) -> Result<Covers, Memory> {
    let mut avet = vec![in alloc; IDENT, KEY, NUMBER]?;
    for i in 0..count {
        avet.push(user(n.saturating_add(i)))?;
    }
    let vaet = vec![in alloc; VALUE_TYPE, CARDINALITY, UNIQUE, FRIEND]?;
    Covers::of(alloc, avet, vaet)
}

/// The n-th entry's datoms: a transaction's instant, and two facts of a new entity.
fn facts(alloc: Global, n: u32) -> Result<Vec<Datom>, Memory>
    ensures { IfOk result (λ v. IsEntry n v.items) }
{
    let key = Value::Str(name(alloc, n)?);
    let datoms = pushed(Vec::new(alloc), instant(n))?;
    let datoms = pushed(datoms, of_user(n, KEY, key))?;
    let number = Value::Long(n as i64 * 7919 % 1000);
    pushed(datoms, of_user(n, NUMBER, number))
}

/// The n-th entry's datoms: a transaction's instant, and a new unique attribute.
fn attribute(alloc: Global, n: u32) -> Result<Vec<Datom>, Memory>
    ensures { IfOk result (λ v. IsEntry n v.items) }
{
    let ident = Value::Keyword(name(alloc, n)?);
    let datoms = pushed(Vec::new(alloc), instant(n))?;
    let datoms = pushed(datoms, of_user(n, IDENT, ident))?;
    let datoms = pushed(datoms, of_user(n, VALUE_TYPE, Value::Ref(STRING)))?;
    let datoms = pushed(datoms, of_user(n, CARDINALITY, Value::Ref(ONE)))?;
    pushed(datoms, of_user(n, UNIQUE, Value::Ref(IDENTITY)))
}

fn pushed(mut list: Vec<Datom>, datom: Datom) -> Result<Vec<Datom>, Memory>
    ensures { IfOk result (λ v. (n e a : ℕ) → IsEntryUpto n e a list.items → IsOf n datom
        → IsFrom e a datom → IsEntryUpto n datom.e (datom.a + 1) v.items) }
{
    list.push(datom)?;
    Ok(list)
}

fn instant(n: u32) -> Datom
    ensures of { IsOf n result }
    ensures e { result.e ≡ transaction_entity n }
    ensures a { result.a ≡ TX_INSTANT }
{
    Datom {
        e: transaction(n),
        a: TX_INSTANT,
        v: Value::Instant(i64::from(n)),
        t: n,
        added: true,
    }
}

fn of_user(n: u32, a: u64, v: Value) -> Datom
    ensures of { IsOf n result }
    ensures e { result.e ≡ user_entity n }
    ensures a { result.a ≡ a }
{
    Datom {
        e: user(n),
        a,
        v,
        t: n,
        added: true,
    }
}

fn name(alloc: Global, n: u32) -> Result<Text, Memory> {
    let text = format!(in alloc; "0-{n}")?;
    Text::of(alloc, text.as_str())
}

fn transaction(n: u32) -> u64
    ensures { result ≡ transaction_entity n }
{
    13_194_139_533_312 + u64::from(n)
}

fn user(n: u32) -> u64
    ensures { result ≡ user_entity n }
{
    17_592_186_044_416 + u64::from(n)
}
