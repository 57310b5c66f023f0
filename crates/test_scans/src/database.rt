//! A database of ten entities, each of which has fifty thousand numbers.
ghost use Rattle.std.specs.Prelude.{IfOk};
ghost use Rattle.fb_core.specs.Cores.{IsDraftOf};

use anyhow::{Result, bail};
use edn_core::read_form;
use edn_form::{Edn, Items, Pairs};
use fb_core::{Core, Draft, NoGuard, a_beginning_stays_one};
use fb_merge::merged;
use fb_text::Text;
use fb_view::Snapshot;
use std::alloc::Global;
use std::thread::Threads;

const ENTITIES: u32 = 10;

pub(crate) const NUMBERS_EACH: u32 = 50_000;

/// The attribute, which is the first user entity.
pub(crate) const NUMBER: u64 = 17_592_186_044_417;

pub(crate) const FIRST_ENTITY: u64 = 17_592_186_044_418;

/// The transaction that makes the first of the entities.
pub(crate) const FIRST_T: u32 = 2;

/// The first of January 2024.
const CLOCK: i64 = 1_704_067_200_000;

/// The session that asks for all transactions.
const AUTHOR: u32 = 1;

const SCHEMA: &str =
    "[{:db/ident :x/n :db/valueType :db.type/long :db/cardinality :db.cardinality/many}]";

/// Its latest value, over trees that hold all of it.
pub(crate) fn grown<R: Threads + Sync>(rt: &R, alloc: Global) -> Result<Snapshot> {
    let mut core = Core::of(alloc, Snapshot::first(alloc)?);
    grow(alloc, &mut core)?;
    merge(rt, alloc, &mut core)?;
    Ok(core.snapshot().share()?)
}

fn grow(alloc: Global, core: &mut Core) -> Result<()> {
    transact(core, &form_in(alloc, SCHEMA)?)?;
    for nth in 0..ENTITIES {
        transact(core, &new_entity(alloc, nth)?)?;
    }
    Ok(())
}

pub(crate) fn transact(core: &mut Core, form: &Edn) -> Result<()> {
    let draft = decided(core, form)?;
    core.accept(draft);
    Ok(())
}

pub(crate) fn decided(core: &Core, form: &Edn) -> Result<Draft>
    ensures { IfOk result (IsDraftOf core.now AUTHOR) }
{
    match core.decide(form, CLOCK, AUTHOR, &NoGuard) {
        Ok(draft) => Ok(draft),
        Err(_) => bail!("a transaction is refused"),
    }
}

/// What is live becomes part of the trees.
fn merge<R: Threads + Sync>(rt: &R, alloc: Global, core: &mut Core) -> Result<()> {
    a_beginning_stays_one();
    let begin = core.snapshot().share()?;
    let first_id = begin.roots().next_id();
    let roots = merged(rt, alloc, &begin, first_id)?;
    let rebased = core.rebase(&begin, roots)?;
    core.adopt(rebased);
    if core.covered() != FIRST_T + ENTITIES - 1 {
        bail!("the trees do not hold the whole history");
    }
    Ok(())
}

pub(crate) fn form_in(alloc: Global, text: &str) -> Result<Edn> {
    match read_form(alloc, text.as_bytes(), 0) {
        Ok(Some((form, _))) => Ok(form),
        _ => bail!("the text is no EDN"),
    }
}

/// `[{:x/n [0 1 2 ..]}]` for the first entity, with the numbers after these for the second, and so on.
fn new_entity(alloc: Global, nth: u32) -> Result<Edn> {
    let numbers = numbers_of(alloc, nth)?;
    let entity = entity_with(alloc, numbers)?;
    Ok(Edn::Vector(Items::of(vec![in alloc; entity]?)))
}

fn numbers_of(alloc: Global, nth: u32) -> Result<Edn> {
    let first = i64::from(nth) * i64::from(NUMBERS_EACH);
    let mut numbers = Vec::with_capacity(alloc, NUMBERS_EACH as usize)?;
    for number in first..first + i64::from(NUMBERS_EACH) {
        numbers.push(Edn::Int(number))?;
    }
    Ok(Edn::Vector(Items::of(numbers)))
}

fn entity_with(alloc: Global, numbers: Edn) -> Result<Edn> {
    let key = Edn::Key(Text::of(alloc, "x/n")?);
    Ok(Edn::Map(Pairs::of(vec![in alloc; (key, numbers)]?)))
}
