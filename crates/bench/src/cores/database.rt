//! A core that grows by transactions of one kind.
use super::forms::{Names, schema};
use anyhow::{Result, bail};
use edn_form::Edn;
use fb_core::{Core, NoGuard, a_beginning_stays_one};
use fb_merge::merged;
use fb_view::Snapshot;
use std::alloc::Global;
use std::thread::Threads;

/// The first of January 2024.
const CLOCK: i64 = 1_704_067_200_000;

/// The session that asks for all transactions.
const AUTHOR: u32 = 1;

/// So many live datoms of the four orders together are merged.
const MERGE_AT: u64 = 65_536;

#[derive(Drop)]
pub(crate) struct Database {
    alloc: Global,
    names: Names,
    core: Core,
    entities: u32,
}

impl Database {
    /// It has the two attributes.
    pub(crate) fn new(alloc: Global) -> Result<Database> {
        let names = Names::new(alloc)?;
        Ok(Database {
            alloc,
            names,
            core: with_schema(alloc)?,
            entities: 0,
        })
    }

    pub(crate) fn snapshot(&self) -> &Snapshot {
        self.core.snapshot()
    }

    /// How many entities have a number. They are counted from 0 on, as the numbers are.
    pub(crate) fn entities(&self) -> u32 {
        self.entities
    }

    /// Grows by so many entities, and gives the t of the last transaction.
    pub(crate) fn accept<R: Threads + Sync>(&mut self, rt: &R, count: u32) -> Result<u32> {
        for _ in 0..count {
            self.add_entity()?;
            if self.core.due(MERGE_AT) {
                merge(rt, self.alloc, &mut self.core)?;
            }
        }
        Ok(self.core.basis())
    }

    fn add_entity(&mut self) -> Result<()> {
        let form = self.names.new_entity(self.alloc, self.entities)?;
        transact(&mut self.core, &form)?;
        self.entities = self.entities.saturating_add(1);
        Ok(())
    }
}

/// A core of a new database with the two attributes.
fn with_schema(alloc: Global) -> Result<Core> {
    let mut core = new_core(alloc)?;
    install_schema(alloc, &mut core)?;
    Ok(core)
}

fn new_core(alloc: Global) -> Result<Core> {
    let first = Snapshot::first(alloc)?;
    Ok(Core::of(alloc, first))
}

fn install_schema(alloc: Global, core: &mut Core) -> Result<()> {
    let schema = schema(alloc)?;
    transact(core, &schema)
}

fn transact(core: &mut Core, form: &Edn) -> Result<()> {
    match core.decide(form, CLOCK, AUTHOR, &NoGuard) {
        Ok(draft) => {
            core.accept(draft);
            Ok(())
        }
        Err(_) => bail!("a transaction is refused"),
    }
}

/// What is live becomes part of the trees.
fn merge<R: Threads + Sync>(rt: &R, alloc: Global, core: &mut Core) -> Result<()> {
    a_beginning_stays_one();
    let begin = core.snapshot().share()?;
    let first_id = begin.roots().next_id();
    let roots = merged(rt, alloc, &begin, first_id)?;
    let rebased = core.rebase(&begin, roots)?;
    core.adopt(rebased);
    Ok(())
}
