//! The datoms of one order.
ghost use Rattle.std.specs.Prelude.{◌≡◌, ◌+◌, ◌<◌, ◌≤◌, true, false, [], length, List, Contains, IfOk, OnOk};
ghost use Rattle.std.specs.List.{All};
ghost use Rattle.fb_values.specs.declared.facts.Datom.{Datom as ModelDatom};
ghost use Rattle.fb_values.specs.declared.indexes.Order.{Order as ModelOrder};
ghost use Rattle.fb_values.specs.Rising.{IsRising};
ghost use Rattle.fb_model.specs.Rising.{put_in_order};
ghost use Rattle.live_runs.specs.Changed.{HasNoTwins, without};
ghost use Rattle.live_runs.specs.Changes.{AreChanges, AreMembers, changed_by, with_change};
ghost use Rattle.live_runs.specs.Members.{IsMember, changing, datom_of, held_by, named};
ghost use Rattle.live_runs.specs.Parts.{AreFull, IsPart, members_of};
ghost use Rattle.live_runs.specs.Runs.{AreRuns, IsSettled, Layers, middle_changes, runs_datoms, settled_datoms, settled_members};

use crate::members::{Change, Member, Numbered, is_met, place_among};
use crate::parts::{Part, Parts};
use crate::settled::Settled;
use crate::table::Table;
use fb_chunks::{Share, Shared};
use fb_memory::Memory;
use fb_values::Order;
use std::alloc::Global;
use std::marker::Model;

/// So many of the newest changes wait until they are settled together.
const NEWEST: usize = 31;

/// Datoms of a table in an order of the indexes: what is settled, which copies share, and the newest changes of it.
#[derive(Drop)]
pub struct Runs {
    newest: Vec<Change>,
    settled: Option<Shared<Settled>>,
    len: usize,
}

impl Model for Runs {
    ghost use Rattle.std.specs.Prelude.{◌≤◌, length};
    ghost use Rattle.live_runs.specs.declared.runs.TheConstants.{NEWEST};
    ghost use Rattle.live_runs.specs.Runs.{Layers, middle_changes, settled_members};

    ghost Value = { Layers };

    ghost view = { λ r. record {
      newest = r.newest.items;
      middle = middle_changes r.settled;
      settled = settled_members r.settled;
      count = r.len;
    } };

    ghost invariant = { λ r. length r.newest.items ≤ NEWEST };
}

impl Runs {
    /// Takes no memory.
    pub fn empty(alloc: Global) -> Runs
        ensures runs { (order : ModelOrder) (table : List ModelDatom) → HasNoTwins table
            → AreRuns order table result }
        ensures datoms { (order : ModelOrder) (table : List ModelDatom)
            → runs_datoms order table result ≡ [] }
    {
        Runs {
            newest: Vec::new(alloc),
            settled: None,
            len: 0,
        }
    }

    /// The runs of members in an order of a table.
    pub fn of_rising(alloc: Global, members: &[Member]) -> Result<Runs, Memory>
        ensures runs { IfOk result (λ r. (order : ModelOrder) (table : List ModelDatom)
            → HasNoTwins table → AreMembers order table members.now → AreRuns order table r) }
        ensures datoms { IfOk result (λ r. (order : ModelOrder) (table : List ModelDatom)
            → HasNoTwins table → AreMembers order table members.now
            → runs_datoms order table r ≡ named table members.now) }
    {
        let parts = Parts::empty(alloc).with_all(members)?;
        let len = parts.len();
        let settled = Settled::of_parts(alloc, parts)?;
        Ok(Runs {
            newest: Vec::new(alloc),
            settled: Some(Shared::new(alloc, settled)?),
            len,
        })
    }

    /// The same datoms, with room for the newest.
    pub fn copy(&self) -> Result<Runs, Memory>
        ensures { IfOk result (λ r. r ≡ self.now) }
    {
        let mut newest = Vec::with_capacity(*self.newest.allocator(), NEWEST)?;
        newest.extend_from_slice(&self.newest)?;
        Ok(Runs {
            newest,
            settled: share(&self.settled)?,
            len: self.len,
        })
    }

    pub fn len(&self) -> usize
        ensures { result ≡ self.now.count }
    {
        self.len
    }

    pub(crate) fn newest(&self) -> &[Change]
        ensures changes { result.now ≡ self.now.newest }
        ensures few { length result.now ≤ NEWEST }
    {
        self.newest.as_slice()
    }

    pub(crate) fn middle(&self) -> &[Change]
        ensures { result.now ≡ self.now.middle }
    {
        match &self.settled {
            None => &[],
            Some(settled) => settled.get().middle.as_slice(),
        }
    }

    pub(crate) fn parts(&self) -> &[Part]
        ensures members { members_of result.now ≡ self.now.settled }
        ensures parts { All IsPart result.now }
        ensures full { AreFull result.now }
    {
        match &self.settled {
            None => &[],
            Some(settled) => settled.get().parts.get().parts(),
        }
    }

    /// The runs with a datom of the table, which they have not.
    pub fn add(self, table: &Table, order: Order, number: u32) -> Result<Runs, Memory>
        requires runs { AreRuns order table.now self }
        requires within { number < length table.now }
        requires fresh { Contains (runs_datoms order table.now self) (datom_of table.now number)
            → ⊥ }
        ensures runs { IfOk result (λ r. AreRuns order table.now r) }
        ensures datoms { IfOk result (λ r. runs_datoms order table.now r
            ≡ put_in_order order (datom_of table.now number) (runs_datoms order table.now self)) }
    {
        let runs = self.with_room(table, order)?;
        let change = Member::of(table, order, number).adding();
        runs.with_addition(table, order, change)
    }

    /// The runs without one of their datoms.
    pub fn remove(self, table: &Table, order: Order, number: u32) -> Result<Runs, Memory>
        requires runs { AreRuns order table.now self }
        requires within { number < length table.now }
        requires there { Contains (runs_datoms order table.now self) (datom_of table.now number) }
        ensures runs { IfOk result (λ r. AreRuns order table.now r) }
        ensures datoms { IfOk result (λ r. runs_datoms order table.now r
            ≡ without order (datom_of table.now number) (runs_datoms order table.now self)) }
    {
        let runs = self.with_room(table, order)?;
        let change = Member::of(table, order, number).removing();
        runs.with_removal(table, order, change)
    }

    /// The same datoms, with room for a change.
    fn with_room(self, table: &Table, order: Order) -> Result<Runs, Memory>
        requires { AreRuns order table.now self }
        ensures runs { IfOk result (λ r. AreRuns order table.now r) }
        ensures datoms { IfOk result
            (λ r. runs_datoms order table.now r ≡ runs_datoms order table.now self) }
        ensures room { IfOk result (λ r. length r.newest < NEWEST) }
    {
        if self.newest.len() < NEWEST {
            return Ok(self);
        }
        let alloc = *self.newest.allocator();
        let settled = settled_with(alloc, &self.settled, table, order, &self.newest, self.len)?;
        Ok(Runs {
            newest: Vec::with_capacity(alloc, NEWEST)?,
            settled: Some(Shared::new(alloc, settled)?),
            len: self.len,
        })
    }

    fn with_addition(self, table: &Table, order: Order, change: Change) -> Result<Runs, Memory>
        requires runs { AreRuns order table.now self }
        requires member { IsMember order table.now (changing change) }
        requires adds { change.removes ≡ false }
        requires fresh { Contains (runs_datoms order table.now self)
            (datom_of table.now change.number) → ⊥ }
        requires room { length self.newest < NEWEST }
        ensures runs { IfOk result (λ r. AreRuns order table.now r) }
        ensures datoms { IfOk result (λ r. runs_datoms order table.now r
            ≡ put_in_order order (datom_of table.now change.number)
            (runs_datoms order table.now self)) }
    {
        if self.len == usize::MAX {
            // No memory holds as many.
            return Err(Memory);
        }
        let Runs {
            mut newest,
            settled,
            len,
        } = self;
        put(&mut newest, table, order, change)?;
        Ok(Runs {
            newest,
            settled,
            len: len + 1,
        })
    }

    fn with_removal(self, table: &Table, order: Order, change: Change) -> Result<Runs, Memory>
        requires runs { AreRuns order table.now self }
        requires member { IsMember order table.now (changing change) }
        requires removes { change.removes ≡ true }
        requires there { Contains (runs_datoms order table.now self)
            (datom_of table.now change.number) }
        requires room { length self.newest < NEWEST }
        ensures runs { IfOk result (λ r. AreRuns order table.now r) }
        ensures datoms { IfOk result (λ r. runs_datoms order table.now r
            ≡ without order (datom_of table.now change.number) (runs_datoms order table.now self)) }
    {
        let Runs {
            mut newest,
            settled,
            len,
        } = self;
        put(&mut newest, table, order, change)?;
        Ok(Runs {
            newest,
            settled,
            len: len - 1,
        })
    }
}

fn share(settled: &Option<Shared<Settled>>) -> Result<Option<Shared<Settled>>, Memory>
    ensures { IfOk result (λ copy. copy ≡ settled.now) }
{
    match settled {
        None => Ok(None),
        Some(settled) => Ok(Some(settled.share()?)),
    }
}

/// What is settled, with the newest changes, with which there are `len` datoms.
fn settled_with(
    alloc: Global,
    settled: &Option<Shared<Settled>>,
    table: &Table,
    order: Order,
    newest: &[Change],
    len: usize,
) -> Result<Settled, Memory>
    requires single { HasNoTwins table.now }
    requires settled { IsSettled order table.now (middle_changes settled.now) (settled_members settled.now) }
    requires newest { AreChanges order table.now newest.now
        (settled_datoms order table.now (middle_changes settled.now) (settled_members settled.now)) }
    requires len { len ≡ length (changed_by order table.now newest.now
        (settled_datoms order table.now (middle_changes settled.now) (settled_members settled.now))) }
    ensures settled { IfOk result (λ s. IsSettled order table.now s.middle.items s.parts) }
    ensures datoms { IfOk result (λ s. settled_datoms order table.now s.middle.items s.parts
        ≡ changed_by order table.now newest.now
        (settled_datoms order table.now (middle_changes settled.now) (settled_members settled.now))) }
{
    match settled {
        None => {
            let parts = Parts::empty(alloc).with_changes(table, order, newest)?;
            let settled = Settled::of_parts(alloc, parts)?;
            Ok(settled)
        }
        Some(settled) => settled.get().with_changes(table, order, newest, len),
    }
}

/// Puts a change at its place among others, or takes the one away that it undoes.
fn put(changes: &mut Vec<Change>, table: &Table, order: Order, change: Change) -> Result<(), Memory>
    requires changes { All (λ c. IsMember order table.now (changing c)) changes.old.items }
    requires rising { IsRising order (held_by changing table.now changes.old.items) }
    requires member { IsMember order table.now (changing change) }
    ensures value { OnOk result
        (changes.new.items ≡ with_change order table.now changes.old.items change) }
    ensures few { OnOk result (length changes.new.items ≤ length changes.old.items + 1) }
{
    let member = change.member();
    let place = place_among(table, order, changes, &member);
    if is_met(table, order, changes, place, &member) {
        changes.remove(place);
    } else {
        changes.insert(place, change)?;
    }
    Ok(())
}
