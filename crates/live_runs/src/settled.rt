//! A list in parts with changes that wait until there are enough of them.
ghost use Rattle.std.specs.Prelude.{◌≡◌, [], length, IfOk};
ghost use Rattle.live_runs.specs.Changed.{HasNoTwins};
ghost use Rattle.live_runs.specs.Changes.{AreChanges, changed_by};
ghost use Rattle.live_runs.specs.Runs.{IsSettled, may_wait, most_waiting, settled_datoms};

use crate::members::Change;
use crate::merging::merged;
use crate::parts::Parts;
use crate::table::Table;
use fb_chunks::{Share, Shared};
use fb_memory::Memory;
use fb_values::Order;
use std::alloc::Global;

/// At most so many changes wait.
pub const MIDDLE: usize = 2047;

/// At most so many of them remove what is in the list, since a walk has to pass over it.
pub const REMOVALS: usize = 32;

/// The list, and the changes of it.
#[derive(Drop)]
pub struct Settled {
    pub middle: Vec<Change>,
    pub parts: Shared<Parts>,
}

impl Settled {
    /// A list without changes.
    pub fn of_parts(alloc: Global, parts: Parts) -> Result<Settled, Memory>
        ensures middle { IfOk result (λ s. s.middle.items ≡ []) }
        ensures parts { IfOk result (λ s. s.parts ≡ parts) }
    {
        Ok(Settled {
            middle: Vec::new(alloc),
            parts: Shared::new(alloc, parts)?,
        })
    }

    /// The same with newer changes, with which there are `len` datoms.
    pub fn with_changes(
        &self,
        table: &Table,
        order: Order,
        newest: &[Change],
        len: usize,
    ) -> Result<Settled, Memory>
        requires single { HasNoTwins table.now }
        requires settled { IsSettled order table.now self.now.middle.items self.now.parts }
        requires newest { AreChanges order table.now newest.now
            (settled_datoms order table.now self.now.middle.items self.now.parts) }
        requires len { len ≡ length (changed_by order table.now newest.now
            (settled_datoms order table.now self.now.middle.items self.now.parts)) }
        ensures settled { IfOk result (λ s. IsSettled order table.now s.middle.items s.parts) }
        ensures datoms { IfOk result (λ s. settled_datoms order table.now s.middle.items s.parts
            ≡ changed_by order table.now newest.now
            (settled_datoms order table.now self.now.middle.items self.now.parts)) }
    {
        let alloc = *self.middle.allocator();
        let middle = merged(alloc, table, order, newest, &self.middle)?;
        let may_wait = self.may_wait(order, middle.len(), len)?;
        if may_wait {
            let parts = self.parts.share()?;
            return Ok(Settled { middle, parts });
        }
        let woven = self.parts.get().with_changes(table, order, &middle)?;
        let settled = Settled::of_parts(alloc, woven)?;
        Ok(settled)
    }

    /// Whether so many changes may wait, with which there are `len` datoms.
    fn may_wait(&self, order: Order, changes: usize, len: usize) -> Result<bool, Memory>
        ensures { IfOk result (λ may. may ≡ may_wait order (length self.now.parts) changes len) }
    {
        let members = self.parts.get().len();
        // No memory holds as many.
        let both = members.checked_add(changes).ok_or(Memory)?;
        Ok(changes <= most_waiting(order, members) && both.saturating_sub(2 * REMOVALS) <= len)
    }
}

/// How many changes may wait beside so many members. Each order has a share of its own, so that no commit weaves all four.
fn most_waiting(order: Order, members: usize) -> usize
    ensures { result ≡ most_waiting order members }
{
    let most = (members / 16).min(MIDDLE);
    match order {
        Order::Eavt => most,
        Order::Aevt => most * 7 / 8,
        Order::Avet => most * 6 / 8,
        Order::Vaet => most * 5 / 8,
    }
}
