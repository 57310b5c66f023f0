//! A history that grows in place, with what holds in it.
ghost use Rattle.std.specs.Prelude.{◌≡◌, ◌<◌, ◌^◌, ◌-◌, ◌++◌, ◌∷◌, [], length, max, IfOk};
ghost use Rattle.fb_model.specs.FirstEntry.{first_entry};
ghost use Rattle.fb_model.specs.History as model;

use crate::fact_maps::{FactMaps, follow_all};
use fb_history::EntryList;
use fb_memory::Memory;
use fb_numbers::user_number;
use fb_values::{Datom, Entry};
use std::alloc::Global;
use std::marker::Model;

/// A history, with the facts that hold now at hand.
#[derive(Drop)]
pub struct Held {
    pub(crate) alloc: Global,
    entries: EntryList,
    pub(crate) basis: u32,
    pub(crate) instant: i64,
    pub(crate) users: u64,
    pub(crate) kept: FactMaps,
}

impl Model for Held {
    ghost use Rattle.std.specs.Prelude.{◌≡◌, List};
    ghost use Rattle.fb_values.specs.declared.facts.Entry.{Entry};
    ghost use Rattle.fb_model.specs.History as model;
    ghost use Rattle.held_facts.specs.FactMaps.{HasFacts};

    ghost Value = { List Entry };

    ghost view = { λ h. h.entries };

    ghost invariant = { λ h. (h.basis ≡ model.basis h.entries)
        × (h.instant ≡ model.last_instant h.entries)
        × (h.users ≡ model.users_issued h.entries)
        × HasFacts (model.said h.entries) h.kept };
}

impl Held {
    /// The history that has only the built-in schema.
    pub fn first(alloc: Global) -> Result<Held, Memory>
        ensures { IfOk result (λ h. h ≡ first_entry ∷ []) }
    {
        let entries = EntryList::first(alloc)?;
        let first = entries.at(0);
        let (basis, instant) = (first.t, first.instant);
        let datoms = first.datoms.as_slice();
        let users = greatest_user(0, datoms);
        let mut kept = FactMaps::new(alloc);
        follow_all(&mut kept, datoms)?;
        Ok(Held {
            alloc,
            entries,
            basis,
            instant,
            users,
            kept,
        })
    }

    /// The history with one more entry at its end. Where memory runs out, nothing is left of it: some of the entry's
    /// datoms would be followed, and others not.
    pub fn add(self, entry: Entry) -> Result<Held, Memory>
        requires { length self < 2 ^ 32 - 1 }
        ensures { IfOk result (λ h. h ≡ self ++ entry ∷ []) }
    {
        let Held {
            alloc,
            entries,
            users,
            mut kept,
            ..
        } = self;
        let (basis, instant) = (entry.t, entry.instant);
        let datoms = entry.datoms.as_slice();
        let users = greatest_user(users, datoms);
        follow_all(&mut kept, datoms)?;
        let entries = entries.with(entry)?;
        Ok(Held {
            alloc,
            entries,
            basis,
            instant,
            users,
            kept,
        })
    }

    pub fn into_entries(self) -> EntryList
        ensures { result ≡ self }
    {
        self.entries
    }
}

/// The greater one of a user number and those of the datoms' entities.
fn greatest_user(least: u64, datoms: &[Datom]) -> u64
    ensures { result ≡ max least (model.users_in datoms.now) }
{
    let mut users = least;
    for d in datoms {
        users = users.max(user_number(d.e));
    }
    users
}
