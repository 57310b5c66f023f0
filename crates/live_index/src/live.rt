//! The live index as one value.
ghost use Rattle.std.specs.Prelude.{◌≡◌, ℕ, ◌-◌, ◌<◌, ◌≤◌, List, length, drop, [], ◌∷◌, ◌++◌, IfOk, IsTrue, Some};
ghost use Rattle.std.specs.List.{All, slice_get};
ghost use Rattle.std.specs.Option.{option_copied};
ghost use Rattle.fb_values.specs.declared.indexes.Order.{Order};
ghost use Rattle.fb_values.specs.declared.indexes.Order.TheVariants.{Eavt};
ghost use Rattle.fb_values.specs.declared.facts.Entry.{Entry};
ghost use Rattle.fb_values.specs.Rising.{IsRising};
ghost use Rattle.fb_values.specs.Lists.{Lists, list_in};
ghost use Rattle.fb_model.specs.Facts.{standing};
ghost use Rattle.view_model.specs.Stands.{LiveStands};
ghost use Rattle.live_index.specs.Growth.{HasNoTwins, IsGrown, is_held};
ghost use Rattle.live_index.specs.Halves.{MayFollow, withdrawn};
ghost use Rattle.live_runs.specs.Members.{datom_of};
ghost use Rattle.live_index.specs.Lists.{IsNumberIf, looked_at, numbered};
ghost use Rattle.live_index.specs.Standing.{IsNext};
ghost use Rattle.live_index.specs.Walks.{later_of};

use crate::gathering::{Gathered, gather};
use crate::half::Half;
use crate::orders::{Orders, count_of};
use crate::remaking::{Made, are_same};
use crate::retracting::{Both, Halves, share};
use crate::walk::is_before;
use fb_chunks::Shared;
use fb_covers::Covers;
use fb_memory::Memory;
use fb_values::{Datom, Entry, Order};
use live_runs::Table;
use std::alloc::Global;
use std::marker::Model;

/// From so many datoms on an entry may be taken for a large one.
const MANY: u64 = 256;

/// The datoms since the trees were made, in four lists that strictly rise: of each what holds, and beside it what does
/// not. AVET and VAET have the datoms of some attributes only. The lists have numbers of datoms that lie in one table.
#[derive(Drop)]
pub struct Live {
    alloc: Global,
    table: Table,
    holding: Orders,
    past: Option<Shared<Orders>>,
    /// The number of the last datom in EAVT, whether it holds or not.
    last: Option<u32>,
}

impl Model for Live {
    ghost use Rattle.fb_values.specs.Lists.{Lists};
    ghost use Rattle.live_index.specs.Halves.{both_lists};
    ghost use Rattle.live_index.specs.Lists.{AreIndex, lists_if, lists_of};

    ghost Value = { Lists };

    ghost view = { λ l. both_lists (lists_of l.table l.holding) (lists_if l.table l.past) };

    ghost invariant = { λ l. AreIndex l.table l.holding l.past l.last };
}

impl Live {
    /// The live index without a datom, which takes no memory.
    pub fn empty(alloc: Global) -> Live
        ensures { (order : Order) → list_in result order ≡ [] }
    {
        Live {
            alloc,
            table: Table::empty(alloc),
            holding: Orders::empty(alloc),
            past: None,
            last: None,
        }
    }

    /// What holds.
    pub fn holding(&self) -> Half<'_>
        ensures stands { (order : Order)
            → list_in result order ≡ standing (list_in self.now order) }
        ensures rising { (order : Order) → IsRising order (list_in self.now order) }
    {
        Half::of(&self.table, Some(&self.holding))
    }

    /// What does not hold: retractions, and additions that hold no longer.
    pub fn past(&self) -> Half<'_>
        ensures withdrawn { (order : Order)
            → list_in result order ≡ withdrawn (list_in self.now order) }
        ensures rising { (order : Order) → IsRising order (list_in self.now order) }
    {
        Half::of(&self.table, looked_at(&self.past))
    }

    /// The last datom in EAVT.
    pub fn last(&self) -> Option<&Datom>
        ensures { option_copied result
            ≡ slice_get (list_in self.now Eavt) (length (list_in self.now Eavt) - 1) }
    {
        match self.last {
            None => None,
            Some(last) => Some(self.table.at(last)),
        }
    }

    /// The same lists, which share all but a few of the newest datoms.
    pub fn share(&self) -> Result<Live, Memory>
        ensures { IfOk result (λ live. live ≡ self.now) }
    {
        Ok(Live {
            alloc: self.alloc,
            table: self.table.with_all(&[])?,
            holding: self.holding.copy()?,
            past: share(&self.past)?,
            last: self.last,
        })
    }

    /// The index with the datoms of an entry that comes next, where the indexes hold the attributes that they held.
    pub fn with_entry(&self, entry: &Entry, covers: &Covers) -> Result<Live, Memory>
        requires held { (order : Order)
            → All (λ d. IsTrue (is_held covers.now order d)) (list_in self.now order) }
        requires follow { (order : Order)
            → MayFollow (list_in self.now order) entry.now.datoms }
        requires order { IsRising Eavt entry.now.datoms }
        ensures grown { IfOk result (λ live. (order : Order)
            → IsGrown order covers.now (list_in self.now order) [] entry.now.datoms
            (list_in live order)) }
        // Where the lists stand for a history above c, and the entry comes next in it, the new ones stand for the history with the entry.
        ensures stands { IfOk result (λ live. (h : List Entry) (c : ℕ)
            → IsNext h c entry.now covers.now [] → LiveStands self.now h c
            → LiveStands live (h ++ entry.now ∷ []) c) }
    {
        self.grown(entry.datoms.as_slice(), covers)
    }

    /// The index with the datoms of an entry that comes next, where the indexes hold other attributes with it. `refill` has
    /// the older datoms that AVET alone is to have.
    pub fn with_schema_entry(
        &self,
        entry: &Entry,
        before: &Covers,
        after: &Covers,
        refill: &[Datom],
    ) -> Result<Live, Memory>
        requires held { (order : Order)
            → All (λ d. IsTrue (is_held before.now order d)) (list_in self.now order) }
        requires single { (order : Order)
            → HasNoTwins (list_in self.now order ++ refill.now ++ entry.now.datoms) }
        requires follow { (filled : Lists)
            → ((order : Order)
            → IsGrown order after.now (list_in self.now order) refill.now [] (list_in filled order))
            → (order : Order) → MayFollow (list_in filled order) entry.now.datoms }
        requires order { IsRising Eavt entry.now.datoms }
        ensures grown { IfOk result (λ live. (order : Order)
            → IsGrown order after.now (list_in self.now order) refill.now entry.now.datoms
            (list_in live order)) }
        // Where the lists stand for a history above c, and the entry comes next in it, the new ones stand for the history with the entry.
        ensures stands { IfOk result (λ live. (h : List Entry) (c : ℕ)
            → IsNext h c entry.now after.now refill.now → LiveStands self.now h c
            → LiveStands live (h ++ entry.now ∷ []) c) }
    {
        let filled = self.made_anew(&[], before, after, refill)?;
        filled.grown(entry.datoms.as_slice(), after)
    }

    /// With the datoms of an entry that comes next. Where they are at least half as many as hold already, all lists are made
    /// anew: that costs less than finding each datom's place.
    fn grown(&self, datoms: &[Datom], covers: &Covers) -> Result<Live, Memory>
        requires held { (order : Order)
            → All (λ d. IsTrue (is_held covers.now order d)) (list_in self.now order) }
        requires follow { (order : Order) → MayFollow (list_in self.now order) datoms.now }
        requires order { IsRising Eavt datoms.now }
        ensures { IfOk result (λ live. (order : Order)
            → IsGrown order covers.now (list_in self.now order) [] datoms.now (list_in live order)) }
    {
        if datoms.len() as u64 >= (self.holding().len(Order::Eavt) / 2).max(MANY) {
            return self.made_anew(datoms, covers, covers, &[]);
        }
        self.with_each(datoms, covers)
    }

    /// The same, where one datom after the other goes in.
    fn with_each(&self, datoms: &[Datom], covers: &Covers) -> Result<Live, Memory>
        requires held { (order : Order)
            → All (λ d. IsTrue (is_held covers.now order d)) (list_in self.now order) }
        requires follow { (order : Order) → MayFollow (list_in self.now order) datoms.now }
        requires order { IsRising Eavt datoms.now }
        ensures { IfOk result (λ live. (order : Order)
            → IsGrown order covers.now (list_in self.now order) [] datoms.now (list_in live order)) }
    {
        let first = count_of(&self.table);
        let table = self.table.with_all(datoms)?;
        let halves = Halves::copied(&self.holding, &self.past)?;
        let halves = halves.retracted(self.alloc, &table, first, covers)?;
        let Halves { holding, past } = halves;
        let holding = holding.with_additions(&table, first, covers)?;
        let last = last_with(&table, self.last, first);
        Ok(Live {
            alloc: self.alloc,
            table,
            holding,
            past,
            last,
        })
    }

    /// The index with more datoms, where the indexes hold other attributes than before, or where there are many of them:
    /// the lists are made anew. `refill` has the older datoms that AVET alone is to have.
    pub fn made_anew(
        &self,
        datoms: &[Datom],
        before: &Covers,
        after: &Covers,
        refill: &[Datom],
    ) -> Result<Live, Memory>
        requires held { (order : Order)
            → All (λ d. IsTrue (is_held before.now order d)) (list_in self.now order) }
        requires single { (order : Order)
            → HasNoTwins (list_in self.now order ++ refill.now ++ datoms.now) }
        ensures { IfOk result (λ live. (order : Order)
            → IsGrown order after.now (list_in self.now order) refill.now datoms.now
            (list_in live order)) }
    {
        if are_same(before, after, datoms, refill) {
            // So the lists rise.
            let _ = self.holding();
            return self.share();
        }
        self.remade(datoms, after, refill)
    }

    fn remade(&self, datoms: &[Datom], covers: &Covers, refill: &[Datom]) -> Result<Live, Memory>
        requires single { (order : Order)
            → HasNoTwins (list_in self.now order ++ refill.now ++ datoms.now) }
        ensures { IfOk result (λ live. (order : Order)
            → IsGrown order covers.now (list_in self.now order) refill.now datoms.now
            (list_in live order)) }
    {
        let gathered = gather(self.alloc, self, covers, refill, datoms)?;
        let Made { both, last } = gathered.split(self.alloc, covers)?;
        let Both { holding, past } = both;
        let past = Some(Shared::new(self.alloc, past)?);
        let Gathered { table, .. } = gathered;
        Ok(Live {
            alloc: self.alloc,
            table,
            holding,
            past,
            last,
        })
    }
}

fn looked_at(past: &Option<Shared<Orders>>) -> Option<&Orders>
    ensures { looked_at result ≡ past.now }
{
    match past {
        None => None,
        Some(past) => Some(past.get()),
    }
}

/// The number of the last datom in EAVT, where the table has more from a number on, which rise.
fn last_with(table: &Table, last: Option<u32>, first: u32) -> Option<u32>
    requires last { IsNumberIf table.now last }
    requires within { first ≤ length table.now }
    ensures within { IsNumberIf table.now result }
    ensures value { numbered table.now result ≡ later_of Eavt (numbered table.now last)
        (slice_get (drop first table.now) (length (drop first table.now) - 1)) }
{
    let count = count_of(table);
    if first < count {
        Some(later_of(table, last, count - 1))
    } else {
        last
    }
}

/// The number of the later datom in EAVT.
fn later_of(table: &Table, last: Option<u32>, newest: u32) -> u32
    requires last { IsNumberIf table.now last }
    requires newest { newest < length table.now }
    ensures within { result < length table.now }
    ensures value { Some (datom_of table.now result)
        ≡ later_of Eavt (numbered table.now last) (Some (datom_of table.now newest)) }
{
    match last {
        None => newest,
        Some(last) => later_number(table, last, newest),
    }
}

fn later_number(table: &Table, x: u32, y: u32) -> u32
    requires x { x < length table.now }
    requires y { y < length table.now }
    ensures within { result < length table.now }
    ensures value { Some (datom_of table.now result)
        ≡ later_of Eavt (Some (datom_of table.now x)) (Some (datom_of table.now y)) }
{
    if is_before(Order::Eavt, table.at(x), table.at(y)) {
        y
    } else {
        x
    }
}
