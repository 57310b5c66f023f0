//! Judging the entries of a log: all together, and where that does not find them lawful, one after another, each over the
//! facts that hold before it.
ghost use Rattle.std.specs.Prelude.{◌≡◌, ◌++◌, ◌∷◌, [], List, IfOk, IfErr};
ghost use Rattle.fb_values.specs.declared.facts.Entry.{Entry};
ghost use Rattle.fb_model.specs.FirstEntry.{first_entry};
ghost use Rattle.fb_model.specs.Lawful.{IsLawful};
ghost use Rattle.fb_schema.specs.Described.{SchemaStands};
ghost use Rattle.log_model.specs.Log.{log_reading, hold};
ghost use Rattle.fb_recover.specs.Faults.{MatchesFault};
ghost use Rattle.fb_recover.specs.Judging.{IsJudged, IsFollowed};

use crate::OpenFault;
use fb_facts::Facts;
use fb_history::EntryList;
use fb_memory::Memory;
use fb_model::{
    first_is_lawful, lawful_entries_make_lawful_histories, lawful_histories_are_counted_by_t,
    the_least_law_is_none_where_all_are_kept,
};
use fb_schema::Schema;
use fb_values::Entry;
use held_facts::Held;
use log_sweep::is_lawful;
use std::alloc::Global;
use tx_laws::lawful;
use tx_model::lawful_histories_are_small;

/// The history that the entries make after its first one, or the first of them that may not follow those before it. What
/// holds is kept in maps only where sorting their datoms does not tell that they are lawful.
pub(crate) fn lawful_history(alloc: Global, entries: Vec<Entry>) -> Result<EntryList, OpenFault>
    ensures lawful { IfOk result (λ h. (h ≡ first_entry ∷ entries.items) × IsLawful h) }
    ensures unlawful { IfErr result
        (λ fault. MatchesFault fault (log_reading (hold entries.items))) }
{
    let is_lawful = is_lawful(alloc, &entries)?;
    if is_lawful {
        return Ok(with_entries(alloc, entries)?);
    }
    judged_one_by_one(alloc, entries)?.into_entries()
}

/// The history of entries that are known to be lawful.
fn with_entries(alloc: Global, entries: Vec<Entry>) -> Result<EntryList, Memory>
    requires { IsLawful (first_entry ∷ entries.items) }
    ensures { IfOk result (λ h. h ≡ first_entry ∷ entries.items) }
{
    lawful_histories_are_counted_by_t();
    lawful_histories_are_small();
    let mut history = EntryList::first(alloc)?;
    for entry in entries {
        history = history.with(entry)?;
    }
    Ok(history)
}

/// What the entries are, one after another.
fn judged_one_by_one(alloc: Global, entries: Vec<Entry>) -> Result<Judged, Memory>
    ensures { IfOk result (IsJudged entries.items) }
{
    let mut judged = Judged::first(alloc)?;
    for entry in entries {
        judged = judged.with(alloc, entry)?;
    }
    Ok(judged)
}

/// What the entries so far are, after the first one of every history.
#[derive(Drop)]
enum Judged {
    /// A lawful history, with its schema.
    Lawful { held: Held, schema: Schema },
    /// The first of them that may not follow those before it, and the least law that it breaks. What follows it is
    /// not judged.
    Unlawful { t: u32, law: u8 },
}

impl Judged {
    /// No entry yet.
    fn first(alloc: Global) -> Result<Judged, Memory>
        ensures { IfOk result (IsJudged []) }
    {
        first_is_lawful();
        let held = Held::first(alloc)?;
        let entries = EntryList::first(alloc)?;
        let schema = Schema::first(alloc, entries.at(0))?;
        Ok(Judged::Lawful { held, schema })
    }

    /// With the entry that comes next.
    fn with(self, alloc: Global, entry: Entry) -> Result<Judged, Memory>
        requires { (entries : List Entry) × IsJudged entries self }
        ensures { IfOk result (λ judged. (entries : List Entry) → IsJudged entries self
            → IsJudged (entries ++ entry ∷ []) judged) }
    {
        match self {
            Judged::Lawful { held, schema } => followed(alloc, held, schema, entry),
            Judged::Unlawful { t, law } => Ok(Judged::Unlawful { t, law }),
        }
    }

    /// The history, where it is lawful.
    fn into_entries(self) -> Result<EntryList, OpenFault>
        ensures lawful { IfOk result (λ h. (entries : List Entry) → IsJudged entries self
            → (h ≡ first_entry ∷ entries) × IsLawful h) }
        ensures unlawful { IfErr result (λ fault. (entries : List Entry) → IsJudged entries self
            → MatchesFault fault (log_reading (hold entries))) }
    {
        match self {
            Judged::Lawful { held, .. } => Ok(held.into_entries()),
            Judged::Unlawful { t, law } => Err(OpenFault::Unlawful { t, law }),
        }
    }
}

/// The history with the entry, where it may follow.
fn followed(alloc: Global, held: Held, schema: Schema, entry: Entry) -> Result<Judged, Memory>
    requires lawful { IsLawful held }
    requires schema { SchemaStands schema held }
    ensures { IfOk result (IsFollowed held entry) }
{
    the_least_law_is_none_where_all_are_kept();
    lawful_entries_make_lawful_histories();
    lawful_histories_are_counted_by_t();
    lawful_histories_are_small();
    if let Some(law) = lawful(alloc, &entry, &held, &schema)? {
        let t = held.basis() + 1;
        return Ok(Judged::Unlawful { t, law });
    }
    let schema = schema.of_entry(&entry)?;
    let held = held.add(entry)?;
    Ok(Judged::Lawful { held, schema })
}
