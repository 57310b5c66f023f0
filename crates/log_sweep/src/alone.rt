//! Each entry alone: what the laws ask of it where the latest numbers of its history and its schema are known.
ghost use Rattle.std.specs.Prelude.{◌∷◌, ◌++◌, [], List, IfOk, IfSome};
ghost use Rattle.fb_values.specs.declared.facts.Entry.{Entry};
ghost use Rattle.fb_schema.specs.Described.{SchemaStands};
ghost use Rattle.log_sweep.specs.Alone.{KeepsAlone, KeepAlone, IsKnownOf};

use crate::describing::describe_well;
use fb_memory::Memory;
use fb_schema::Schema;
use fb_values::Entry;
use std::alloc::Global;
use tx_laws::{Latest, keeps_own_laws};

/// What is known of the history so far.
#[derive(Drop)]
struct Known {
    latest: Latest,
    schema: Schema,
}

/// The schema after the entries, where each of them keeps what the laws ask of it alone.
pub fn schema_after(
    alloc: Global,
    first: &Entry,
    entries: &[Entry],
) -> Result<Option<Schema>, Memory>
    ensures { IfOk result (λ found. IfSome found (λ schema. KeepAlone (first.now ∷ []) entries.now
        × SchemaStands schema (first.now ∷ entries.now))) }
{
    let mut known = Known::first(alloc, first)?;
    for entry in entries {
        match known.with(alloc, entry)? {
            Some(next) => known = next,
            None => return Ok(None),
        }
    }
    Ok(Some(known.schema))
}

impl Known {
    fn first(alloc: Global, first: &Entry) -> Result<Known, Memory>
        ensures { IfOk result (λ known. IsKnownOf known (first.now ∷ [])) }
    {
        let schema = Schema::first(alloc, first)?;
        Ok(Known {
            latest: Latest::none().with(first),
            schema,
        })
    }

    /// What is known with the entry, where it keeps what the laws ask of it alone.
    fn with(&self, alloc: Global, entry: &Entry) -> Result<Option<Known>, Memory>
        ensures { IfOk result (λ found. IfSome found (λ known. (h : List Entry)
            → IsKnownOf self.now h
            → KeepsAlone h entry.now × IsKnownOf known (h ++ entry.now ∷ []))) }
    {
        let keeps_own_laws = keeps_own_laws(alloc, entry, &self.latest, &self.schema)?;
        if !keeps_own_laws {
            return Ok(None);
        }
        let schema = self.schema.of_entry(entry)?;
        if !describe_well(&self.schema, &schema, entry.datoms.as_slice()) {
            return Ok(None);
        }
        Ok(Some(Known {
            latest: self.latest.with(entry),
            schema,
        }))
    }
}
