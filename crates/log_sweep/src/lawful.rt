//! Both parts of the judging: each entry alone, and all datoms together.
ghost use Rattle.std.specs.Prelude.{◌≡◌, IfOk, IsTrue, List, [], ◌∷◌};
ghost use Rattle.fb_values.specs.declared.facts.Datom.{Datom};
ghost use Rattle.fb_values.specs.declared.facts.Entry.{Entry};
ghost use Rattle.fb_model.specs.FirstEntry.{first_entry};
ghost use Rattle.fb_model.specs.History.{said};
ghost use Rattle.fb_model.specs.Lawful.{IsLawful};
ghost use Rattle.fb_schema.specs.Described.{SchemaStands};
ghost use Rattle.log_sweep.specs.Alone.{KeepAlone};
ghost use Rattle.log_sweep.specs.Groups.{KeepTogether};

use crate::alone::schema_after;
use crate::together::keep_together;
use fb_history::EntryList;
use fb_memory::Memory;
use fb_values::Entry;
use std::alloc::Global;

/// Whether the entries are known to be lawful after the first entry of every history. It answers `false` where one of them
/// breaks a law, and where one says more of an attribute that was there than whether it is indexed.
pub fn is_lawful(alloc: Global, entries: &[Entry]) -> Result<bool, Memory>
    ensures { IfOk result (λ yes. IsTrue yes → IsLawful (first_entry ∷ entries.now)) }
{
    let history = EntryList::first(alloc)?;
    are_lawful_after(alloc, history.at(0), entries)
}

fn are_lawful_after(alloc: Global, first: &Entry, entries: &[Entry]) -> Result<bool, Memory>
    requires { first.now ≡ first_entry }
    ensures { IfOk result (λ yes. IsTrue yes → IsLawful (first_entry ∷ entries.now)) }
{
    what_is_kept_makes_a_lawful_history();
    match schema_after(alloc, first, entries)? {
        Some(schema) => keep_together(alloc, &schema, first, entries),
        None => Ok(false),
    }
}

/// Entries of which each keeps what is asked of it alone, and all keep what is asked of them together, make a lawful
/// history.
fn what_is_kept_makes_a_lawful_history()
    ensures { (schema : List Datom) (entries : List Entry) → KeepAlone (first_entry ∷ []) entries
        → SchemaStands schema (first_entry ∷ entries)
        → KeepTogether schema (said (first_entry ∷ entries)) → IsLawful (first_entry ∷ entries) }
{}
