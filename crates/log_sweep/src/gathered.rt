//! References to the datoms of all entries.
ghost use Rattle.std.specs.Prelude.{◌≡◌, ◌++◌, ◌∷◌, IfOk, OnOk, filter};
ghost use Rattle.fb_model.specs.History.{said};
ghost use Rattle.fb_model.specs.Schema.{is_unique};
ghost use Rattle.log_sweep.specs.Groups.{lent};

use fb_memory::Memory;
use fb_schema::Schema;
use fb_values::{Datom, Entry};
use std::alloc::Global;

/// The datoms of the entries, one entry after another.
pub fn datoms_of<'a>(
    alloc: Global,
    first: &'a Entry,
    entries: &'a [Entry],
) -> Result<Vec<&'a Datom>, Memory>
    ensures { IfOk result (λ list. lent list.items ≡ said (first.now ∷ entries.now)) }
{
    let room = room_of(entries).saturating_add(first.datoms.len());
    let mut list = Vec::with_capacity(alloc, room)?;
    push_datoms(&mut list, first)?;
    for entry in entries {
        push_datoms(&mut list, entry)?;
    }
    Ok(list)
}

/// How many datoms the entries have, or the greatest number where they have more.
fn room_of(entries: &[Entry]) -> usize {
    let mut room: usize = 0;
    for entry in entries {
        room = room.saturating_add(entry.datoms.len());
    }
    room
}

fn push_datoms<'a>(list: &mut Vec<&'a Datom>, entry: &'a Entry) -> Result<(), Memory>
    ensures { OnOk result (lent list.new.items ≡ lent list.old.items ++ entry.now.datoms) }
{
    for d in entry.datoms.as_slice() {
        list.push(d)?;
    }
    Ok(())
}

/// Those under unique attributes.
pub fn unique_ones<'a>(
    alloc: Global,
    schema: &Schema,
    datoms: &[&'a Datom],
) -> Result<Vec<&'a Datom>, Memory>
    ensures { IfOk result
        (λ list. lent list.items ≡ filter (λ d. is_unique schema.now d.a) (lent datoms.now)) }
{
    let mut list = Vec::new(alloc);
    for d in datoms {
        if schema.is_unique(d.a) {
            list.push(*d)?;
        }
    }
    Ok(list)
}
