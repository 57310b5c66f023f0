//! What holds of one leaf's datoms. They rise, so a datom and the next one show whether its triple holds.
ghost use Rattle.std.specs.Prelude.{◌≡◌, ◌+◌, ◌<◌, ◌++◌, false, length, drop, slice_index_or, IfOk};
ghost use Rattle.std.specs.Option.{option_copied, option_map_or};
ghost use Rattle.fb_model.specs.Facts.{is_of};
ghost use Rattle.live_runs.specs.Members.{nothing};
ghost use Rattle.live_index.specs.Splits.{stands_at};
ghost use Rattle.fact_trees.specs.Facts.{first_or, facts_before, all_stand};

use fb_memory::Memory;
use fb_values::Datom;

/// Whether all of them hold, where the next datom follows them.
pub fn all_stand(datoms: &[Datom], next: Option<&Datom>) -> bool
    ensures { result ≡ all_stand datoms.now (option_copied next.entry) }
{
    for place in 0..datoms.len() {
        if !stands(datoms, place, next) {
            return false;
        }
    }
    true
}

/// The list with copies of those that hold after it.
pub fn with_facts(
    list: Vec<Datom>,
    datoms: &[Datom],
    next: Option<&Datom>,
) -> Result<Vec<Datom>, Memory>
    ensures { IfOk result (λ new. new.items
        ≡ list.items ++ facts_before datoms.now (option_copied next.entry)) }
{
    let mut list = list;
    for place in 0..datoms.len() {
        if stands(datoms, place, next) {
            datoms[place].copy_into(&mut list)?;
        }
    }
    Ok(list)
}

/// Whether the datom at the place is an addition, and the one after it is of another triple.
fn stands(datoms: &[Datom], place: usize, next: Option<&Datom>) -> bool
    requires { place < length datoms.now }
    ensures { result ≡ stands_at (slice_index_or datoms.now place nothing)
        (first_or (drop (place + 1) datoms.now) (option_copied next.entry)) }
{
    let datom = &datoms[place];
    datom.added && !is_followed(datom, first_or(&datoms[place + 1..], next))
}

fn first_or<'a>(datoms: &'a [Datom], next: Option<&'a Datom>) -> Option<&'a Datom>
    ensures { option_copied result ≡ first_or datoms.now (option_copied next.entry) }
{
    if datoms.is_empty() {
        next
    } else {
        Some(&datoms[0])
    }
}

/// Whether the datom after it, if there is one, is of its triple.
fn is_followed(datom: &Datom, next: Option<&Datom>) -> bool
    ensures { result ≡ option_map_or (is_of datom.now.e datom.now.a datom.now.v)
        (option_copied next.entry) false }
{
    match next {
        None => false,
        Some(next) => next.e == datom.e && next.a == datom.a && next.v == datom.v,
    }
}
