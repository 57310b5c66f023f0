//! The entities of tempids.
ghost use Rattle.std.specs.Prelude.{◌≡◌, ◌<◌, ◌^◌, [], ◌∷◌, ◌++◌, IfOk, filter_map, slice_get};
ghost use Rattle.tx_resolve.specs.Numbers.{entity_next, number_next, numbered as model_numbered, with_entity};

use crate::holders::Slot;
use crate::whom::TempidName;
use fb_memory::Memory;
use fb_numbers::user_entity;
use fb_text::Text;
use std::alloc::Global;
use std::collections::BTreeMap;

/// The entity of each tempid, by its place: the holder of an identity value, or else the next user entity. There are far
/// fewer user entities than numbers left: less than 2^47 are issued, and no list has as many tempids.
pub fn numbered(alloc: Global, slots: &[Slot], users: u64) -> Result<Vec<u64>, Memory>
    requires { users < 2 ^ 47 }
    ensures { IfOk result (λ entities. entities.items ≡ model_numbered slots.now users) }
{
    let mut entities = Vec::with_capacity(alloc, slots.len())?;
    let mut n = users;
    for slot in slots {
        n = push_next(&mut entities, n, slot.first)?;
    }
    Ok(entities)
}

/// The answer is the greatest user number in use then.
fn push_next(entities: &mut Vec<u64>, n: u64, holder: Option<u64>) -> Result<u64, Memory>
    requires { n < 2 ^ 63 }
    ensures next { IfOk result (λ next. next ≡ number_next holder n) }
    ensures entity { IfOk result
        (λ _. entities.new.items ≡ entities.old.items ++ entity_next holder n ∷ []) }
{
    match holder {
        None => {
            entities.push(user_entity(n + 1))?;
            Ok(n + 1)
        }
        Some(e) => {
            entities.push(e)?;
            Ok(n)
        }
    }
}

/// The entity of the tempid with the place.
pub fn entity_at(entities: &[u64], place: usize) -> Option<u64>
    ensures { result ≡ slice_get entities.now place }
{
    entities.get(place).copied()
}

/// The tempids with a name, by its bytes, where these are their places.
pub fn told(
    alloc: Global,
    named: &BTreeMap<TempidName<'_>, usize>,
    entities: &[u64],
) -> Result<Vec<(Text, u64)>, Memory>
    ensures { IfOk result
        (λ list. list.items ≡ filter_map (with_entity entities.now) named.now.entries) }
{
    let mut list = Vec::with_capacity(alloc, named.len())?;
    for (name, place) in named {
        if let Some(e) = entity_at(entities, *place) {
            list.push((name.text().copy()?, e))?;
        }
    }
    Ok(list)
}
