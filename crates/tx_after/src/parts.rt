//! The changes of one entity.
ghost use Rattle.std.specs.Prelude.{◌≡◌, ◌≤◌, length, filter, IsTrue};
ghost use Rattle.fb_values.specs.declared.indexes.Order.TheVariants.{Eavt};
ghost use Rattle.fb_values.specs.Rising.{rises};
ghost use Rattle.fb_facts.specs.FactLists.{is_of_entity};
ghost use Rattle.tx_after.specs.Places as places;

use fb_values::Datom;

/// The changes of the entity, found by a search.
pub fn part_of(changes: &[Datom], e: u64) -> &[Datom]
    requires { IsTrue (rises Eavt changes.now) }
    ensures { result.now ≡ filter (is_of_entity e) changes.now }
{
    let rest = &changes[place_of(changes, e)..];
    &rest[..front_of(rest, e)]
}

/// The first place of a change that is of no entity below this one.
fn place_of(changes: &[Datom], e: u64) -> usize
    requires { IsTrue (rises Eavt changes.now) }
    ensures within { result ≤ length changes.now }
    ensures place { result ≡ places.place_of e changes.now }
{
    let mut from = 0;
    let mut to = changes.len();
    while from < to {
        let middle = from + (to - from) / 2;
        if changes[middle].e < e {
            from = middle + 1;
        } else {
            to = middle;
        }
    }
    from
}

/// How many datoms at the front are of the entity.
fn front_of(datoms: &[Datom], e: u64) -> usize
    ensures within { result ≤ length datoms.now }
    ensures front { result ≡ places.front_of e datoms.now }
{
    let mut to = 0;
    while to < datoms.len() && datoms[to].e == e {
        to += 1;
    }
    to
}
