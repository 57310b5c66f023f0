//! How much room the bytes of an entry take.
ghost use Rattle.std.specs.Prelude.{◌≡◌, ◌^◌, ◌-◌, ◌+◌, min, length};
ghost use Rattle.tx_model.specs.Size.{value_size, entry_size};

use fb_values::{Datom, Value};

/// The bytes of an entry that records nothing.
const EMPTY_ENTRY: usize = 17;

/// The bytes of a datom without its value.
const BARE_DATOM: usize = 17;

/// The bytes of an entry with these datoms, or the greatest number if they are more: no memory has as much room.
pub(crate) fn room_for(datoms: &[Datom]) -> usize
    ensures { result ≡ min (entry_size datoms.now) (2 ^ 64 - 1) }
{
    let mut room = EMPTY_ENTRY;
    for datom in datoms {
        room = room.saturating_add(datom_room(datom));
    }
    room
}

fn datom_room(datom: &Datom) -> usize
    ensures { result ≡ min (17 + value_size datom.now.v) (2 ^ 64 - 1) }
{
    BARE_DATOM.saturating_add(value_room(&datom.v))
}

fn value_room(v: &Value) -> usize
    ensures { result ≡ min (value_size v.now) (2 ^ 64 - 1) }
{
    match v {
        Value::Keyword(text) => text_room(text.len()),
        Value::Str(text) => text_room(text.len()),
        Value::Bool(_) => 2,
        Value::Long(_) => 9,
        Value::Ref(_) => 9,
        Value::Instant(_) => 9,
        Value::Uuid(_) => 17,
        Value::Symbol(text) => text_room(text.len()),
        Value::Uri(text) => text_room(text.len()),
    }
}

/// With the tag and the length in front.
fn text_room(len: usize) -> usize
    ensures { result ≡ min (5 + len) (2 ^ 64 - 1) }
{
    len.saturating_add(5)
}
