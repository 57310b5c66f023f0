//! Numbers of a few bits that stand for an entity, an attribute or a value.
ghost use Rattle.std.specs.Prelude.{◌≡◌, ◌*◌, ◌<◌, ◌≤◌, ◌^◌, get_or};
ghost use Rattle.fb_values.specs.Orders.{type_place};
ghost use Rattle.fb_prefix.specs.Parts.{held as model_held, entity_part as model_entity_part, attribute_part as model_attribute_part, front, sixteen as model_sixteen, raised as model_raised, number_part as model_number_part, content as model_content, value_part as model_value_part, signed_part as model_signed_part};

use fb_numbers::USER_ENTITIES;
use fb_text::Text;
use fb_values::Value;

/// The first bits of something, as a number. Where it is not whole, others have the same number.
#[derive(Clone, Copy)]
pub struct Part {
    pub n: u64,
    pub is_whole: bool,
}

fn held(n: u64, most: u64) -> Part
    ensures { result ≡ model_held n most }
{
    Part {
        n: n.min(most),
        is_whole: n < most,
    }
}

/// In 48 bits.
pub fn entity_part(e: u64) -> Part
    ensures { result ≡ model_entity_part e }
{
    held(e, (1 << 48) - 1)
}

/// In 14 bits.
pub fn attribute_part(a: u64) -> Part
    ensures { result ≡ model_attribute_part a }
{
    if a < 1024 {
        Part {
            n: a,
            is_whole: true,
        }
    } else if a < USER_ENTITIES {
        Part {
            n: 1024,
            is_whole: false,
        }
    } else {
        held(1025 + (a - USER_ENTITIES), (1 << 14) - 1)
    }
}

/// The byte at a place of a text, 0 past its end.
fn byte_at(bytes: &[u8], place: usize) -> u8
    ensures { result ≡ get_or bytes.now place 0 }
{
    if place < bytes.len() { bytes[place] } else { 0 }
}

fn front_of(text: &Text) -> u128
    ensures { result ≡ front 16 text.now }
{
    let bytes = text.as_str().as_bytes();
    let mut n: u128 = 0;
    for i in 0..16 {
        n = n * 256 + u128::from(byte_at(bytes, i));
    }
    n
}

/// The bytes of a uuid, and the first ones of a text, as a number of 128 bits.
pub fn sixteen(v: &Value) -> Option<u128>
    ensures { result ≡ model_sixteen v.now }
{
    match v {
        Value::Keyword(text) | Value::Str(text) | Value::Symbol(text) | Value::Uri(text) => {
            Some(front_of(text))
        }
        Value::Uuid(n) => Some(*n),
        _ => None,
    }
}

fn place_of_type(v: &Value) -> u64
    ensures value { result ≡ type_place v.now }
    ensures bound { result < 9 }
{
    match v {
        Value::Keyword(_) => 0,
        Value::Str(_) => 1,
        Value::Bool(_) => 2,
        Value::Long(_) => 3,
        Value::Ref(_) => 4,
        Value::Instant(_) => 5,
        Value::Uuid(_) => 6,
        Value::Symbol(_) => 7,
        Value::Uri(_) => 8,
    }
}

/// Counted from the least number of a range of which zero is the middle.
fn raised(middle: u64, z: i64) -> u64
    requires { middle ≤ 2 ^ 59 }
    ensures { result ≡ model_raised middle z }
{
    if z < 0 {
        middle.saturating_sub(z.unsigned_abs())
    } else {
        middle + z.unsigned_abs()
    }
}

fn signed_part(middle: u64, z: i64) -> Part
    requires top { middle ≤ 2 ^ 59 }
    requires some { 0 < middle }
    ensures { result ≡ model_signed_part middle z }
{
    let n = raised(middle, z);
    let most = 2 * middle - 1;
    Part {
        n: n.min(most),
        is_whole: 0 < n && n < most,
    }
}

/// What a value that is no text and no uuid says, in a range of twice the middle.
fn number_part(middle: u64, v: &Value) -> Part
    requires top { middle ≤ 2 ^ 59 }
    requires some { 1 < middle }
    ensures value { result ≡ model_number_part middle v.now }
    ensures bound { result.n < 2 * middle }
{
    match v {
        Value::Bool(b) => Part {
            n: u64::from(*b),
            is_whole: true,
        },
        Value::Long(z) | Value::Instant(z) => signed_part(middle, *z),
        Value::Ref(n) => held(*n, 2 * middle - 1),
        _ => Part {
            n: 0,
            is_whole: false,
        },
    }
}

/// In 64 bits, four of them for the type.
pub fn value_in_64(v: &Value) -> Part
    ensures { result ≡ model_value_part (2 ^ 59) v.now }
{
    let part = match sixteen(v) {
        Some(bytes) => Part {
            n: (bytes >> 68) as u64,
            is_whole: false,
        },
        None => number_part(1 << 59, v),
    };
    Part {
        n: place_of_type(v) * (1 << 60) + part.n,
        is_whole: part.is_whole,
    }
}

/// In 50 bits, four of them for the type. `bytes` are the value's first sixteen, if it has any.
pub fn value_in_50(v: &Value, bytes: Option<u128>) -> Part
    requires { bytes ≡ model_sixteen v.now }
    ensures { result ≡ model_value_part (2 ^ 45) v.now }
{
    let part = match bytes {
        Some(bytes) => Part {
            n: (bytes >> 82) as u64,
            is_whole: false,
        },
        None => number_part(1 << 45, v),
    };
    Part {
        n: place_of_type(v) * (1 << 46) + part.n,
        is_whole: part.is_whole,
    }
}
