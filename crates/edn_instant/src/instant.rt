//! Instants: a date, and a time of day or none.
ghost use Rattle.std.specs.Prelude.{◌≡◌, ◌<◌, ℤ, MatchOption};
ghost use Rattle.edn_model.specs.Instants.{instant_of, in_range, IsInstant};

use crate::dates::date;
use crate::times::time;

/// 0001-01-01T00:00:00.000Z.
const FIRST: i64 = -62_135_596_800_000;

/// 9999-12-31T23:59:59.999Z.
const LAST: i64 = 253_402_300_799_999;

/// The instant that a text of RFC 3339 says, in milliseconds from 1970-01-01T00:00:00Z. The time of day may be left out, and so
/// may its offset: the instant is in UTC then.
pub fn read_instant(text: &[u8]) -> Option<i64>
    ensures { MatchOption result ((z : ℤ) → ¬ IsInstant z text.now) (λ z. IsInstant z text.now) }
{
    let (day, rest) = date(text)?;
    let Some((mark, rest)) = rest.split_first() else {
        return Some(instant_of(day, 0, 0));
    };
    if *mark != b'T' {
        return None;
    }
    let (millis, ahead) = time(rest)?;
    let instant = instant_of(day, millis, ahead);
    if in_range(instant) {
        Some(instant)
    } else {
        None
    }
}

fn instant_of(day: i32, millis: u32, ahead: i32) -> i64
    ensures { result ≡ instant_of day millis ahead }
{
    i64::from(day) * 86_400_000 + i64::from(millis) - i64::from(ahead) * 60_000
}

fn in_range(instant: i64) -> bool
    ensures { result ≡ in_range instant }
{
    (FIRST..=LAST).contains(&instant)
}
