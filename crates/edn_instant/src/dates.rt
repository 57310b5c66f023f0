//! Dates: `YYYY-MM-DD`.
ghost use Rattle.std.specs.Prelude.{◌≡◌, ◌<◌, ⊤, pos, ℤ, MatchOption};
ghost use Rattle.jiff_core.specs.Calendar.{IsEpochDay, days_from_civil};
ghost use Rattle.edn_model.specs.Instants.{IsDate};
ghost use Rattle.edn_instant.specs.Fronts.{Front, NoFront, IsDay};

use crate::digits::{behind, four, two};
use jiff_core::civil::Date;

/// The day number of a date, and what follows.
pub fn date(bytes: &[u8]) -> Option<(i32, &[u8])>
    ensures value { MatchOption result ((day : ℤ) → NoFront (IsDate day) bytes.now)
        (λ r. Front (IsDate r.0) bytes.now r.1.now) }
    ensures bound { MatchOption result ⊤ (λ r. IsEpochDay r.0) }
{
    let (year, rest) = four(bytes)?;
    let (month, rest) = two(behind(b'-', rest)?)?;
    let (day, rest) = two(behind(b'-', rest)?)?;
    Some((day_number(year, month, day)?, rest))
}

/// The day number of a day that the calendar has, from the year 1 on.
fn day_number(year: u32, month: u32, day: u32) -> Option<i32>
    requires year { year < 10000 }
    requires month { month < 100 }
    requires day { day < 100 }
    ensures value { MatchOption result (¬ IsDay year month day)
        (λ n. IsDay year month day × (n ≡ days_from_civil (pos year) month day)) }
    ensures bound { MatchOption result ⊤ IsEpochDay }
{
    if year == 0 {
        return None;
    }
    match Date::new(year as i16, month as i8, day as i8) {
        Ok(date) => Some(date.to_unix_epoch_day()),
        Err(_) => None,
    }
}
