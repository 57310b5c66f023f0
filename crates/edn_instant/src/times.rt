//! Times of day, fractions of a second and offsets from UTC.
ghost use Rattle.std.specs.Prelude.{◌≡◌, ◌≤◌, ◌*◌, ◌/◌, ◌^◌, ℕ, ℤ, pos, neg_ℤ, ⊤, length, MatchOption};
ghost use Rattle.jiff_core.specs.Calendar.{IsBetween};
ghost use Rattle.edn_model.specs.Bytes.{is_digit, Each};
ghost use Rattle.edn_model.specs.Tokens.{number};
ghost use Rattle.edn_model.specs.Instants.{IsOffset};
ghost use Rattle.edn_instant.specs.Fronts.{Front, NoFront, IsClock, IsSeconds, IsEnding, IsTimeOf};

use crate::digits::{behind, split_digits, two};
use edn_token::magnitude;

const LAST_HOUR: u32 = 23;

const LAST_MINUTE: u32 = 59;

const LAST_SECOND: u32 = 59;

/// A time of day and its offset from UTC, up to the end: its milliseconds from midnight, and how many minutes its clock is
/// ahead.
pub fn time(bytes: &[u8]) -> Option<(u32, i32)>
    ensures value { MatchOption result
        ((millis : ℕ) (ahead : ℤ) → ¬ IsTimeOf millis ahead bytes.now)
        (λ r. IsTimeOf r.0 r.1 bytes.now) }
    ensures bound { MatchOption result ⊤ (λ r. IsBetween (neg_ℤ (pos 1439)) (pos 1439) r.1) }
{
    let (seconds, rest) = seconds(bytes)?;
    let (millis, ahead) = ending(rest)?;
    Some((seconds * 1000 + millis, ahead))
}

/// The minutes of `hh:mm`, and what follows.
fn clock(bytes: &[u8]) -> Option<(u32, &[u8])>
    ensures { MatchOption result ((minutes : ℕ) → NoFront (IsClock minutes) bytes.now)
        (λ r. Front (IsClock r.0) bytes.now r.1.now) }
{
    let (hour, rest) = two(bytes)?;
    let (minute, rest) = two(behind(b':', rest)?)?;
    if hour > LAST_HOUR || minute > LAST_MINUTE {
        return None;
    }
    Some((hour * 60 + minute, rest))
}

/// The seconds of `hh:mm:ss`, and what follows.
fn seconds(bytes: &[u8]) -> Option<(u32, &[u8])>
    ensures { MatchOption result ((seconds : ℕ) → NoFront (IsSeconds seconds) bytes.now)
        (λ r. Front (IsSeconds r.0) bytes.now r.1.now) }
{
    let (minutes, rest) = clock(bytes)?;
    let (second, rest) = two(behind(b':', rest)?)?;
    if second > LAST_SECOND {
        return None;
    }
    Some((minutes * 60 + second, rest))
}

/// A fraction of a second, in milliseconds, and an offset.
fn ending(bytes: &[u8]) -> Option<(u32, i32)>
    ensures value { MatchOption result
        ((millis : ℕ) (ahead : ℤ) → ¬ IsEnding millis ahead bytes.now)
        (λ r. IsEnding r.0 r.1 bytes.now) }
    ensures bound { MatchOption result ⊤
        (λ r. (r.0 ≤ 999) × IsBetween (neg_ℤ (pos 1439)) (pos 1439) r.1) }
{
    let Some(rest) = behind(b'.', bytes) else {
        return Some((0, offset(bytes)?));
    };
    let (digits, rest) = split_digits(rest);
    if digits.is_empty() || digits.len() > 9 {
        return None;
    }
    Some((millis_of(digits), offset(rest)?))
}

/// The whole milliseconds of a fraction's digits.
fn millis_of(digits: &[u8]) -> u32
    requires digits { Each is_digit digits.now }
    requires few { length digits.now ≤ 9 }
    ensures value { result ≡ number digits.now * 1000 / 10 ^ length digits.now }
    ensures bound { result ≤ 999 }
{
    match magnitude(digits) {
        Some(n) => (n * 1000 / power_of_ten(digits.len())) as u32,
        None => unreachable!(),
    }
}

fn power_of_ten(exponent: usize) -> u64
    requires { exponent ≤ 9 }
    ensures { result ≡ 10 ^ exponent }
{
    match exponent {
        0 => 1,
        1 => 10,
        2 => 100,
        3 => 1000,
        4 => 10_000,
        5 => 100_000,
        6 => 1_000_000,
        7 => 10_000_000,
        8 => 100_000_000,
        _ => 1_000_000_000,
    }
}

/// How many minutes a clock with this offset is ahead of UTC.
fn offset(bytes: &[u8]) -> Option<i32>
    ensures value { MatchOption result ((ahead : ℤ) → ¬ IsOffset ahead bytes.now)
        (λ ahead. IsOffset ahead bytes.now) }
    ensures bound { MatchOption result ⊤ (λ ahead. IsBetween (neg_ℤ (pos 1439)) (pos 1439) ahead) }
{
    let Some((mark, rest)) = bytes.split_first() else {
        return Some(0);
    };
    match *mark {
        b'Z' if rest.is_empty() => Some(0),
        b'+' => Some(whole_clock(rest)? as i32),
        b'-' => Some(-(whole_clock(rest)? as i32)),
        _ => None,
    }
}

/// The minutes of `hh:mm` with nothing after it.
fn whole_clock(bytes: &[u8]) -> Option<u32>
    ensures { MatchOption result ((minutes : ℕ) → ¬ IsClock minutes bytes.now)
        (λ minutes. IsClock minutes bytes.now) }
{
    let (minutes, rest) = clock(bytes)?;
    if rest.is_empty() { Some(minutes) } else { None }
}
