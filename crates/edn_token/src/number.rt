//! The numbers that digits spell.
ghost use Rattle.std.specs.Prelude.{◌≡◌, ◌≤◌, ◌^◌, ◌↔◌, IsTrue, MatchOption};
ghost use Rattle.std.specs.List.{list_all};
ghost use Rattle.std.specs.Prelude.{pos, neg_ℤ};
ghost use Rattle.edn_token.specs.Numerals.{DigitsAre, NumeralIs};
ghost use Rattle.edn_model.specs.Bytes.{is_digit, Each};
ghost use Rattle.edn_model.specs.Tokens.{number, IsDecimal};

/// The number that the digits spell, where it has 64 bits.
pub fn magnitude(digits: &[u8]) -> Option<u64>
    requires { Each is_digit digits.now }
    ensures { MatchOption result (2 ^ 64 ≤ number digits.now) (λ n. n ≡ number digits.now) }
{
    let mut n: u64 = 0;
    for b in digits {
        let tens = n.checked_mul(10)?;
        n = tens.checked_add(u64::from(*b - b'0'))?;
    }
    Some(n)
}

/// Whether these are the digits of a number, without a leading zero.
pub fn is_decimal(digits: &[u8]) -> bool
    ensures { IsTrue result ↔ IsDecimal (number digits.now) digits.now }
{
    let Some((first, others)) = digits.split_first() else {
        return false;
    };
    are_digits(digits) && (*first != b'0' || others.is_empty())
}

/// Whether each byte is a digit.
pub fn are_digits(bytes: &[u8]) -> bool
    ensures { result ≡ list_all is_digit bytes.now }
{
    bytes.iter().all(|b| b.is_ascii_digit())
}

/// An integer, or that it has no 64 bits.
#[derive(Clone, Copy, Debug, PartialEq, Eq)]
pub enum Number {
    Long(i64),
    Wide,
}

/// The first number past those of 64 bits with a sign; after a minus it is still one.
const WIDE: u64 = 1 << 63;

/// The number of digits without a sign, or after a plus.
pub fn positive(digits: &[u8]) -> Option<Number>
    ensures { DigitsAre pos digits.now result }
{
    if !is_decimal(digits) {
        return None;
    }
    match magnitude(digits) {
        Some(n) if n < WIDE => Some(Number::Long(n as i64)),
        _ => Some(Number::Wide),
    }
}

/// The number of digits after a minus.
pub fn negative(digits: &[u8]) -> Option<Number>
    ensures { DigitsAre (λ n. neg_ℤ (pos n)) digits.now result }
{
    if !is_decimal(digits) {
        return None;
    }
    match magnitude(digits) {
        Some(n) if n < WIDE => Some(Number::Long(-(n as i64))),
        Some(n) if n == WIDE => Some(Number::Long(i64::MIN)),
        _ => Some(Number::Wide),
    }
}

/// The integer that the token is.
pub fn read_numeral(token: &[u8]) -> Option<Number>
    ensures { NumeralIs token.now result }
{
    let Some((first, digits)) = token.split_first() else {
        return None;
    };
    match *first {
        b'+' => positive(digits),
        b'-' => negative(digits),
        _ => positive(token),
    }
}
