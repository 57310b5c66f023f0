//! The letters after a backslash.
ghost use Rattle.std.specs.Prelude.{◌≡◌, ◌<◌, ◌≤◌, ◌∷◌, Some, None, if◌then◌else◌, length, MatchOption};
ghost use Rattle.std.specs.Str.{byte};
ghost use Rattle.edn_model.specs.Bytes.{backslash, Each};
ghost use Rattle.edn_model.specs.Tokens as text;
ghost use Rattle.edn_token.specs.Strings.{hex_number, PieceIs};

use crate::piece::Piece;

const BACKSPACE: u8 = 0x08;

const FORM_FEED: u8 = 0x0c;

/// The escape whose backslash is before these bytes.
pub(crate) fn read_escape(behind: &[u8]) -> Piece<'_>
    ensures { PieceIs (backslash ∷ behind.now) result }
{
    let Some((letter, digits)) = behind.split_first() else {
        return Piece::Cut;
    };
    if *letter == b'u' {
        return read_code(digits);
    }
    match escape_of(*letter) {
        None => Piece::Bad { at: 0 },
        Some(c) => Piece::Char {
            c: char::from(c),
            len: 2,
        },
    }
}

/// The character that a backslash and this letter spell, but for the `u` of a code.
pub fn escape_of(letter: u8) -> Option<u8>
    ensures { result ≡ text.escape_of letter }
{
    match letter {
        b't' => Some(b'\t'),
        b'r' => Some(b'\r'),
        b'n' => Some(b'\n'),
        b'\\' => Some(b'\\'),
        b'"' => Some(b'"'),
        b'b' => Some(BACKSPACE),
        b'f' => Some(FORM_FEED),
        _ => None,
    }
}

/// The escape whose backslash and `u` are before these bytes.
fn read_code(digits: &[u8]) -> Piece<'_>
    ensures { PieceIs (backslash ∷ byte "u" ∷ digits.now) result }
{
    if digits.len() < 4 {
        return read_short_code(digits);
    }
    let (front, _) = digits.split_at(4);
    let Some(code) = code_of(front) else {
        return Piece::Bad { at: 0 };
    };
    match char::from_u32(code) {
        None => Piece::Bad { at: 0 },
        Some(c) => Piece::Char { c, len: 6 },
    }
}

/// A code where the input ends before a fourth digit.
fn read_short_code(digits: &[u8]) -> Piece<'_>
    requires { length digits.now < 4 }
    ensures { PieceIs (backslash ∷ byte "u" ∷ digits.now) result }
{
    match code_of(digits) {
        None => Piece::Bad { at: 0 },
        Some(_) => Piece::Cut,
    }
}

/// The number that these are the digits of, where each of them is a hexadecimal digit.
fn code_of(digits: &[u8]) -> Option<u32>
    requires { length digits.now ≤ 4 }
    ensures { MatchOption result
        (¬ Each text.is_hex_digit digits.now)
        (λ n. Each text.is_hex_digit digits.now × (n ≡ hex_number digits.now)) }
{
    let mut n: u32 = 0;
    for b in digits {
        let Some(value) = hex_value(*b) else {
            return None;
        };
        n = n * 16 + u32::from(value);
    }
    Some(n)
}

/// The value of a hexadecimal digit in either case.
pub fn hex_value(digit: u8) -> Option<u8>
    ensures { result ≡ (if text.is_hex_digit digit then Some (text.hex_value digit) else None) }
{
    match digit {
        b'0'..=b'9' => Some(digit - b'0'),
        b'a'..=b'f' => Some(digit - b'a' + 10),
        b'A'..=b'F' => Some(digit - b'A' + 10),
        _ => None,
    }
}
