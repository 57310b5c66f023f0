//! Kinds of bytes, and the runs of one kind in front of others.
ghost use Rattle.std.specs.Prelude.{◌≡◌, ◌||◌, IsTrue};
ghost use Rattle.std.specs.List.{prefix_len};
ghost use Rattle.edn_model.specs.Bytes as text;
ghost use Rattle.edn_model.specs.Runs.{IsRun};

fn is_blank(b: u8) -> bool
    ensures { result ≡ text.is_blank b }
{
    matches!(b, 9..=13 | b' ' | b',')
}

fn ends_token(b: u8) -> bool
    ensures { result ≡ text.ends_token b }
{
    is_blank(b) || matches!(b, b'(' | b')' | b'[' | b']' | b'{' | b'}' | b'"' | b';')
}

fn is_token_byte(b: u8) -> bool
    ensures { result ≡ text.is_token_byte b }
{
    is_common(b) || !ends_token(b)
}

/// Whether the byte is one of those that most tokens are made of, and which end none: letters, digits, and from a minus on
/// to a colon. The lower case is asked for first, since most bytes are of it.
fn is_common(b: u8) -> bool
    ensures { IsTrue result → IsTrue (text.is_token_byte b) }
{
    if b >= b'a' {
        b <= b'z'
    } else {
        matches!(b, b'-'..=b':' | b'A'..=b'Z')
    }
}

fn is_plain(b: u8) -> bool
    ensures { result ≡ text.is_plain b }
{
    b != b'"' && b != b'\\'
}

fn is_sign(b: u8) -> bool
    ensures { result ≡ text.is_sign b }
{
    matches!(b, b'.' | b'*' | b'+' | b'!' | b'-' | b'_' | b'?' | b'$')
        || matches!(b, b'%' | b'&' | b'=' | b'<' | b'>' | b':' | b'#')
}

pub fn is_letter(b: u8) -> bool
    ensures { result ≡ text.is_letter b }
{
    matches!(b, b'A'..=b'Z' | b'a'..=b'z')
}

fn is_letter_or_digit(b: u8) -> bool
    ensures { result ≡ (text.is_letter b || text.is_digit b) }
{
    if b >= b'a' {
        b <= b'z'
    } else {
        matches!(b, b'0'..=b'9' | b'A'..=b'Z')
    }
}

/// Whether the byte may be in a name; each byte of a character past ASCII may.
pub fn is_name_byte(b: u8) -> bool
    ensures { result ≡ text.is_name_byte b }
{
    is_letter_or_digit(b) || is_sign(b) || b >= 128
}

/// The white space in front, and what follows.
pub fn split_blank(bytes: &[u8]) -> (&[u8], &[u8])
    ensures { IsRun text.is_blank bytes.now result.0.now result.1.now }
{
    bytes.split_at(blank_len(bytes))
}

fn blank_len(bytes: &[u8]) -> usize
    ensures { result ≡ prefix_len text.is_blank bytes.now }
{
    bytes.iter().take_while(|b| is_blank(**b)).count()
}

/// The bytes before the first that ends a token, and what follows.
pub fn split_token(bytes: &[u8]) -> (&[u8], &[u8])
    ensures { IsRun text.is_token_byte bytes.now result.0.now result.1.now }
{
    bytes.split_at(token_len(bytes))
}

fn token_len(bytes: &[u8]) -> usize
    ensures { result ≡ prefix_len text.is_token_byte bytes.now }
{
    bytes.iter().take_while(|b| is_token_byte(**b)).count()
}

/// Whether the first byte ends no token, and no token begins with it.
pub fn begins_no_token(bytes: &[u8]) -> bool
    ensures { result ≡ text.begins_no_token bytes.now }
{
    match bytes.first() {
        None => false,
        Some(b) => is_token_byte(*b) && !may_begin_token(*b),
    }
}

/// Whether a token may begin with the byte.
fn may_begin_token(b: u8) -> bool
    ensures { result ≡ text.may_begin_token b }
{
    is_name_byte(b) || matches!(b, b'/' | b'\\')
}

/// The bytes in front that are themselves in a string, and what follows.
pub fn split_plain(bytes: &[u8]) -> (&[u8], &[u8])
    ensures { IsRun text.is_plain bytes.now result.0.now result.1.now }
{
    bytes.split_at(plain_len(bytes))
}

fn plain_len(bytes: &[u8]) -> usize
    ensures { result ≡ prefix_len text.is_plain bytes.now }
{
    bytes.iter().take_while(|b| is_plain(**b)).count()
}

/// The bytes before the first line feed, and what follows.
pub fn split_line(bytes: &[u8]) -> (&[u8], &[u8])
    ensures { IsRun text.is_line_byte bytes.now result.0.now result.1.now }
{
    bytes.split_at(line_len(bytes))
}

fn line_len(bytes: &[u8]) -> usize
    ensures { result ≡ prefix_len text.is_line_byte bytes.now }
{
    bytes.iter().take_while(|b| **b != b'\n').count()
}

/// The digits in front, and what follows.
pub fn split_digits(bytes: &[u8]) -> (&[u8], &[u8])
    ensures { IsRun text.is_digit bytes.now result.0.now result.1.now }
{
    bytes.split_at(digits_len(bytes))
}

fn digits_len(bytes: &[u8]) -> usize
    ensures { result ≡ prefix_len text.is_digit bytes.now }
{
    bytes.iter().take_while(|b| b.is_ascii_digit()).count()
}

/// The bytes in front that may be in a name, and what follows.
pub fn split_name(bytes: &[u8]) -> (&[u8], &[u8])
    ensures { IsRun text.is_name_byte bytes.now result.0.now result.1.now }
{
    bytes.split_at(name_len(bytes))
}

fn name_len(bytes: &[u8]) -> usize
    ensures { result ≡ prefix_len text.is_name_byte bytes.now }
{
    bytes.iter().take_while(|b| is_name_byte(**b)).count()
}
