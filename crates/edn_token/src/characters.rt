//! Bytes that are to be characters.
ghost use Rattle.std.specs.Prelude.{◌≡◌, if◌then◌else◌, MatchResult, IsUtf8, length, drop};
ghost use Rattle.std.specs.Str.{IsValidUpTo};
ghost use Rattle.edn_model.specs.Bytes as text;
ghost use Rattle.edn_token.specs.Fronts.{TokenFront, BrokenToken};

use crate::bytes::{begins_no_token, split_token};
use std::str;

/// The bytes as a text, or how many of them are whole characters before the first that begins none.
pub(crate) fn characters(bytes: &[u8]) -> Result<&str, usize>
    ensures { MatchResult result (λ s. (s.now ≡ bytes.now) × IsUtf8 bytes.now)
        (IsValidUpTo bytes.now) }
{
    match str::from_utf8(bytes) {
        Ok(s) => Ok(s),
        Err(e) => Err(e.valid_up_to()),
    }
}

/// The characters in front, up to the first byte that ends a token. Where some of the bytes are no characters, the place
/// of the first fault among them: of the first byte where no token begins with it, else of the first with which no
/// character does.
pub fn read_token(here: &[u8]) -> Result<&str, usize>
    ensures { MatchResult result
        (λ s. TokenFront here.now s.now (drop (length s.now) here.now))
        (BrokenToken here.now) }
{
    let (run, _) = split_token(here);
    match characters(run) {
        Ok(token) => Ok(token),
        Err(at) => Err(first_fault(here, at)),
    }
}

/// Where a token's bytes are first at fault, of which the one at a place begins no character.
fn first_fault(here: &[u8], at: usize) -> usize
    ensures { result ≡ (if text.begins_no_token here.now then 0 else at) }
{
    if begins_no_token(here) { 0 } else { at }
}
