//! Keywords and symbols.
ghost use Rattle.std.specs.Prelude.{◌≡◌, ◌↔◌, ◌⊎◌, [], ◌∷◌, IsTrue};
ghost use Rattle.std.specs.List.{list_all};
ghost use Rattle.edn_model.specs.Bytes as kinds;
ghost use Rattle.edn_model.specs.Bytes.{slash, begins};
ghost use Rattle.edn_model.specs.Tokens as tokens;
ghost use Rattle.edn_model.specs.Tokens.{IsName, Joined, IsKeywordName};
ghost use Rattle.edn_token.specs.Names.{IsSymbolOrWord};

use crate::bytes::{is_name_byte, split_name};

/// Whether the bytes are one name of a keyword, or two joined by a slash.
pub(crate) fn are_keyword_names(text: &[u8]) -> bool
    ensures { IsTrue result
        ↔ (IsKeywordName text.now ⊎ Joined IsKeywordName IsKeywordName text.now) }
{
    let (first, rest) = split_name(text);
    let Some((b, second)) = rest.split_first() else {
        return begins_keyword(first);
    };
    if *b != b'/' {
        return false;
    }
    begins_keyword(first) && is_keyword_name(second)
}

fn is_keyword_name(text: &[u8]) -> bool
    ensures { IsTrue result ↔ IsKeywordName text.now }
{
    is_name(text) && begins_keyword(text)
}

fn begins_keyword(text: &[u8]) -> bool
    ensures { result ≡ tokens.begins_keyword text.now }
{
    match text.first() {
        None => false,
        Some(b) => *b != b':' && *b != b'#',
    }
}

/// Whether the bytes are a symbol or a reserved word, if they are characters.
pub(crate) fn is_symbol_or_word(text: &[u8]) -> bool
    ensures { IsTrue result ↔ IsSymbolOrWord text.now }
{
    is_slash(text) || (begins_symbol(text) && are_names(text))
}

fn is_slash(text: &[u8]) -> bool
    ensures { IsTrue result ↔ (text.now ≡ slash ∷ []) }
{
    match text.split_first() {
        None => false,
        Some((first, others)) => *first == b'/' && others.is_empty(),
    }
}

fn begins_symbol(text: &[u8]) -> bool
    ensures { result ≡ tokens.begins_symbol text.now }
{
    match text.split_first() {
        None => false,
        Some((first, others)) => {
            !first.is_ascii_digit()
                && *first != b':'
                && *first != b'#'
                && !(matches!(*first, b'.' | b'+' | b'-') && begins_digit(others))
        }
    }
}

fn begins_digit(bytes: &[u8]) -> bool
    ensures { result ≡ begins kinds.is_digit bytes.now }
{
    match bytes.first() {
        None => false,
        Some(b) => b.is_ascii_digit(),
    }
}

fn are_names(text: &[u8]) -> bool
    ensures { IsTrue result ↔ (IsName text.now ⊎ Joined IsName IsName text.now) }
{
    let (first, rest) = split_name(text);
    let Some((b, second)) = rest.split_first() else {
        return !first.is_empty();
    };
    if *b != b'/' {
        return false;
    }
    !first.is_empty() && is_name(second)
}

fn is_name(text: &[u8]) -> bool
    ensures { IsTrue result ↔ IsName text.now }
{
    !text.is_empty() && are_name_bytes(text)
}

fn are_name_bytes(text: &[u8]) -> bool
    ensures { result ≡ list_all kinds.is_name_byte text.now }
{
    text.iter().all(|b| is_name_byte(*b))
}
