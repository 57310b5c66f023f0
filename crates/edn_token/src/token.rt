//! What a token is.
ghost use Rattle.std.specs.Prelude.{◌≡◌, ◌∷◌, ℕ, ℤ, List, IsUtf8};
ghost use Rattle.edn_model.specs.Bytes.{hash, colon};
ghost use Rattle.edn_model.specs.Tokens.{IsNumeral};
ghost use Rattle.edn_token.specs.Judged.{TokenIs, BeginsWord, NoWord, NoTag, Unsigned, MarkIs};

use crate::bytes::{is_letter, split_digits};
use crate::name::{are_keyword_names, is_symbol_or_word};
use crate::number::{Number, read_numeral};

#[derive(Clone, Copy, Debug, PartialEq, Eq)]
pub enum Token {
    Nil,
    Bool(bool),
    Int(i64),
    /// The token is its text.
    Symbol,
    /// The token is its text after the colon.
    Keyword,
    /// The tag of an instant.
    Inst,
    /// The tag of an identifier.
    Uuid,
    Unsupported(What),
    /// None of the language.
    Bad,
}

/// What EDN has and this reader does not.
#[derive(Clone, Copy, Debug, PartialEq, Eq)]
pub enum What {
    Char,
    Float,
    BigInt,
    /// An integer of more than 64 bits.
    Wide,
    NamespacedMap,
    Tag,
}

pub fn judge(token: &str) -> Token
    ensures { TokenIs token.now result }
{
    let Some((first, behind)) = token.as_bytes().split_first() else {
        return Token::Bad;
    };
    match *first {
        b':' => judge_keyword(behind),
        b'\\' => Token::Unsupported(What::Char),
        b'#' => judge_tag(token, behind),
        _ => judge_word(token),
    }
}

/// The name of a keyword, given with its colon.
pub fn keyword_name(token: &str) -> &str
    ensures { (name : List ℕ) → token.now ≡ colon ∷ name → result.now ≡ name }
{
    match token.split_at_checked(1) {
        None => token,
        Some((_, name)) => name,
    }
}

/// What a colon and these bytes are.
fn judge_keyword(behind: &[u8]) -> Token
    ensures { IsUtf8 behind.now → TokenIs (colon ∷ behind.now) result }
{
    if are_keyword_names(behind) {
        Token::Keyword
    } else {
        Token::Bad
    }
}

/// What a token is that is a hash and these bytes.
fn judge_tag(token: &str, behind: &[u8]) -> Token
    ensures { token.now ≡ hash ∷ behind.now → TokenIs token.now result }
{
    if token == "#inst" {
        Token::Inst
    } else if token == "#uuid" {
        Token::Uuid
    } else {
        judge_other_tag(token, behind)
    }
}

fn judge_other_tag(token: &str, behind: &[u8]) -> Token
    ensures { token.now ≡ hash ∷ behind.now → NoTag token.now → TokenIs token.now result }
{
    let Some((second, _)) = behind.split_first() else {
        return Token::Bad;
    };
    if *second == b'#' {
        Token::Unsupported(What::Float)
    } else if *second == b':' {
        Token::Unsupported(What::NamespacedMap)
    } else if is_letter(*second) {
        Token::Unsupported(What::Tag)
    } else {
        Token::Bad
    }
}

/// What a token is that begins with none of the marks of keywords, tags and characters.
fn judge_word(token: &str) -> Token
    ensures { BeginsWord token.now → TokenIs token.now result }
{
    if token == "nil" {
        Token::Nil
    } else if token == "true" {
        Token::Bool(true)
    } else if token == "false" {
        Token::Bool(false)
    } else if is_symbol_or_word(token.as_bytes()) {
        Token::Symbol
    } else {
        judge_number(token.as_bytes())
    }
}

fn judge_number(token: &[u8]) -> Token
    ensures { NoWord token.now → TokenIs token.now result }
{
    match read_numeral(token) {
        Some(Number::Long(n)) => Token::Int(n),
        Some(Number::Wide) => Token::Unsupported(What::Wide),
        None => judge_mark(token),
    }
}

/// What a token is that is no integer.
fn judge_mark(token: &[u8]) -> Token
    ensures { NoWord token.now → ((z : ℤ) → ¬ IsNumeral z token.now) → TokenIs token.now result }
{
    let Some(mark) = mark_of(token) else {
        return Token::Bad;
    };
    match mark {
        b'.' | b'M' | b'e' | b'E' => Token::Unsupported(What::Float),
        b'N' => Token::Unsupported(What::BigInt),
        _ => Token::Bad,
    }
}

/// The byte after an optional sign and digits.
fn mark_of(token: &[u8]) -> Option<u8>
    ensures { MarkIs token.now result }
{
    let (digits, rest) = split_digits(unsigned(token));
    if digits.is_empty() {
        return None;
    }
    rest.first().copied()
}

/// What follows a sign, where there is one.
fn unsigned(token: &[u8]) -> &[u8]
    ensures { Unsigned token.now result.now }
{
    let Some((first, behind)) = token.split_first() else {
        return token;
    };
    match *first {
        b'+' => behind,
        b'-' => behind,
        _ => token,
    }
}
