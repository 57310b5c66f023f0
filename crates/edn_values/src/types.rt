//! Types of values.
ghost use Rattle.std.specs.Prelude.{◌≡◌};
ghost use Rattle.fb_numbers.specs.Numbers.{is_long as model_is_long, is_reference as model_is_reference, is_uuid as model_is_uuid};
ghost use Rattle.fb_model.specs.Utf8.{is_utf8_text as model_is_utf8_text};
ghost use Rattle.fb_model.specs.Types.{type_of as model_type_of, is_of_type as model_is_of_type, is_well_formed as model_is_well_formed, is_short_enough as model_is_short_enough};

use crate::words::{is_keyword_text, is_symbol_text, is_uri_text};
use fb_numbers::{
    LONGEST_NAME, LONGEST_STRING, TYPE_BOOLEAN, TYPE_INSTANT, TYPE_KEYWORD, TYPE_LONG, TYPE_REF,
    TYPE_STRING, TYPE_SYMBOL, TYPE_URI, TYPE_UUID, is_instant,
};
use fb_values::Value;

/// The entity of the value's type.
pub fn type_of(v: &Value) -> u64
    ensures { result ≡ model_type_of v.now }
{
    match v {
        Value::Keyword(_) => TYPE_KEYWORD,
        Value::Str(_) => TYPE_STRING,
        Value::Bool(_) => TYPE_BOOLEAN,
        Value::Long(_) => TYPE_LONG,
        Value::Ref(_) => TYPE_REF,
        Value::Instant(_) => TYPE_INSTANT,
        Value::Uuid(_) => TYPE_UUID,
        Value::Symbol(_) => TYPE_SYMBOL,
        Value::Uri(_) => TYPE_URI,
    }
}

/// Whether an attribute of the type may have the value: it is of the type, and not too long.
pub fn is_of_type(kind: u64, v: &Value) -> bool
    ensures { result ≡ model_is_of_type kind v.now }
{
    type_of(v) == kind && is_well_formed(v) && is_short_enough(v)
}

fn is_well_formed(v: &Value) -> bool
    ensures { result ≡ model_is_well_formed v.now }
{
    match v {
        Value::Keyword(text) => is_utf8_text(text.as_str()) && is_keyword_text(text.as_str()),
        Value::Str(text) => is_utf8_text(text.as_str()),
        Value::Bool(_) => true,
        Value::Long(n) => is_long(*n),
        Value::Ref(entity) => is_reference(*entity),
        Value::Instant(millis) => is_instant(*millis),
        Value::Uuid(n) => is_uuid(*n),
        Value::Symbol(text) => is_utf8_text(text.as_str()) && is_symbol_text(text.as_str()),
        Value::Uri(text) => is_uri_text(text.as_str().as_bytes()),
    }
}

/// Every `str` is in UTF-8.
fn is_utf8_text(text: &str) -> bool
    ensures { result ≡ model_is_utf8_text text.now }
{
    true
}

/// Every `i64` is in the range of longs.
fn is_long(n: i64) -> bool
    ensures { result ≡ model_is_long n }
{
    true
}

/// Every `u64` is in the range of references.
fn is_reference(n: u64) -> bool
    ensures { result ≡ model_is_reference n }
{
    true
}

/// Every `u128` is in the range of uuids.
fn is_uuid(n: u128) -> bool
    ensures { result ≡ model_is_uuid n }
{
    true
}

fn is_short_enough(v: &Value) -> bool
    ensures { result ≡ model_is_short_enough v.now }
{
    match v {
        Value::Keyword(text) | Value::Symbol(text) | Value::Uri(text) => text.len() <= LONGEST_NAME,
        Value::Str(text) => text.len() <= LONGEST_STRING,
        _ => true,
    }
}
