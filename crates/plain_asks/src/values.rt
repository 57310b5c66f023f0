//! The value that a form is under an attribute of a type.
use edn_form::Edn;
use edn_values::{is_keyword_text, is_symbol_text, is_uri_text};
use fb_memory::Memory;
use fb_numbers::{
    LONGEST_NAME, LONGEST_STRING, TYPE_BOOLEAN, TYPE_INSTANT, TYPE_KEYWORD, TYPE_LONG, TYPE_STRING,
    TYPE_SYMBOL, TYPE_URI, TYPE_UUID, is_instant,
};
use fb_text::Text;
use fb_values::Value;

/// The value of the type, where the form is one. An entity is no plain value.
pub fn value_in(kind: u64, f: &Edn) -> Result<Option<Value>, Memory> {
    Ok(match f {
        Edn::Key(k) if kind == TYPE_KEYWORD && is_name(k) && is_keyword_text(k.as_str()) => {
            Some(Value::Keyword(k.copy()?))
        }
        Edn::Sym(s) if kind == TYPE_SYMBOL && is_name(s) && is_symbol_text(s.as_str()) => {
            Some(Value::Symbol(s.copy()?))
        }
        Edn::Str(s) if kind == TYPE_URI && is_name(s) && is_uri_text(s.as_str().as_bytes()) => {
            Some(Value::Uri(s.copy()?))
        }
        Edn::Str(s) if kind == TYPE_STRING && s.len() <= LONGEST_STRING => {
            Some(Value::Str(s.copy()?))
        }
        Edn::Bool(b) if kind == TYPE_BOOLEAN => Some(Value::Bool(*b)),
        Edn::Int(n) if kind == TYPE_LONG => Some(Value::Long(*n)),
        Edn::Inst(millis) if kind == TYPE_INSTANT && is_instant(*millis) => {
            Some(Value::Instant(*millis))
        }
        Edn::Uuid(n) if kind == TYPE_UUID => Some(Value::Uuid(*n)),
        _ => None,
    })
}

/// Whether it is as short as a keyword, a symbol or a uri has to be.
fn is_name(text: &Text) -> bool {
    text.len() <= LONGEST_NAME
}
