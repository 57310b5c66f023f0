//! What a table is asked: the last place of a name, and what a value is.
ghost use Rattle.std.specs.Prelude.{◌≡◌, ◌<◌, length, IfSome};
ghost use Rattle.fb_preds.specs.Table.{last_place, is_negative as model_is_negative};

use crate::filters::NamedFilter;
use fb_text::Text;
use fb_values::Value;

/// The place of the last filter with the name.
pub fn last_named<S, K>(filters: &[NamedFilter<S, K>], name: &Text) -> Option<usize>
    ensures last { result ≡ last_place name.now filters.now }
    ensures within { IfSome result (λ place. place < length filters.now) }
{
    let mut end = filters.len();
    while end > 0 {
        end -= 1;
        if filters[end].name.as_str() == name.as_str() {
            return Some(end);
        }
    }
    None
}

/// Whether the value is a long below zero.
pub fn is_negative(v: &Value) -> bool
    ensures { result ≡ model_is_negative v.now }
{
    match v {
        Value::Long(n) => *n < 0,
        _ => false,
    }
}
