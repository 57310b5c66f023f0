//! The ranges of a datom's numbers.
ghost use Rattle.fb_preds.specs.Datoms.{IsDatom, IsValue};

use fb_values::{Datom, Value};

/// The numbers of a datom lie in the ranges of their types.
pub fn numbers_in_range(d: &Datom)
    ensures { IsDatom d.now }
{
    let _e = d.e;
    let _a = d.a;
    let _t = d.t;
    value_in_range(&d.v);
}

fn value_in_range(v: &Value)
    ensures { IsValue v.now }
{
    match v {
        Value::Long(n) => {
            let _n = *n;
        }
        Value::Instant(n) => {
            let _n = *n;
        }
        Value::Ref(n) => {
            let _n = *n;
        }
        Value::Uuid(n) => {
            let _n = *n;
        }
        Value::Keyword(text) | Value::Str(text) | Value::Symbol(text) | Value::Uri(text) => {
            let _text = text.as_str();
        }
        Value::Bool(_) => {}
    }
}
