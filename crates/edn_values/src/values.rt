//! A form as a value, and a value as a form. A text is shared, never copied.
ghost use Rattle.std.specs.Prelude.{◌≡◌, IfOk};
ghost use Rattle.edn_form.specs.View.{form_of};
ghost use Rattle.tx_model.specs.Values.{value_in, read_as as model_read_as};
ghost use Rattle.edn_values.specs.Values.{value_of_form, form_of_value, entity_of as model_entity_of, number_of_entity as model_number_of_entity};

use crate::types::is_of_type;
use edn_form::Edn;
use fb_memory::Memory;
use fb_numbers::{TYPE_REF, TYPE_URI};
use fb_values::Value;

/// The value that the form is under the type with this entity: none where it is of another type or too long.
pub fn as_value(kind: u64, form: &Edn) -> Result<Option<Value>, Memory>
    ensures { IfOk result (λ v. v ≡ value_of_form kind (form_of form.now)) }
{
    match form {
        Edn::Int(n) if kind == TYPE_REF => Ok(entity_of(*n)),
        _ => plain_value(kind, form),
    }
}

/// The value that the form is by itself.
fn plain_value(kind: u64, form: &Edn) -> Result<Option<Value>, Memory>
    ensures { IfOk result (λ v. v ≡ value_in kind (form_of form.now)) }
{
    let Some(v) = read_as(kind, form)? else {
        return Ok(None);
    };
    Ok(if is_of_type(kind, &v) { Some(v) } else { None })
}

fn entity_of(n: i64) -> Option<Value>
    ensures { result ≡ model_entity_of n }
{
    if n < 0 {
        None
    } else {
        Some(Value::Ref(n as u64))
    }
}

/// The value that the form is, whatever its length. Only a string can be one of two types.
fn read_as(kind: u64, form: &Edn) -> Result<Option<Value>, Memory>
    ensures { IfOk result (λ v. v ≡ model_read_as kind (form_of form.now)) }
{
    Ok(match form {
        Edn::Key(text) => Some(Value::Keyword(text.copy()?)),
        Edn::Str(text) if kind == TYPE_URI => Some(Value::Uri(text.copy()?)),
        Edn::Str(text) => Some(Value::Str(text.copy()?)),
        Edn::Bool(b) => Some(Value::Bool(*b)),
        Edn::Int(n) => Some(Value::Long(*n)),
        Edn::Inst(millis) => Some(Value::Instant(*millis)),
        Edn::Uuid(n) => Some(Value::Uuid(*n)),
        Edn::Sym(text) => Some(Value::Symbol(text.copy()?)),
        Edn::Nil | Edn::List(_) | Edn::Vector(_) | Edn::Map(_) | Edn::Set(_) => None,
    })
}

/// The form in which the value is printed.
pub fn as_edn(v: &Value) -> Result<Edn, Memory>
    ensures { IfOk result (λ form. form_of form ≡ form_of_value v.now) }
{
    Ok(match v {
        Value::Keyword(text) => Edn::Key(text.copy()?),
        Value::Str(text) | Value::Uri(text) => Edn::Str(text.copy()?),
        Value::Bool(b) => Edn::Bool(*b),
        Value::Long(n) => Edn::Int(*n),
        Value::Ref(entity) => Edn::Int(number_of_entity(*entity)),
        Value::Instant(millis) => Edn::Inst(*millis),
        Value::Uuid(n) => Edn::Uuid(*n),
        Value::Symbol(text) => Edn::Sym(text.copy()?),
    })
}

/// Every number past the greatest integer is printed as that integer; no entity has it.
fn number_of_entity(entity: u64) -> i64
    ensures { result ≡ model_number_of_entity entity }
{
    entity.min(i64::MAX as u64) as i64
}
