//! The members of a reply's vectors: datoms, and transactions with their datoms. No form is made of them, so they take little
//! memory but for the line itself.
ghost use Rattle.std.specs.Prelude.{◌≡◌, ◌∷◌, ◌++◌, [], IsTrue, OnOk, if◌then◌else◌, codes, map};
ghost use Rattle.edn_model.specs.Form.{forms};
ghost use Rattle.edn_model.specs.Canon.{Canon, CanonAll};
ghost use Rattle.edn_values.specs.Values.{form_of_value};
ghost use Rattle.edn_print.specs.Printed.{Appends};
ghost use Rattle.talk_model.specs.Replies.{attribute, datom_form, transaction_form};
ghost use Rattle.fb_replies.specs.Texts.{has_text, have_texts, entries_have_texts};

use crate::tokens::{append, append_count, append_entity, append_keyword, append_long, separate};
use edn_print::print;
use edn_values::as_edn;
use fb_memory::Memory;
use fb_numbers::transaction_entity;
use fb_schema::Schema;
use fb_values::{Datom, Entry, Value};

/// Each transaction as a map.
pub(crate) fn append_transactions(
    line: &mut Vec<u8>,
    schema: &Schema,
    entries: &[&Entry],
) -> Result<(), Memory>
    requires { IsTrue (entries_have_texts (map (λ entry. entry.now) entries.now)) }
    ensures { OnOk result (Appends
        (CanonAll
        (forms (map (transaction_form schema.now) (map (λ entry. entry.now) entries.now))))
        line.old.items line.new.items) }
{
    for (index, entry) in entries.iter().enumerate() {
        separate(line, index)?;
        append_transaction(line, schema, entry)?;
    }
    Ok(())
}

/// `{:t 1 :data [..]}`
fn append_transaction(line: &mut Vec<u8>, schema: &Schema, entry: &Entry) -> Result<(), Memory>
    requires { IsTrue (have_texts entry.now.datoms) }
    ensures { OnOk result (Appends (Canon (transaction_form schema.now entry.now))
        line.old.items line.new.items) }
{
    append(line, b"{:t ")?;
    append_count(line, u64::from(entry.t))?;
    append(line, b" :data [")?;
    append_owned(line, schema, entry.datoms.as_slice())?;
    append(line, b"]}")
}

/// Each datom that an entry has as a vector. They are lent first, so that there is one loop, which has the code of a datom in
/// its body.
fn append_owned(line: &mut Vec<u8>, schema: &Schema, datoms: &[Datom]) -> Result<(), Memory>
    requires { IsTrue (have_texts datoms.now) }
    ensures { OnOk result (Appends (CanonAll (forms (map (datom_form schema.now) datoms.now)))
        line.old.items line.new.items) }
{
    let lent: Vec<&Datom> = datoms.iter().collect(*line.allocator())?;
    append_lent(line, schema, &lent)
}

/// Each datom as a vector.
pub(crate) fn append_lent(
    line: &mut Vec<u8>,
    schema: &Schema,
    datoms: &[&Datom],
) -> Result<(), Memory>
    requires { IsTrue (have_texts (map (λ d. d.now) datoms.now)) }
    ensures { OnOk result (Appends
        (CanonAll (forms (map (datom_form schema.now) (map (λ d. d.now) datoms.now))))
        line.old.items line.new.items) }
{
    for (index, d) in datoms.iter().enumerate() {
        separate(line, index)?;
        append_datom(line, schema, d)?;
    }
    Ok(())
}

/// `[17592186044417 :db/doc "hi" 13194139533313 true]`
fn append_datom(line: &mut Vec<u8>, schema: &Schema, d: &Datom) -> Result<(), Memory>
    requires { IsTrue (has_text d.now.v) }
    ensures { OnOk result
        (Appends (Canon (datom_form schema.now d.now)) line.old.items line.new.items) }
{
    append(line, b"[")?;
    append_entity(line, d.e)?;
    append(line, b" ")?;
    append_attribute(line, schema, d.a)?;
    append(line, b" ")?;
    append_value(line, &d.v)?;
    append(line, b" ")?;
    append_entity(line, transaction_entity(d.t))?;
    close_datom(line, d.added)
}

/// An attribute by its keyword, and what is none by its number.
fn append_attribute(line: &mut Vec<u8>, schema: &Schema, a: u64) -> Result<(), Memory>
    ensures { OnOk result (Appends (Canon (attribute schema.now a)) line.old.items line.new.items) }
{
    match schema.attribute(a) {
        Some(known) => append_keyword(line, known.ident.as_str()),
        None => append_entity(line, a),
    }
}

/// Numbers are written as they are; of another value the printer of forms is given one that shares its text.
pub(crate) fn append_value(line: &mut Vec<u8>, v: &Value) -> Result<(), Memory>
    requires { IsTrue (has_text v.now) }
    ensures { OnOk result (Appends (Canon (form_of_value v.now)) line.old.items line.new.items) }
{
    match v {
        Value::Long(n) => append_long(line, *n),
        Value::Ref(e) => append_entity(line, *e),
        _ => append_printed(line, v),
    }
}

fn append_printed(line: &mut Vec<u8>, v: &Value) -> Result<(), Memory>
    requires { IsTrue (has_text v.now) }
    ensures { OnOk result (Appends (Canon (form_of_value v.now)) line.old.items line.new.items) }
{
    let form = as_edn(v)?;
    print(&form, line)
}

/// Whether the datom was added, and the end of its vector.
fn close_datom(line: &mut Vec<u8>, added: bool) -> Result<(), Memory>
    ensures { OnOk result (line.new.items ≡ line.old.items
        ++ 32 ∷ ((if added then codes "true" else codes "false") ++ 93 ∷ [])) }
{
    if added {
        append(line, b" true]")
    } else {
        append(line, b" false]")
    }
}
