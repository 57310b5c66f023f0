//! The text of a form: one space between the members of a collection, and none elsewhere.
ghost use Rattle.std.specs.Prelude.{◌≡◌, ℕ, [], ◌∷◌, ◌++◌, OnOk, OnErr};
ghost use Rattle.edn_model.specs.Form as model;
ghost use Rattle.edn_model.specs.Readable.{IsReadable};
ghost use Rattle.edn_model.specs.Canon.{Canon, CanonAll, CanonPairs};
ghost use Rattle.edn_form.specs.View.{form_of, forms_of, pairs_of};
ghost use Rattle.edn_print.specs.Printed.{Appends, Encloses, KeepsFront, space_before};
ghost use Rattle.edn_print.specs.Printable.{printable, printables, printable_pairs};

use crate::instant::print_instant;
use crate::token::{
    append, print_bool, print_int, print_key, print_nil, print_str, print_sym, print_uuid,
};
use edn_form::Edn;
use fb_memory::Memory;

/// Appends the canonical text of the form. An instant that no text names, which no reader gives, is printed as the
/// nearest one that has a text. The recursion is as deep as the form.
pub fn print(form: &Edn, out: &mut Vec<u8>) -> Result<(), Memory>
    ensures text { OnOk result
        (Appends (Canon (printable (form_of form.now))) out.old.items out.new.items) }
    // A form that a reader can give is printed as it is.
    ensures readable { OnOk result ((depth : ℕ) → IsReadable depth (form_of form.now)
        → Appends (Canon (form_of form.now)) out.old.items out.new.items) }
    ensures err { OnErr result (out.new.items ≡ out.old.items) }
{
    let len = out.len();
    if let Err(error) = print_form(form, out) {
        out.truncate(len);
        return Err(error);
    }
    Ok(())
}

/// On an error part of the text may be there.
#[cycle(print)]
fn print_form(form: &Edn, out: &mut Vec<u8>) -> Result<(), Memory>
    ensures ok { OnOk result
        (Appends (Canon (printable (form_of form.now))) out.old.items out.new.items) }
    ensures kept { KeepsFront out.old.items out.new.items }
{
    match form {
        Edn::Nil => print_nil(out),
        Edn::Bool(b) => print_bool(out, *b),
        Edn::Int(n) => print_int(out, *n),
        Edn::Str(text) => print_str(out, text.as_str()),
        Edn::Sym(text) => print_sym(out, text.as_str()),
        Edn::Key(text) => print_key(out, text.as_str()),
        Edn::List(items) => print_items(items.as_slice(), b"(", b')', out),
        Edn::Vector(items) => print_items(items.as_slice(), b"[", b']', out),
        Edn::Map(pairs) => print_pairs(pairs.as_slice(), out),
        Edn::Set(items) => print_items(items.as_slice(), b"#{", b'}', out),
        Edn::Inst(millis) => print_instant(out, *millis),
        Edn::Uuid(uuid) => print_uuid(out, *uuid),
    }
}

/// The members between their brackets.
#[cycle(print)]
fn print_items(items: &[Edn], opening: &[u8], closing: u8, out: &mut Vec<u8>) -> Result<(), Memory>
    ensures ok { OnOk result (Appends
        (Encloses opening.now closing (CanonAll (printables (model.forms (forms_of items.now)))))
        out.old.items out.new.items) }
    ensures kept { KeepsFront out.old.items out.new.items }
{
    append(out, opening)?;
    for (index, item) in items.iter().enumerate() {
        separate(index, out)?;
        print_form(item, out)?;
    }
    append(out, &[closing])
}

/// The keys, each with its value after it, between braces.
#[cycle(print)]
fn print_pairs(pairs: &[(Edn, Edn)], out: &mut Vec<u8>) -> Result<(), Memory>
    ensures ok { OnOk result (Appends
        (Encloses (123 ∷ []) 125 (CanonPairs (printable_pairs (model.pairs (pairs_of pairs.now)))))
        out.old.items out.new.items) }
    ensures kept { KeepsFront out.old.items out.new.items }
{
    append(out, b"{")?;
    for (index, (key, value)) in pairs.iter().enumerate() {
        separate(index, out)?;
        print_form(key, out)?;
        append(out, b" ")?;
        print_form(value, out)?;
    }
    append(out, b"}")
}

/// A space comes before each member but the first.
fn separate(index: usize, out: &mut Vec<u8>) -> Result<(), Memory>
    ensures ok { OnOk result (out.new.items ≡ out.old.items ++ space_before index) }
    ensures kept { KeepsFront out.old.items out.new.items }
{
    match index {
        0 => Ok(()),
        _ => append(out, b" "),
    }
}
