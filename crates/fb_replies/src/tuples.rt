//! The rows of a composite: each tuple as a vector of its members, and its entity.
ghost use Rattle.std.specs.Prelude.{IsTrue, true, OnOk, map};
ghost use Rattle.std.specs.Option.{option_map, option_map_or};
ghost use Rattle.edn_model.specs.Form.{forms};
ghost use Rattle.edn_model.specs.Canon.{Canon, CanonAll};
ghost use Rattle.edn_print.specs.Printed.{Appends};
ghost use Rattle.talk_model.specs.Replies.{member_form, row_form};
ghost use Rattle.fb_tuples.specs.Lent.{model_row, tuple_lent};
ghost use Rattle.fb_replies.specs.Texts.{has_text, members_have_texts, rows_have_texts};

use crate::datoms::append_value;
use crate::tokens::{append, append_entity, separate};
use fb_memory::Memory;
use fb_tuples::LentRow;
use fb_values::Value;

/// Each row as a vector.
pub(crate) fn append_rows(line: &mut Vec<u8>, rows: &[LentRow<'_>]) -> Result<(), Memory>
    requires { IsTrue (rows_have_texts (map model_row rows.now)) }
    ensures { OnOk result (Appends (CanonAll (forms (map row_form (map model_row rows.now))))
        line.old.items line.new.items) }
{
    for (index, row) in rows.iter().enumerate() {
        separate(line, index)?;
        append_row(line, row)?;
    }
    Ok(())
}

/// `[[1 nil] 17592186044420]`
fn append_row(line: &mut Vec<u8>, row: &LentRow<'_>) -> Result<(), Memory>
    requires { IsTrue (members_have_texts (tuple_lent row.now.tuple.items)) }
    ensures { OnOk result
        (Appends (Canon (row_form (model_row row.now))) line.old.items line.new.items) }
{
    append(line, b"[[")?;
    append_members(line, &row.tuple)?;
    append(line, b"] ")?;
    append_entity(line, row.e)?;
    append(line, b"]")
}

/// Each member of a tuple.
fn append_members(line: &mut Vec<u8>, members: &[Option<&Value>]) -> Result<(), Memory>
    requires { IsTrue (members_have_texts (tuple_lent members.now)) }
    ensures { OnOk result (Appends (CanonAll (forms (map member_form (tuple_lent members.now))))
        line.old.items line.new.items) }
{
    for (index, member) in members.iter().enumerate() {
        separate(line, index)?;
        append_member(line, *member)?;
    }
    Ok(())
}

/// A value, or nil.
fn append_member(line: &mut Vec<u8>, member: Option<&Value>) -> Result<(), Memory>
    requires { IsTrue (option_map_or has_text (option_map (λ v. v.now) member) true) }
    ensures { OnOk result (Appends (Canon (member_form (option_map (λ v. v.now) member.entry)))
        line.old.items line.new.items) }
{
    match member {
        Some(v) => append_value(line, v),
        None => append(line, b"nil"),
    }
}
