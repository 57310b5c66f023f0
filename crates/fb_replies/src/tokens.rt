//! The parts of a line. Each call but `begin` appends, and none promises anything of the buffer where memory runs out.
ghost use Rattle.std.specs.Prelude.{◌≡◌, ◌∷◌, ◌++◌, OnOk, decimal, map};
ghost use Rattle.std.specs.Fmt.{signed_decimal};
ghost use Rattle.edn_model.specs.Bytes.{colon};
ghost use Rattle.edn_model.specs.Form.{pairs};
ghost use Rattle.edn_model.specs.Canon.{Canon, CanonPairs, string_text};
ghost use Rattle.edn_values.specs.Values.{number_of_entity as model_number_of_entity};
ghost use Rattle.edn_print.specs.Printed.{Appends, space_before};
ghost use Rattle.talk_model.specs.Replies.{entity, tempid_pair};

use edn_form::Edn;
use edn_print::print;
use fb_memory::Memory;
use fb_text::Text;
use itoa::Buffer;

/// Begins a line, in place of what the buffer held.
pub(crate) fn begin(line: &mut Vec<u8>, opening: &[u8]) -> Result<(), Memory>
    ensures { OnOk result (line.new.items ≡ opening.now) }
{
    line.clear();
    append(line, opening)
}

#[inline]
pub(crate) fn append(line: &mut Vec<u8>, bytes: &[u8]) -> Result<(), Memory>
    ensures { OnOk result (line.new.items ≡ line.old.items ++ bytes.now) }
{
    line.extend_from_slice(bytes)?;
    Ok(())
}

/// A space comes before each member but the first.
#[inline]
pub(crate) fn separate(line: &mut Vec<u8>, index: usize) -> Result<(), Memory>
    ensures { OnOk result (line.new.items ≡ line.old.items ++ space_before index) }
{
    match index {
        0 => Ok(()),
        _ => append(line, b" "),
    }
}

#[inline]
pub(crate) fn append_count(line: &mut Vec<u8>, n: u64) -> Result<(), Memory>
    ensures { OnOk result (line.new.items ≡ line.old.items ++ decimal n) }
{
    append(line, Buffer::new().format(n).as_bytes())
}

#[inline]
pub(crate) fn append_long(line: &mut Vec<u8>, n: i64) -> Result<(), Memory>
    ensures { OnOk result (line.new.items ≡ line.old.items ++ signed_decimal n) }
{
    append(line, Buffer::new().format(n).as_bytes())
}

/// An entity by its number.
pub(crate) fn append_entity(line: &mut Vec<u8>, e: u64) -> Result<(), Memory>
    ensures { OnOk result (Appends (Canon (entity e)) line.old.items line.new.items) }
{
    append_long(line, number_of_entity(e))
}

/// Every number past the greatest integer is printed as that integer; no entity has it.
fn number_of_entity(e: u64) -> i64
    ensures { result ≡ model_number_of_entity e }
{
    e.min(i64::MAX as u64) as i64
}

/// A keyword, given without its colon.
pub(crate) fn append_keyword(line: &mut Vec<u8>, word: &str) -> Result<(), Memory>
    ensures { OnOk result (line.new.items ≡ line.old.items ++ colon ∷ word.now) }
{
    append(line, b":")?;
    append(line, word.as_bytes())
}

fn append_string(line: &mut Vec<u8>, text: &Text) -> Result<(), Memory>
    ensures { OnOk result (line.new.items ≡ line.old.items ++ string_text text.now) }
{
    let form = Edn::Str(text.copy()?);
    print(&form, line)
}

/// The tempids, each with its entity after it.
pub(crate) fn append_tempids(line: &mut Vec<u8>, tempids: &[(Text, u64)]) -> Result<(), Memory>
    ensures { OnOk result (Appends (CanonPairs (pairs (map tempid_pair tempids.now)))
        line.old.items line.new.items) }
{
    for (index, (tempid, e)) in tempids.iter().enumerate() {
        separate(line, index)?;
        append_string(line, tempid)?;
        append(line, b" ")?;
        append_entity(line, *e)?;
    }
    Ok(())
}
