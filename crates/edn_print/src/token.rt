//! The texts of the tokens. Each call appends, and on an error keeps what was there in front.
ghost use Rattle.std.specs.Prelude.{◌≡◌, ◌≤◌, ◌∷◌, ◌++◌, OnOk, if◌then◌else◌, codes, length};
ghost use Rattle.std.specs.Fmt.{signed_decimal};
ghost use Rattle.std.specs.Int.{w128, to_be_bytes};
ghost use Rattle.uuid.specs.Text.{lower, hyphenated_text};
ghost use Rattle.edn_model.specs.Canon.{string_text};
ghost use Rattle.edn_model.specs.Bytes.{colon};
ghost use Rattle.edn_print.specs.Printed.{KeepsFront};

use crate::escape::print_inside;
use fb_memory::Memory;
use itoa::Buffer;
use uuid::Uuid;

pub(crate) fn print_nil(out: &mut Vec<u8>) -> Result<(), Memory>
    ensures ok { OnOk result (out.new.items ≡ out.old.items ++ codes "nil") }
    ensures kept { KeepsFront out.old.items out.new.items }
{
    append(out, b"nil")
}

pub(crate) fn print_bool(out: &mut Vec<u8>, b: bool) -> Result<(), Memory>
    ensures ok { OnOk result (out.new.items
        ≡ out.old.items ++ (if b then codes "true" else codes "false")) }
    ensures kept { KeepsFront out.old.items out.new.items }
{
    if b {
        append(out, b"true")
    } else {
        append(out, b"false")
    }
}

pub(crate) fn print_int(out: &mut Vec<u8>, n: i64) -> Result<(), Memory>
    ensures ok { OnOk result (out.new.items ≡ out.old.items ++ signed_decimal n) }
    ensures kept { KeepsFront out.old.items out.new.items }
{
    append(out, Buffer::new().format(n).as_bytes())
}

/// Five characters are escaped: tab, line feed, carriage return, the quote and the backslash.
pub(crate) fn print_str(out: &mut Vec<u8>, s: &str) -> Result<(), Memory>
    ensures ok { OnOk result (out.new.items ≡ out.old.items ++ string_text s.now) }
    ensures kept { KeepsFront out.old.items out.new.items }
{
    append(out, b"\"")?;
    print_inside(out, s.as_bytes())?;
    append(out, b"\"")
}

pub(crate) fn print_sym(out: &mut Vec<u8>, s: &str) -> Result<(), Memory>
    ensures ok { OnOk result (out.new.items ≡ out.old.items ++ s.now) }
    ensures kept { KeepsFront out.old.items out.new.items }
{
    append(out, s.as_bytes())
}

/// A keyword, given without its colon.
pub(crate) fn print_key(out: &mut Vec<u8>, k: &str) -> Result<(), Memory>
    ensures ok { OnOk result (out.new.items ≡ out.old.items ++ colon ∷ k.now) }
    ensures kept { KeepsFront out.old.items out.new.items }
{
    append(out, b":")?;
    append(out, k.as_bytes())
}

pub(crate) fn print_uuid(out: &mut Vec<u8>, n: u128) -> Result<(), Memory>
    ensures ok { OnOk result (out.new.items
        ≡ out.old.items
        ++ (codes "#uuid " ++ string_text (hyphenated_text lower (to_be_bytes w128 n)))) }
    ensures kept { KeepsFront out.old.items out.new.items }
{
    append(out, b"#uuid ")?;
    print_hyphenated(out, n)
}

fn print_hyphenated(out: &mut Vec<u8>, n: u128) -> Result<(), Memory>
    ensures ok { OnOk result (out.new.items
        ≡ out.old.items ++ string_text (hyphenated_text lower (to_be_bytes w128 n))) }
    ensures kept { KeepsFront out.old.items out.new.items }
{
    let mut buffer = Uuid::encode_buffer();
    let text = lower_text(Uuid::from_u128(n), &mut buffer);
    print_str(out, text)
}

fn lower_text<'b>(uuid: Uuid, buffer: &'b mut [u8]) -> &'b str
    requires { 36 ≤ length buffer.old }
    ensures { result.now ≡ hyphenated_text lower uuid }
{
    uuid.hyphenated().encode_lower(buffer)
}

/// The bytes as they are.
pub(crate) fn append(out: &mut Vec<u8>, bytes: &[u8]) -> Result<(), Memory>
    ensures ok { OnOk result (out.new.items ≡ out.old.items ++ bytes.now) }
    ensures kept { KeepsFront out.old.items out.new.items }
{
    out.extend_from_slice(bytes)?;
    Ok(())
}
