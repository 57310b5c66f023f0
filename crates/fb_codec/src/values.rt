//! Values: a tag, and the content after it.
ghost use Rattle.std.specs.Prelude.{◌≡◌, ◌≤◌, ◌<◌, ◌^◌, ◌++◌, ◌∷◌, ℕ, length, drop, IsTrue, IfOk, OnOk, IsErrOf};
ghost use Rattle.fb_codec.specs.Answers.{Gives};
ghost use Rattle.fb_codec.specs.Tags.{byte_of};
ghost use Rattle.fb_codec.specs.declared.faults.BytesFault.TheVariants.{At};
ghost use Rattle.log_model.specs.Fields.{found, misfit, text_bytes};
ghost use Rattle.log_model.specs.Values.{value_bytes, is_format, read_content, read_value};
ghost use Rattle.log_model.specs.Payload.{written_format};
ghost use Rattle.log_model.specs.Storable.{is_storable_value};

use crate::faults::BytesFault;
use crate::fields::{get_i64, get_truth, get_u64, get_u128, put};
use crate::tags::{Tag, get_tag};
use crate::texts::{Words, get_text, put_text};
use fb_memory::Memory;
use fb_values::Value;
use std::alloc::Global;

/// The value at a place, in one of the two formats.
pub fn get_value(
    alloc: Global,
    bytes: &[u8],
    at: usize,
    format: u8,
) -> Result<(Value, usize), BytesFault>
    requires place { at ≤ length bytes.now }
    requires format { IsTrue (is_format format) }
    ensures found { IfOk result (λ r. (r.1 ≤ length bytes.now)
        × (read_value format (drop at bytes.now) ≡ found r.0 (drop r.1 bytes.now))) }
    ensures misfit { (byte : ℕ) → IsErrOf result (At byte) → (byte ≤ length bytes.now)
        × (read_value format (drop at bytes.now) ≡ misfit (drop byte bytes.now)) }
{
    let (tag, behind) = get_tag(bytes, at, format)?;
    get_content(alloc, bytes, behind, tag)
}

/// The content after a tag.
fn get_content(
    alloc: Global,
    bytes: &[u8],
    at: usize,
    tag: Tag,
) -> Result<(Value, usize), BytesFault>
    requires { at ≤ length bytes.now }
    ensures { Gives bytes.now result (read_content (byte_of tag) (drop at bytes.now)) }
{
    match tag {
        Tag::Keyword => {
            let (text, end) = get_text(alloc, bytes, at, Words::Keyword)?;
            Ok((Value::Keyword(text), end))
        }
        Tag::Str => {
            let (text, end) = get_text(alloc, bytes, at, Words::Any)?;
            Ok((Value::Str(text), end))
        }
        Tag::Bool => {
            let (b, end) = get_truth(bytes, at)?;
            Ok((Value::Bool(b), end))
        }
        Tag::Long => {
            let (n, end) = get_i64(bytes, at)?;
            Ok((Value::Long(n), end))
        }
        Tag::Ref => {
            let (entity, end) = get_u64(bytes, at)?;
            Ok((Value::Ref(entity), end))
        }
        Tag::Instant => {
            let (millis, end) = get_i64(bytes, at)?;
            Ok((Value::Instant(millis), end))
        }
        Tag::Uuid => {
            let (uuid, end) = get_u128(bytes, at)?;
            Ok((Value::Uuid(uuid), end))
        }
        Tag::Symbol => {
            let (text, end) = get_text(alloc, bytes, at, Words::Symbol)?;
            Ok((Value::Symbol(text), end))
        }
        Tag::Uri => {
            let (text, end) = get_text(alloc, bytes, at, Words::Any)?;
            Ok((Value::Uri(text), end))
        }
    }
}

/// A value's bytes, in the format that is written.
pub fn put_value(v: &Value, out: &mut Vec<u8>) -> Result<(), Memory>
    requires { IsTrue (is_storable_value written_format v.now) }
    ensures { OnOk result (out.new.items ≡ out.old.items ++ value_bytes v.now) }
{
    match v {
        Value::Keyword(text) => put_tagged_text(Tag::Keyword, text.as_str(), out),
        Value::Str(text) => put_tagged_text(Tag::Str, text.as_str(), out),
        Value::Bool(b) => put_tagged(Tag::Bool, &[u8::from(*b)], out),
        Value::Long(n) => put_tagged(Tag::Long, &n.to_be_bytes(), out),
        Value::Ref(entity) => put_tagged(Tag::Ref, &entity.to_be_bytes(), out),
        Value::Instant(millis) => put_tagged(Tag::Instant, &millis.to_be_bytes(), out),
        Value::Uuid(uuid) => put_tagged(Tag::Uuid, &uuid.to_be_bytes(), out),
        Value::Symbol(text) => put_tagged_text(Tag::Symbol, text.as_str(), out),
        Value::Uri(text) => put_tagged_text(Tag::Uri, text.as_str(), out),
    }
}

fn put_tagged(tag: Tag, bytes: &[u8], out: &mut Vec<u8>) -> Result<(), Memory>
    ensures { OnOk result (out.new.items ≡ out.old.items ++ byte_of tag ∷ bytes.now) }
{
    out.push(tag.byte())?;
    put(bytes, out)
}

fn put_tagged_text(tag: Tag, text: &str, out: &mut Vec<u8>) -> Result<(), Memory>
    requires { length text.now < 2 ^ 32 }
    ensures { OnOk result (out.new.items ≡ out.old.items ++ byte_of tag ∷ text_bytes text.now) }
{
    out.push(tag.byte())?;
    put_text(text, out)
}
