//! Tags: the byte that a value begins with says its type.
ghost use Rattle.std.specs.Prelude.{◌≡◌, ◌≤◌, length, drop, IsTrue};
ghost use Rattle.fb_codec.specs.Answers.{GivesBy};
ghost use Rattle.fb_codec.specs.Tags.{byte_of};
ghost use Rattle.log_model.specs.Fields.{that_fits, read_u8};
ghost use Rattle.log_model.specs.Values.{is_format, is_tag};

use crate::faults::BytesFault;
use crate::fields::{WRITTEN_FORMAT, get_u8, misfit};

#[derive(Clone, Copy)]
pub(crate) enum Tag {
    Keyword,
    Str,
    Bool,
    Long,
    Ref,
    Instant,
    Uuid,
    Symbol,
    Uri,
}

impl Tag {
    ghost use Rattle.fb_codec.specs.Tags.{byte_of, IsTagOf};

    pub(crate) fn byte(self) -> u8
        ensures { result ≡ byte_of self }
    {
        match self {
            Tag::Keyword => 1,
            Tag::Str => 2,
            Tag::Bool => 3,
            Tag::Long => 4,
            Tag::Ref => 5,
            Tag::Instant => 6,
            Tag::Uuid => 7,
            Tag::Symbol => 8,
            Tag::Uri => 9,
        }
    }

    /// The tag that this byte is in one of the two formats.
    fn of(byte: u8, format: u8) -> Option<Tag>
        requires { IsTrue (is_format format) }
        ensures { IsTagOf format byte result }
    {
        match byte {
            1 => Some(Tag::Keyword),
            2 => Some(Tag::Str),
            3 => Some(Tag::Bool),
            4 => Some(Tag::Long),
            5 => Some(Tag::Ref),
            6 => Some(Tag::Instant),
            7 => Some(Tag::Uuid),
            8 if format == WRITTEN_FORMAT => Some(Tag::Symbol),
            9 if format == WRITTEN_FORMAT => Some(Tag::Uri),
            _ => None,
        }
    }
}

/// The tag at a place, in one of the two formats.
pub(crate) fn get_tag(bytes: &[u8], at: usize, format: u8) -> Result<(Tag, usize), BytesFault>
    requires place { at ≤ length bytes.now }
    requires format { IsTrue (is_format format) }
    ensures { GivesBy byte_of bytes.now result
        (that_fits (is_tag format) read_u8 (drop at bytes.now)) }
{
    let (byte, next) = get_u8(bytes, at)?;
    match Tag::of(byte, format) {
        None => Err(misfit(at)),
        Some(tag) => Ok((tag, next)),
    }
}
