//! Texts: a length of four bytes, and UTF-8.
ghost use Rattle.std.specs.Prelude.{◌≡◌, ◌≤◌, ◌<◌, ◌^◌, ◌++◌, length, drop, OnOk};
ghost use Rattle.fb_codec.specs.Answers.{Gives, GivesBy};
ghost use Rattle.fb_codec.specs.Texts.{test_of};
ghost use Rattle.log_model.specs.Fields.{that_fits, piece, text_bytes, read_text, is_text};

use crate::faults::BytesFault;
use crate::fields::{get_u32, misfit, put};
use edn_values::{is_keyword_text, is_symbol_text};
use fb_memory::Memory;
use fb_text::Text;
use std::alloc::Global;
use std::str;

/// Which texts fit.
#[derive(Clone, Copy)]
pub enum Words {
    /// Those of keywords, without the colon.
    Keyword,
    Symbol,
    Any,
}

impl Words {
    ghost use Rattle.fb_codec.specs.Texts.{test_of};

    fn fit(self, text: &str) -> bool
        ensures { result ≡ test_of self text.now }
    {
        match self {
            Words::Keyword => is_keyword_text(text),
            Words::Symbol => is_symbol_text(text),
            Words::Any => true,
        }
    }
}

/// The text at a place. A short one takes no memory.
pub fn get_text(
    alloc: Global,
    bytes: &[u8],
    at: usize,
    words: Words,
) -> Result<(Text, usize), BytesFault>
    requires { at ≤ length bytes.now }
    ensures { Gives bytes.now result (read_text (test_of words) (drop at bytes.now)) }
{
    let (len, start) = get_u32(bytes, at)?;
    let (text, end) = get_words(bytes, start, len as usize, words)?;
    Ok((Text::of(alloc, text)?, end))
}

/// So many bytes, if they are a text that fits.
fn get_words(bytes: &[u8], at: usize, len: usize, words: Words) -> Result<(&str, usize), BytesFault>
    requires { at ≤ length bytes.now }
    ensures { GivesBy (λ s. s.now) bytes.now result
        (that_fits (is_text (test_of words)) (piece len) (drop at bytes.now)) }
{
    let Some(front) = bytes[at..].get(..len) else {
        return Err(misfit(at));
    };
    let Ok(text) = str::from_utf8(front) else {
        return Err(misfit(at));
    };
    if !words.fit(text) {
        return Err(misfit(at));
    }
    Ok((text, at + len))
}

/// A text, with its length in front.
pub fn put_text(text: &str, out: &mut Vec<u8>) -> Result<(), Memory>
    requires { length text.now < 2 ^ 32 }
    ensures { OnOk result (out.new.items ≡ out.old.items ++ text_bytes text.now) }
{
    put(&(text.len() as u32).to_be_bytes(), out)?;
    put(text.as_bytes(), out)
}
