//! Strings.
ghost use Rattle.edn_token.specs.Strings.{StringIs};

use crate::piece::{Piece, next_piece};
use fb_memory::Memory;
use fb_text::Text;
use std::alloc::{AllocError, Global};

/// Why no string was read.
#[derive(Clone, Copy, Debug, PartialEq, Eq)]
pub enum StringStop {
    /// An escape that is none, or a byte with which no character begins: its place after the string's first quote.
    Bad { at: usize },
    /// The input ends within the string.
    Cut,
    Memory,
}

impl From<Memory> for StringStop {
    ghost use Rattle.std.specs.Prelude.{◌≡◌};
    ghost use Rattle.edn_token.specs.declared.string.StringStop.TheVariants.{Memory};

    ghost from_gives = { λ _ e. e ≡ Memory };

    fn from(_e: Memory) -> StringStop {
        StringStop::Memory
    }
}

impl From<AllocError> for StringStop {
    ghost use Rattle.std.specs.Prelude.{◌≡◌};
    ghost use Rattle.edn_token.specs.declared.string.StringStop.TheVariants.{Memory};

    ghost from_gives = { λ _ e. e ≡ Memory };

    fn from(_e: AllocError) -> StringStop {
        StringStop::Memory
    }
}

/// The string whose first quote is before these bytes, and the place after its second.
pub fn read_string(alloc: Global, inside: &[u8]) -> Result<(Text, usize), StringStop>
    ensures { StringIs inside.now result }
{
    if let Piece::Plain(s) = next_piece(inside) {
        let (_, rest) = inside.split_at(s.len());
        if let Piece::Quote = next_piece(rest) {
            // Most strings have no escape; their bytes are copied once.
            return Ok((Text::of(alloc, s)?, s.len() + 1));
        }
    }
    read_pieces(alloc, inside)
}

fn read_pieces(alloc: Global, inside: &[u8]) -> Result<(Text, usize), StringStop>
    ensures { StringIs inside.now result }
{
    let mut text = String::new(alloc);
    let mut rest = inside;
    loop {
        match next_piece(rest) {
            Piece::Plain(s) => {
                text.push_str(s)?;
                rest = rest.split_at(s.len()).1;
            }
            Piece::Char { c, len } => {
                text.push(c)?;
                rest = rest.split_at(len).1;
            }
            Piece::Quote => {
                let text = Text::of(alloc, text.as_str())?;
                return Ok((text, inside.len() - rest.len() + 1));
            }
            Piece::Bad { at } => {
                return Err(StringStop::Bad {
                    at: inside.len() - rest.len() + at,
                });
            }
            Piece::Cut => return Err(StringStop::Cut),
        }
    }
}
