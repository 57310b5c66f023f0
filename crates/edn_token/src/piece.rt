//! The pieces of a string between its quotes.
ghost use Rattle.std.specs.Prelude.{IsTrue};
ghost use Rattle.edn_model.specs.Bytes.{is_plain, begins};
ghost use Rattle.edn_token.specs.Strings.{PieceIs};

use crate::bytes::split_plain;
use crate::characters::characters;
use crate::escape::read_escape;

/// What comes next in a string.
#[derive(Clone, Copy, Drop)]
pub(crate) enum Piece<'a> {
    /// Characters that spell themselves, up to the next that does not.
    Plain(&'a str),
    /// An escape, and how long it is.
    Char { c: char, len: usize },
    /// The quote that ends the string.
    Quote,
    /// An escape that is none, or a byte with which no character begins.
    Bad { at: usize },
    /// The end of the input.
    Cut,
}

pub(crate) fn next_piece(here: &[u8]) -> Piece<'_>
    ensures { PieceIs here.now result }
{
    let Some((first, behind)) = here.split_first() else {
        return Piece::Cut;
    };
    match *first {
        b'"' => Piece::Quote,
        b'\\' => read_escape(behind),
        _ => plain_piece(here),
    }
}

fn plain_piece(here: &[u8]) -> Piece<'_>
    requires { IsTrue (begins is_plain here.now) }
    ensures { PieceIs here.now result }
{
    let (run, _) = split_plain(here);
    match characters(run) {
        Ok(s) => Piece::Plain(s),
        Err(at) => Piece::Bad { at },
    }
}
