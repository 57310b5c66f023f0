//! White space and comments.
ghost use Rattle.std.specs.Prelude.{◌≡◌, ◌≢◌, ℕ, ◌∷◌, List, MatchOption};
ghost use Rattle.edn_model.specs.Bytes.{semicolon};
ghost use Rattle.edn_token.specs.Gaps.{SkippedTo, LineIs};

use crate::bytes::{split_blank, split_line};
use crate::characters::characters;

/// The length of the white space and the comments in front, or the place of a byte in a comment with which no
/// character begins.
pub fn skip_blanks(here: &[u8]) -> Result<usize, usize>
    ensures { SkippedTo here.now result }
{
    let mut rest = here;
    loop {
        rest = split_blank(rest).1;
        let Some(line) = behind_semicolon(rest) else {
            return Ok(here.len() - rest.len());
        };
        match line_end(line) {
            Ok(len) => rest = line.split_at(len).1,
            Err(at) => return Err(here.len() - line.len() + at),
        }
    }
}

fn behind_semicolon(bytes: &[u8]) -> Option<&[u8]>
    ensures { MatchOption result
        ((line : List ℕ) → bytes.now ≢ semicolon ∷ line)
        (λ line. bytes.now ≡ semicolon ∷ line.now) }
{
    let (first, line) = bytes.split_first()?;
    if *first == b';' { Some(line) } else { None }
}

/// How long the rest of a comment is after its semicolon, with the line feed that ends it.
fn line_end(line: &[u8]) -> Result<usize, usize>
    ensures { LineIs line.now result }
{
    let (text, rest) = split_line(line);
    characters(text)?;
    match rest.split_first() {
        None => Ok(text.len()),
        Some(_) => Ok(text.len() + 1),
    }
}
