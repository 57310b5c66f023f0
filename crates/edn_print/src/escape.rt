//! What a string has: runs of bytes as they are, and escapes between them.
ghost use Rattle.std.specs.Prelude.{◌≡◌, [], ◌∷◌, ◌++◌, OnOk, MatchOption, flat_map};
ghost use Rattle.std.specs.List.{prefix_len};
ghost use Rattle.edn_model.specs.Bytes.{backslash};
ghost use Rattle.edn_model.specs.Runs.{IsRun};
ghost use Rattle.edn_model.specs.Canon.{escaped};
ghost use Rattle.edn_print.specs.Printed as printed;
ghost use Rattle.edn_print.specs.Printed.{KeepsFront};

use crate::token::append;
use fb_memory::Memory;

/// What is between a string's quotes.
pub(crate) fn print_inside(out: &mut Vec<u8>, bytes: &[u8]) -> Result<(), Memory>
    ensures ok { OnOk result (out.new.items ≡ out.old.items ++ flat_map escaped bytes.now) }
    ensures kept { KeepsFront out.old.items out.new.items }
{
    let mut rest = bytes;
    loop {
        let (plain, behind) = split_plain(rest);
        append(out, plain)?;
        match behind.split_first() {
            None => return Ok(()),
            Some((b, after)) => {
                print_byte(out, *b)?;
                rest = after;
            }
        }
    }
}

/// The bytes in front that are written as they are, and what follows.
fn split_plain(bytes: &[u8]) -> (&[u8], &[u8])
    ensures { IsRun printed.is_unescaped bytes.now result.0.now result.1.now }
{
    bytes.split_at(plain_len(bytes))
}

fn plain_len(bytes: &[u8]) -> usize
    ensures { result ≡ prefix_len printed.is_unescaped bytes.now }
{
    bytes.iter().take_while(|b| is_unescaped(**b)).count()
}

fn is_unescaped(b: u8) -> bool
    ensures { result ≡ printed.is_unescaped b }
{
    b != b'\t' && b != b'\n' && b != b'\r' && b != b'"' && b != b'\\'
}

fn print_byte(out: &mut Vec<u8>, b: u8) -> Result<(), Memory>
    ensures ok { OnOk result (out.new.items ≡ out.old.items ++ escaped b) }
    ensures kept { KeepsFront out.old.items out.new.items }
{
    match escape_letter(b) {
        None => append(out, &[b]),
        Some(letter) => append(out, &[b'\\', letter]),
    }
}

/// The letter that follows a backslash for the byte, where it is escaped.
fn escape_letter(b: u8) -> Option<u8>
    ensures { MatchOption result (escaped b ≡ b ∷ [])
        (λ letter. escaped b ≡ backslash ∷ letter ∷ []) }
{
    match b {
        b'\t' => Some(b't'),
        b'\n' => Some(b'n'),
        b'\r' => Some(b'r'),
        b'"' | b'\\' => Some(b),
        _ => None,
    }
}
